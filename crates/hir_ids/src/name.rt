//! Names of items.
ghost use Rattle.std.specs.Prelude.{◌≡◌, ℕ, nat_eq, List, IfOk};
ghost use Rattle.std.specs.Cmp.Lexicographic.{slice_cmp, pointwise};
ghost use Rattle.std.specs.Ordering.{nat_cmp, as_partial_cmp};
ghost use Rattle.std.specs.Cmp.{partial_order_from_own_ties};
ghost use Rattle.std.specs.Cmp.Rules.{comparing, hashing};
ghost use Rattle.std.proofs.Common.{rules};
ghost use Rattle.std.specs.Fmt.{debug_str};
ghost use Rattle.std.specs.Hash as fed;
ghost use Rattle.std.specs.List.{list_any};
ghost use Rattle.std.specs.Str.{chars};
ghost use Rattle.hir_ids.specs.BuiltinType.{builtin_text};
ghost use Rattle.hir_ids.specs.Refusal.{Gives};
ghost use Rattle.hir_ids.specs.NameForm.{ends_name, is_name, is_path_word, IsName};

use crate::builtin_type::BuiltinType;
use crate::text::Text;
use std::alloc::{AllocError, Global};
use std::cmp::Ordering;
use std::default::MadeWith;
use std::fmt::{Debug, Formatter, Write};
use std::hash::{Hash, Hasher};
use std::marker::Model;
use thiserror::Error;

/// The most bytes that a name may have.
pub const MAX_NAME: usize = 1000;

/// Why a text is no name, in the order in which it is looked for.
#[derive(Clone, Copy, Debug, PartialEq, Eq, Error)]
pub enum NameError {
    /// The text hasn't the form of a name.
    #[error("not a name")]
    Bad,
    /// The text has more than `MAX_NAME` bytes.
    #[error("a name of more than {MAX_NAME} bytes")]
    TooLarge,
    #[error("out of memory")]
    Memory,
}

/// A name of an item: a text of 1 to `MAX_NAME` bytes without `:`, `/` or white space, which doesn't begin with `$`
/// and is none of `self`, `super`, `crate`, `_` and `*`. Raw names stand without their `r#`.
#[derive(Drop)]
pub struct Name {
    text: Text,
}

impl Model for Name {
    ghost use Rattle.std.specs.Prelude.{ℕ, List};

    ghost Value = { List ℕ };

    ghost use Rattle.hir_ids.specs.NameForm.{IsName};

    ghost view = { λ n. n.text };

    ghost invariant = { λ n. IsName n.text };
}

/// Whether no name may have this character in it.
fn ends_name(c: char) -> bool
    ensures value { result ≡ ends_name c }
{
    c == ':' || c == '/' || c.is_whitespace()
}

/// Whether a text has the form of a name, however long it is.
pub fn is_name(text: &str) -> bool
    ensures value { result ≡ is_name text.now }
{
    !text.is_empty() && text.as_bytes()[0] != b'$' && !is_path_word(text) && !has_name_end(text)
}

/// Whether some character of a text can be in no name.
fn has_name_end(text: &str) -> bool
    ensures value { result ≡ list_any ends_name (chars text.now) }
{
    text.chars().any(|c| ends_name(c))
}

/// Whether a text is a word that stands where a name could stand.
fn is_path_word(text: &str) -> bool
    ensures value { result ≡ is_path_word text.now }
{
    text == "self" || text == "super" || text == "crate" || text == "_" || text == "*"
}

impl Name {
    ghost use Rattle.hir_ids.specs.Name.{name_verdict, IsMemory};

    /// The name that a text is.
    pub fn new(alloc: Global, text: &str) -> Result<Name, NameError>
        ensures answer { Gives IsMemory result (name_verdict text.now) }
    {
        if !is_name(text) {
            return Err(NameError::Bad);
        }
        if text.len() > MAX_NAME {
            return Err(NameError::TooLarge);
        }
        match Text::from_str(alloc, text) {
            Ok(text) => Ok(Name { text }),
            Err(_) => Err(NameError::Memory),
        }
    }

    /// The name that a text is, which is known to be one.
    pub fn of_valid(alloc: Global, text: &str) -> Result<Name, AllocError>
        requires valid { IsName text.now }
        ensures ok { IfOk result (λ n. n ≡ text.now) }
    {
        let text = Text::from_str(alloc, text)?;
        Ok(Name { text })
    }

    /// The name of a builtin type.
    #[tactic(auto, using(crate::proofs::BuiltinLemmas::is_name_of_builtin))]
    pub(crate) fn of_builtin(builtin: BuiltinType) -> Name
        ensures value { result ≡ builtin_text builtin }
    {
        Name {
            text: Text::of_builtin(builtin),
        }
    }

    /// The text.
    pub fn as_str(&self) -> &str
        ensures value { result.now ≡ self.now }
    {
        self.text.as_str()
    }

    /// The same name; both keep one text.
    pub fn clone(&self) -> Result<Name, AllocError>
        ensures value { IfOk result (λ n. n ≡ self.now) }
    {
        Ok(Name {
            text: self.text.clone()?,
        })
    }
}

// What fills the unused inline places of a `SmallVec` of names.
impl MadeWith<Global> for Name {
    fn made_with(_alloc: Global) -> Name {
        Name {
            text: Text::blank(),
        }
    }
}

impl PartialEq for Name {
    ghost eq = { pointwise nat_eq };

    ghost laws = { Prim.search (comparing, rules) };

    fn eq(&self, other: &Name) -> bool {
        self.text == other.text
    }
}

impl Eq for Name {
    ghost laws = { Prim.search (comparing, rules) };
}

impl Ord for Name {
    ghost cmp = { slice_cmp nat_cmp };

    ghost total = { Prim.search (comparing, rules) };

    ghost matches_partial_cmp = { Prim.search (comparing, rules) };

    ghost matches_eq = { Prim.search (comparing, rules) };

    #[inline(always)]
    fn cmp(&self, other: &Name) -> Ordering {
        self.text.cmp(&other.text)
    }
}

impl PartialOrd for Name {
    ghost partial_cmp = { as_partial_cmp (slice_cmp nat_cmp) };

    ghost laws = { partial_order_from_own_ties (Prim.search (comparing, rules)) (Prim.search (comparing, rules)) };

    fn partial_cmp(&self, other: &Name) -> Option<Ordering> {
        Some(self.cmp(other))
    }
}

impl Hash for Name {
    ghost hash_input = { fed.str };

    ghost respects_eq = { Prim.search (hashing, rules) };

    fn hash<H: Hasher>(&self, state: &mut H) {
        self.text.hash(state);
    }
}

impl Debug for Name {
    ghost debug_output = { debug_str };

    fn fmt<W: Write>(&self, f: &mut Formatter<W>) -> std::fmt::Result {
        let text = self.as_str();
        Debug::fmt(&text, f)
    }
}

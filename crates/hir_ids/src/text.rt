//! Texts that are cloned without a copy.
ghost use Rattle.std.specs.Prelude.{◌≡◌, ℕ, ◌<◌, nat_eq, List, IfOk, codes, string_bytes, get_or};
ghost use Rattle.std.specs.Cmp.Lexicographic.{slice_cmp, pointwise};
ghost use Rattle.std.specs.Ordering.{nat_cmp, as_partial_cmp};
ghost use Rattle.std.specs.Cmp.{partial_order_from_own_ties};
ghost use Rattle.std.specs.Cmp.Rules.{comparing, hashing};
ghost use Rattle.std.proofs.Common.{rules};
ghost use Rattle.std.specs.Fmt.{debug_str};
ghost use Rattle.std.specs.Hash as fed;
ghost use Rattle.hir_ids.specs.Head.{head_of, rest_of, AreBytes};
ghost use Rattle.std.specs.Rc.{rc_str_bytes};
ghost use Rattle.hir_ids.specs.BuiltinType.{builtin_text};

use crate::builtin_type::BuiltinType;
use std::alloc::{AllocError, Global};
use std::cmp::Ordering;
use std::fmt::{Debug, Formatter, Write};
use std::hash::{Hash, Hasher};
use std::marker::Model;
use std::rc::RcStr;

/// Where a text is kept.
#[derive(Drop)]
pub(crate) enum Kept {
    /// The text of an unused place.
    Blank,
    /// The name of a builtin type.
    Builtin(BuiltinType),
    Shared(RcStr),
}

/// A text with its first fifteen bytes and its length, up to 16, as two numbers. They tell texts apart and put them in order
/// without a look at their bytes, but for two that are longer than fifteen bytes and begin with the same.
#[derive(Drop)]
pub(crate) struct Headed {
    kept: Kept,
    head: u64,
    rest: u64,
}

impl Model for Headed {
    ghost use Rattle.std.specs.Prelude.{◌≡◌, ℕ, List};

    ghost Value = { List ℕ };

    ghost use Rattle.hir_ids.specs.Head.{head_of, rest_of, AreBytes};
    ghost use Rattle.hir_ids.specs.Text.{kept_bytes};

    ghost view = { λ t. kept_bytes t.kept };

    ghost invariant = { λ t. (t.head ≡ head_of (kept_bytes t.kept)) × (t.rest ≡ rest_of (kept_bytes t.kept)) × AreBytes (kept_bytes t.kept) };
}

/// The byte at a place, 0 behind the end.
fn byte_at(bytes: &[u8], index: usize) -> u64
    ensures value { result ≡ get_or bytes.now index 0 }
    ensures byte { result < 256 }
{
    if index < bytes.len() {
        u64::from(bytes[index])
    } else {
        0
    }
}

/// The first eight bytes as a number, the first the highest.
fn head_of(text: &str) -> u64
    ensures value { result ≡ head_of text.now }
    ensures bytes { AreBytes text.now }
{
    let bytes = text.as_bytes();
    let two = byte_at(bytes, 0) * 256 + byte_at(bytes, 1);
    let three = two * 256 + byte_at(bytes, 2);
    let four = three * 256 + byte_at(bytes, 3);
    let five = four * 256 + byte_at(bytes, 4);
    let six = five * 256 + byte_at(bytes, 5);
    let seven = six * 256 + byte_at(bytes, 6);
    seven * 256 + byte_at(bytes, 7)
}

/// The next seven bytes as a number, and behind them the length, 16 where it is greater.
fn rest_of(text: &str) -> u64
    ensures value { result ≡ rest_of text.now }
{
    let bytes = text.as_bytes();
    let length = if bytes.len() < 16 {
        bytes.len() as u64
    } else {
        16
    };
    let two = byte_at(bytes, 8) * 256 + byte_at(bytes, 9);
    let three = two * 256 + byte_at(bytes, 10);
    let four = three * 256 + byte_at(bytes, 11);
    let five = four * 256 + byte_at(bytes, 12);
    let six = five * 256 + byte_at(bytes, 13);
    let seven = six * 256 + byte_at(bytes, 14);
    seven * 256 + length
}

impl Headed {
    fn shared(text: RcStr) -> Headed
        ensures value { result ≡ rc_str_bytes text }
    {
        let head = head_of(text.as_str());
        let rest = rest_of(text.as_str());
        Headed {
            kept: Kept::Shared(text),
            head,
            rest,
        }
    }

    fn blank() -> Headed
        ensures value { result ≡ codes "blank" }
    {
        Headed {
            kept: Kept::Blank,
            head: head_of("blank"),
            rest: rest_of("blank"),
        }
    }

    fn of_builtin(builtin: BuiltinType) -> Headed
        ensures value { result ≡ builtin_text builtin }
    {
        Headed {
            kept: Kept::Builtin(builtin),
            head: head_of(builtin.as_str()),
            rest: rest_of(builtin.as_str()),
        }
    }

    fn head(&self) -> u64
        ensures value { result ≡ head_of self.now }
        ensures bytes { AreBytes self.now }
    {
        self.head
    }

    fn rest(&self) -> u64
        ensures value { result ≡ rest_of self.now }
        ensures bytes { AreBytes self.now }
    {
        self.rest
    }

    fn as_str(&self) -> &str
        ensures value { result.now ≡ self.now }
    {
        match &self.kept {
            Kept::Blank => "blank",
            Kept::Builtin(builtin) => builtin.as_str(),
            Kept::Shared(text) => text.as_str(),
        }
    }

    fn clone(&self) -> Result<Headed, AllocError>
        ensures value { IfOk result (λ t. t ≡ self.now) }
    {
        let kept = match &self.kept {
            Kept::Blank => Kept::Blank,
            Kept::Builtin(builtin) => Kept::Builtin(*builtin),
            Kept::Shared(text) => Kept::Shared(text.clone()?),
        };
        Ok(Headed {
            kept,
            head: self.head,
            rest: self.rest,
        })
    }
}

/// A text whose clones share its bytes.
#[derive(Drop)]
pub struct Text {
    kept: Headed,
}

impl Model for Text {
    ghost use Rattle.std.specs.Prelude.{ℕ, List};

    ghost Value = { List ℕ };

    ghost view = { λ t. t.kept };
}

impl Text {
    /// A copy of `text`, which its clones share.
    pub fn from_str(alloc: Global, text: &str) -> Result<Text, AllocError>
        ensures ok { IfOk result (λ t. t ≡ text.now) }
    {
        let kept = Headed::shared(RcStr::from_str(alloc, text)?);
        Ok(Text { kept })
    }

    /// The same text, without a copy.
    pub fn from_string(text: String) -> Result<Text, AllocError>
        ensures ok { IfOk result (λ t. t ≡ string_bytes text) }
    {
        let kept = Headed::shared(RcStr::from_string(text)?);
        Ok(Text { kept })
    }

    /// A text that stands where none has been written.
    pub fn blank() -> Text
        ensures value { result ≡ codes "blank" }
    {
        Text {
            kept: Headed::blank(),
        }
    }

    /// The name of a builtin type, without a copy.
    pub fn of_builtin(builtin: BuiltinType) -> Text
        ensures value { result ≡ builtin_text builtin }
    {
        Text {
            kept: Headed::of_builtin(builtin),
        }
    }

    /// The text.
    pub fn as_str(&self) -> &str
        ensures value { result.now ≡ self.now }
    {
        self.kept.as_str()
    }

    /// How two texts compare whose first eight bytes are equal.
    #[inline(never)]
    fn cmp_behind(&self, other: &Text) -> Ordering
        requires heads { head_of self.now ≡ head_of other.now }
        ensures value { result ≡ slice_cmp nat_cmp self.now other.now }
    {
        let rest = self.kept.rest();
        let other_rest = other.kept.rest();
        if rest < other_rest {
            return Ordering::Less;
        }
        if rest > other_rest {
            return Ordering::Greater;
        }
        if rest % 256 < 16 {
            return Ordering::Equal;
        }
        self.as_str().cmp(other.as_str())
    }

    /// Whether two texts are equal whose first eight bytes are.
    #[inline(never)]
    fn is_same_behind(&self, other: &Text) -> bool
        requires heads { head_of self.now ≡ head_of other.now }
        ensures value { result ≡ pointwise nat_eq self.now other.now }
    {
        let rest = self.kept.rest();
        if rest != other.kept.rest() {
            return false;
        }
        if rest % 256 < 16 {
            return true;
        }
        self.as_str() == other.as_str()
    }

    /// The same text, which both then keep.
    pub fn clone(&self) -> Result<Text, AllocError>
        ensures value { IfOk result (λ t. t ≡ self.now) }
    {
        Ok(Text {
            kept: self.kept.clone()?,
        })
    }
}

impl PartialEq for Text {
    ghost eq = { pointwise nat_eq };

    ghost laws = { Prim.search (comparing, rules) };

    #[inline(always)]
    fn eq(&self, other: &Text) -> bool {
        self.kept.head() == other.kept.head() && self.is_same_behind(other)
    }
}

impl Eq for Text {
    ghost laws = { Prim.search (comparing, rules) };
}

impl Ord for Text {
    ghost cmp = { slice_cmp nat_cmp };

    ghost total = { Prim.search (comparing, rules) };

    ghost matches_partial_cmp = { Prim.search (comparing, rules) };

    ghost matches_eq = { Prim.search (comparing, rules) };

    // It is most of what a search by name does, and heads decide nearly always.
    #[inline(always)]
    fn cmp(&self, other: &Text) -> Ordering {
        let head = self.kept.head();
        let other_head = other.kept.head();
        if head < other_head {
            return Ordering::Less;
        }
        if head > other_head {
            return Ordering::Greater;
        }
        self.cmp_behind(other)
    }
}

impl PartialOrd for Text {
    ghost partial_cmp = { as_partial_cmp (slice_cmp nat_cmp) };

    ghost laws = { partial_order_from_own_ties (Prim.search (comparing, rules)) (Prim.search (comparing, rules)) };

    fn partial_cmp(&self, other: &Text) -> Option<Ordering> {
        Some(self.cmp(other))
    }
}

impl Hash for Text {
    ghost hash_input = { fed.str };

    ghost respects_eq = { Prim.search (hashing, rules) };

    fn hash<H: Hasher>(&self, state: &mut H) {
        self.as_str().hash(state);
    }
}

impl Debug for Text {
    ghost debug_output = { debug_str };

    fn fmt<W: Write>(&self, f: &mut Formatter<W>) -> std::fmt::Result {
        let text = self.as_str();
        Debug::fmt(&text, f)
    }
}

//! Names as they print.
ghost use Rattle.std.specs.Prelude.{◌≡◌, Some, map};
ghost use Rattle.hir_ids.specs.Display.{keywords, kept_words, words_of_2018, words_of_2024, is_one_of, is_newly_reserved, is_reserved, shown};
ghost use Rattle.hir_ids.specs.DisplayText.{name_display_text};

use crate::edition::Edition;
use crate::name::Name;
use std::fmt::{Display, Formatter, Write};

/// The words that are keywords in each edition.
const KEYWORDS: [&str; 31] = [
    "as", "break", "const", "continue", "else", "enum", "extern", "false", "fn", "for", "if",
    "impl", "in", "let", "loop", "match", "mod", "move", "mut", "pub", "ref", "return", "static",
    "struct", "trait", "true", "type", "unsafe", "use", "where", "while",
];

/// The words that are kept free in each edition.
const KEPT_WORDS: [&str; 12] = [
    "abstract", "become", "box", "do", "final", "macro", "override", "priv", "typeof", "unsized",
    "virtual", "yield",
];

/// The words that edition 2018 reserved.
const WORDS_OF_2018: [&str; 4] = ["async", "await", "dyn", "try"];

/// Whether a text is one of these words.
fn is_one_of(words: &[&str], text: &str) -> bool
    ensures value { result ≡ is_one_of (map (λ word. word.now) words.now) text.now }
{
    for word in words {
        if text == *word {
            return true;
        }
    }
    false
}

/// Whether a word is a keyword in each edition.
fn is_keyword(text: &str) -> bool
    ensures value { result ≡ is_one_of keywords text.now }
{
    is_one_of(&KEYWORDS, text)
}

/// Whether a word is kept free in each edition.
fn is_kept(text: &str) -> bool
    ensures value { result ≡ is_one_of kept_words text.now }
{
    is_one_of(&KEPT_WORDS, text)
}

/// Whether edition 2018 reserved a word.
fn is_word_of_2018(text: &str) -> bool
    ensures value { result ≡ is_one_of words_of_2018 text.now }
{
    is_one_of(&WORDS_OF_2018, text)
}

/// Whether an edition reserves a word that an earlier one left free.
fn is_newly_reserved(edition: Edition, text: &str) -> bool
    ensures value { result ≡ is_newly_reserved edition text.now }
{
    match edition {
        Edition::Edition2015 => false,
        Edition::Edition2018 | Edition::Edition2021 => is_word_of_2018(text),
        Edition::Edition2024 => is_word_of_2018(text) || text == "gen",
    }
}

/// Whether a word is reserved in an edition, so that a name of it is written raw.
pub fn is_reserved(edition: Edition, text: &str) -> bool
    ensures value { result ≡ is_reserved edition text.now }
{
    is_keyword(text) || is_kept(text) || is_newly_reserved(edition, text)
}

/// A name as it prints; see `Name::display`.
#[derive(Clone, Copy)]
pub struct NameDisplay<'a> {
    pub name: &'a Name,
    pub edition: Option<Edition>,
}

impl Name {
    /// The name as it is written in an edition: a reserved word is raw.
    pub fn display(&self, edition: Edition) -> NameDisplay<'_>
        ensures value { name_display_text result ≡ shown (Some edition) self.now }
    {
        NameDisplay {
            name: self,
            edition: Some(edition),
        }
    }
}

impl Display for NameDisplay<'_> {
    ghost output = { λ d. Some (shown d.edition d.name.now) };

    fn fmt<W: Write>(&self, f: &mut Formatter<W>) -> std::fmt::Result {
        if let Some(edition) = self.edition {
            if is_reserved(edition, self.name.as_str()) {
                f.write_str("r#")?;
            }
        }
        f.write_str(self.name.as_str())
    }
}

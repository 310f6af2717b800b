// The line that is being read, which comes in pieces.
ghost use Rattle.std.specs.Prelude.{MatchOption};
ghost use Rattle.hir_lines.specs.Lines.{HasNoEnd, EndsLine};

use memchr::memchr;
use std::alloc::Global;

/// The longest line that is answered, in bytes.
pub const LINE_LIMIT: usize = 16_777_216;

/// What becomes of the line that is being read.
#[derive(Clone, Copy, Debug, PartialEq, Eq)]
pub enum Fate {
    Kept,
    Refused,
    TooLarge,
}

/// The line that is being read.
///
/// Its bytes are kept until it passes the limit, or until memory for them is refused.
#[derive(Drop)]
pub struct OpenLine {
    pub kept: Vec<u8>,
    length: usize,
    pub fate: Fate,
}

impl OpenLine {
    ghost use Rattle.std.specs.Prelude.{◌≡◌, ◌++◌, [], List, ℕ, nat_lt, length};
    ghost use Rattle.hir_lines.specs.OpenLines.{Holds};

    pub fn new(alloc: Global) -> OpenLine
        ensures open { Holds result [] }
    {
        OpenLine {
            kept: Vec::new(alloc),
            length: 0,
            fate: Fate::Kept,
        }
    }

    /// One more piece of the line.
    pub fn extend(&mut self, alloc: Global, piece: &[u8])
        ensures open { (part : List ℕ) → Holds self.old part → Holds self.new (part ++ piece.now) }
    {
        if self.fate == Fate::TooLarge {
            return;
        }
        if piece.len() > LINE_LIMIT.saturating_sub(self.length) {
            self.kept = Vec::new(alloc);
            self.fate = Fate::TooLarge;
            return;
        }
        self.length += piece.len();
        if self.fate == Fate::Kept && self.kept.extend_from_slice(piece).is_err() {
            self.kept = Vec::new(alloc);
            self.fate = Fate::Refused;
        }
    }

    /// Begins the next line.
    pub fn clear(&mut self)
        ensures open { Holds self.new [] }
    {
        self.kept.clear();
        self.length = 0;
        self.fate = Fate::Kept;
    }

    /// Whether the line has a byte.
    pub fn is_started(&self) -> bool
        ensures value { (part : List ℕ) → Holds self.now part → result ≡ nat_lt 0 (length part) }
    {
        self.length > 0 || self.fate == Fate::TooLarge
    }
}

/// The first line that ends in the bytes, and what follows its end.
pub fn split_line(bytes: &[u8]) -> Option<(&[u8], &[u8])>
    ensures answer { MatchOption result (HasNoEnd bytes.now) (λ p. EndsLine bytes.now p.0.now p.1.now) }
{
    let end = memchr(b'\n', bytes)?;
    let (line, after) = bytes.split_at(end);
    Some((line, &after[1..]))
}

//! Rows of bits, 64 a word.
ghost use Rattle.std.specs.Prelude.{◌≡◌, ℕ, ◌+◌, ◌*◌, ◌<◌, ◌≤◌, ◌||◌, ◌==◌, false, length, vec_len, OnOk, MatchOption};
ghost use Rattle.hir_crate_graph.specs.Bits.{has_bit, IsFirstBit, IsLastBit};

use std::alloc::AllocError;

/// Whether the bit at a place is set.
#[tactic(auto, using(crate::proofs::Rows::tested))]
pub(crate) fn has_bit(words: &[u64], place: usize) -> bool
    ensures value { result ≡ has_bit words.now place }
{
    if place / 64 >= words.len() {
        return false;
    }
    (words[place / 64] >> (place % 64)) & 1 == 1
}

/// Makes the row so long, by bits that are not set.
pub(crate) fn lengthen(words: &mut Vec<u64>, len: usize) -> Result<(), AllocError>
    ensures same { (n : ℕ) → has_bit words.new.items n ≡ has_bit words.old.items n }
    ensures long { OnOk result (len ≤ vec_len words.new) }
    ensures within { (most : ℕ) → vec_len words.old ≤ most → len ≤ most → vec_len words.new ≤ most }
{
    'grow: while words.len() < len {
        words.push(0)?;
    }
    Ok(())
}

/// Sets the bit at a place.
pub(crate) fn set_bit(words: &mut [u64], place: usize)
    requires within { place < 64 * length words.old }
    ensures value { (n : ℕ) → has_bit words.new n ≡ (has_bit words.old n || n == place) }
{
    words[place / 64] |= 1 << (place % 64);
}

/// Sets each bit that another row has set.
pub(crate) fn set_all(words: &mut [u64], others: &[u64])
    requires long { length others.now ≤ length words.old }
    ensures value { (n : ℕ) → has_bit words.new n ≡ (has_bit words.old n || has_bit others.now n) }
{
    for at in 0..others.len() {
        words[at] |= others[at];
    }
}

/// The first place, from one on and below another, at which a bit is set.
pub(crate) fn first_from(words: &[u64], from: usize, to: usize) -> Option<usize>
    requires within { to ≤ 64 * length words.now }
    requires few { length words.now ≤ 67108864 }
    ensures value { MatchOption result ((n : ℕ) → from ≤ n → n < to → has_bit words.now n ≡ false) (IsFirstBit words.now from to) }
{
    let mut at = from;
    'next: while at < to {
        if at % 64 == 0 && words[at / 64] == 0 {
            at += 64;
        } else if has_bit(words, at) {
            return Some(at);
        } else {
            at += 1;
        }
    }
    None
}

/// The last place, from one on and below another, at which a bit is set.
pub(crate) fn last_below(words: &[u64], from: usize, to: usize) -> Option<usize>
    requires within { to ≤ 64 * length words.now }
    requires few { length words.now ≤ 67108864 }
    ensures value { MatchOption result ((n : ℕ) → from ≤ n → n < to → has_bit words.now n ≡ false) (IsLastBit words.now from to) }
{
    let mut at = to;
    'next: while from < at {
        if at % 64 == 0 && words[at / 64 - 1] == 0 {
            at -= 64;
        } else if has_bit(words, at - 1) {
            return Some(at - 1);
        } else {
            at -= 1;
        }
    }
    None
}

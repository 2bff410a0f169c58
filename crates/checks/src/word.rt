// Tests of the word at an index, which may be absent: it is then read as 0, and so is of no kind that is asked for.
ghost use Rattle.std.specs.Prelude.{◌≡◌, ◌&&◌, ◌<◌, eqb};
ghost use Rattle.words.specs.Word.{bits, payload_of};
ghost use Rattle.words.specs.Bytes.{words_of};
ghost use Rattle.checks.specs.Checked.{word_at, is_kind};

use crate::kind::Kind;

// Asked with a number: a type of kinds would leave out numbers that may be asked for, as those of a list of corrections.
#[tactic(auto, using(crate::proofs::Tests::kind_read))]
pub fn is_kind(s: &[u8], at: usize, kind: u32) -> bool
    requires { 0 < kind }
    ensures { result ≡ is_kind kind (words_of s.now) at }
{
    words::kind(words::word_or_zero(s, at)) == kind
}

// The end of a sheet or of an answer: its payload is the count of the words before it.
pub fn is_end(s: &[u8], at: usize) -> bool
    ensures { result ≡ is_kind 15 (words_of s.now) at && eqb (payload_of (word_at (words_of s.now) at)) at }
{
    Kind::End.is_at(s, at) && words::payload(words::word_or_zero(s, at)) as usize == at
}

// Bit 27, of a sample or of a constant, which is laid out as one.
pub fn spare_bit_zero(s: &[u8], at: usize) -> bool
    ensures { result ≡ eqb (bits 27 1 (word_at (words_of s.now) at)) 0 }
{
    words::bits::<27, 1>(words::word_or_zero(s, at)) == 0
}

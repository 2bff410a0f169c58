// The words with which a sheet or an answer begins, narrow or wide: a word that is absent is read as 0.
ghost use Rattle.std.specs.Prelude.{◌≡◌, ◌<◌};
ghost use Rattle.words.specs.Word.{bits};
ghost use Rattle.words.specs.Bytes.{words_of};
ghost use Rattle.checks.specs.Heads.{head_words, is_wide, head_of, places_of, wide_counted, wide_followed};

use crate::kind::Kind;
use crate::limits::{MOST_PLACES, within};
use crate::word::is_kind;

#[tactic(auto, unfolding(crate::specs::Heads::is_wide))]
pub fn is_wide(s: &[u8]) -> bool
    ensures { result ≡ is_wide (words_of s.now) }
{
    Kind::Wide.is_at(s, 0)
}

// So many words there are before the roads of a sheet and before the lines of an answer. Wide or narrow is a flag, here and wherever it is told, as in the
// definitions.
pub fn head_words(wide: bool) -> usize
    ensures { result ≡ head_words wide }
{
    if wide { 2 } else { 1 }
}

// The word of the sizes.
#[tactic(auto, unfolding(crate::specs::Heads::head_of))]
pub fn head(s: &[u8]) -> u32
    ensures { result ≡ head_of (words_of s.now) }
{
    if is_wide(s) {
        return words::word_or_zero(s, 1);
    }
    words::word_or_zero(s, 0)
}

// The places that the first word of a wide one tells.
fn wide_places(first: u32) -> usize
    ensures { result ≡ bits 0 16 first }
{
    words::bits::<0, 16>(first) as usize
}

#[tactic(auto, unfolding(crate::specs::Heads::places_of))]
pub fn places(s: &[u8]) -> usize
    ensures { result ≡ places_of (words_of s.now) }
{
    let first = words::word_or_zero(s, 0);
    if is_wide(s) {
        return wide_places(first);
    }
    words::bits::<20, 8>(first) as usize
}

// Whether the first word of a wide one has places in their limits, and nothing else.
#[tactic(auto, unfolding(crate::specs::Heads::wide_counted))]
pub fn wide_counted(s: &[u8]) -> bool
    ensures { result ≡ wide_counted (words_of s.now) }
{
    let first = words::word_or_zero(s, 0);
    within(wide_places(first), MOST_PLACES) && words::bits::<16, 12>(first) == 0
}

// Whether a head of the kind with this number, with places 0, follows it. Asked with a number as `is_kind` is.
#[tactic(auto, unfolding(crate::specs::Heads::wide_followed))]
pub fn wide_followed(s: &[u8], kind: u32) -> bool
    requires { 0 < kind }
    ensures { result ≡ wide_followed (words_of s.now) kind }
{
    is_kind(s, 1, kind) && words::bits::<20, 8>(words::word_or_zero(s, 1)) == 0
}

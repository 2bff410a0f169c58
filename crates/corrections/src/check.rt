// The check of each correction for itself, word by word: 19.
ghost use Rattle.std.specs.Prelude.{◌≡◌, ◌+◌, ◌*◌, ◌<◌, ◌^◌};
ghost use Rattle.words.specs.Bytes.{words_of};
ghost use Rattle.checks.specs.Said.{said};
ghost use Rattle.corrections.specs.Corrections.{count, sample_named, place_named, well_formed};
ghost use Rattle.corrections.specs.Aimed.{all_well_formed};

use crate::correction::{Grid, place_of, revision_of, signal_of, time_of};
use crate::naming::Naming;
use checks::fault::{Fault, Refusal};
use checks::kind::Kind;
use checks::word::{is_kind, spare_bit_zero};

// How many corrections there are, an unfinished last one included.
pub fn correction_count(list: &[u8]) -> usize
    ensures { result ≡ count (words_of list.now) }
{
    words::word_count(list).div_ceil(3)
}

// The first word: a revision, a signal and a time of the sheet. Of k it is known here only that the indices of its words fit, as the words may be absent;
// of those that are there `Corrections` tells. Until a list has passed its words, a number and the grid stay parameters.
fn names_sample(list: &[u8], k: usize, grid: Grid) -> bool
    requires { k * 3 + 2 < 2 ^ 64 }
    ensures { result ≡ sample_named (words_of list.now) grid k }
{
    let at = k * 3;
    let first = words::word_or_zero(list, at);
    is_kind(list, at, Naming::Sample.number())
        && 1 <= revision_of(first)
        && signal_of(first) < grid.signals
        && time_of(first) < grid.samples
}

// The second word: a place of the sheet.
fn names_place(list: &[u8], k: usize, grid: Grid) -> bool
    requires { k * 3 + 2 < 2 ^ 64 }
    ensures { result ≡ place_named (words_of list.now) grid k }
{
    let at = k * 3 + 1;
    let second = words::word_or_zero(list, at);
    is_kind(list, at, Naming::Place.number())
        && words::bits::<16, 12>(second) == 0
        && place_of(second) < grid.places
}

// The three words of one correction.
#[tactic(auto, unfolding(crate::specs::Corrections::well_formed))]
fn check_correction(list: &[u8], k: usize, grid: Grid) -> Result<(), Refusal>
    requires { k * 3 + 2 < 2 ^ 64 }
    ensures { said (λ passed. passed) result ≡ well_formed (words_of list.now) grid k }
{
    if !names_sample(list, k, grid) {
        return Err(Fault::CorrectionFaulty.at(k * 3));
    }
    if !names_place(list, k, grid) {
        return Err(Fault::CorrectionFaulty.at(k * 3 + 1));
    }
    let at = k * 3 + 2;
    if !Kind::Sample.is_at(list, at) || !spare_bit_zero(list, at) {
        return Err(Fault::CorrectionFaulty.at(at));
    }
    Ok(())
}

// One after the other; the first fault counts.
#[tactic(auto, using(crate::proofs::Turns::turn_next, crate::proofs::Turns::turn_refused, words::proofs::Words::words_count), unfolding(crate::specs::Corrections::in_turn))]
pub fn check_corrections(list: &[u8], grid: Grid) -> Result<(), Refusal>
    ensures { said (λ passed. passed) result ≡ all_well_formed (words_of list.now) grid }
{
    for k in 0..correction_count(list) {
        check_correction(list, k, grid)?;
    }
    Ok(())
}

// The survey of a sheet: its check, and the distances of its network in the lent table.
ghost use Rattle.std.specs.Prelude.{◌≡◌, length, replicate};
ghost use Rattle.words.specs.Bytes.{words_of, after_numbers};
ghost use Rattle.checks.specs.Said.{said};
ghost use Rattle.distances.specs.Distances.{numbers_in, room_in};
ghost use Rattle.sheet.specs.Checking.{layout_checked};
ghost use Rattle.sheet.specs.Survey.{surveyed};

use crate::check::{Layout, check_sheet};
use checks::fault::Refusal;
use distances::fill_distances;

// On a refusal the whole table is zero, whatever it held.
#[tactic(auto, using(crate::proofs::Surveys::accepting, crate::proofs::Surveys::lent_roads, crate::proofs::Surveys::left_zero, words::proofs::Zeros::numbers_tail, words::proofs::Zeros::zero_numbers_tail))]
pub fn survey(s: &[u8], distances: &mut [u8]) -> Result<Layout, Refusal>
    ensures decided { said (λ layout. layout) result ≡ layout_checked (words_of s.now) (room_in distances.old) }
    ensures measured { numbers_in distances.new ≡ surveyed (words_of s.now) (room_in distances.old) }
    ensures tail { after_numbers distances.new ≡ replicate (length (after_numbers distances.old)) 0 }
{
    let room = words::number_count(distances);
    match check_sheet(s, room) {
        Err(refusal) => {
            words::fill_zero(distances);
            Err(refusal)
        }
        Ok(layout) => {
            fill_distances(s, layout.places, layout.roads, distances);
            Ok(layout)
        }
    }
}

// The verdicts of a line, sample by sample, for every operator but those over space.
ghost use Rattle.std.specs.Prelude.{◌≡◌, ◌+◌, ◌*◌, ◌≤◌, length};
ghost use Rattle.words.specs.Bytes.{words_of, after_words};
ghost use Rattle.words.specs.Rows.{put};
ghost use Rattle.operators.specs.Rows.{Filled};
ghost use Rattle.verdicts.specs.Rows.{RowReadyIn, RowsReadyIn, value_in, row_words_in, row_yes_in, RowsWrittenIn};

use crate::row_values::value_row;
use checks::limits::MOST_PLACES;
use locating::RowOperator;
use samples::sample::write_values;
use samples::tally::Tally;
use sheet::check::Layout;

// A line that goes sample by sample: its operator, and what its verdicts are made from: the sheet, and the words before its own. A `SpaceLine`
// has these three fields too: as one value within both they would be no plainer, a field further off in some seventy places, a public contract among them.
#[derive(Clone, Copy)]
pub struct RowLine<'a> {
    pub operator: RowOperator,
    pub sheet: &'a [u8],
    pub layout: Layout,
    pub before: &'a [u8],
}

// Writes the words of sample t from index `to` of the line's own on, and counts its yes verdicts. `held` has the values at the sample before, if
// there is one, and then those at t.
#[tactic(auto, using(words::proofs::Words::words_count, crate::proofs::Points::row_words, crate::proofs::Points::row_yes))]
fn write_row(line: RowLine, own: &mut [u8], to: usize, t: usize, held: &mut [u32]) -> u64
    requires { RowReadyIn line t held.old × (to + line.layout.places ≤ length (words_of own.old)) }
    ensures written { words_of own.new ≡ put (words_of own.old) to (row_words_in line.entry t) }
    ensures counted { result ≡ row_yes_in line.entry t }
    ensures held { Filled line.entry.layout.places (value_in line.entry t) held.new }
    ensures tail { after_words own.new ≡ after_words own.old }
{
    value_row(line, t, held);
    write_values(&held[..line.layout.places], own, to)
}

// Writes all words of a line of `samples` samples.
#[tactic(auto, using(words::proofs::Words::words_count, samples::proofs::LineRows::row_room))]
pub fn write_rows(line: RowLine, own: &mut [u8], samples: usize) -> Tally
    requires { RowsReadyIn line samples × (samples * line.layout.places ≤ length (words_of own.old)) }
    ensures written { RowsWrittenIn line.entry own.old samples own.new result }
    ensures tail { after_words own.new ≡ after_words own.old }
{
    let mut held = [0u32; MOST_PLACES];
    let mut yes: u64 = 0;
    for t in 0..samples {
        let to = t * line.layout.places;
        yes += write_row(line, own, to, t, &mut held);
    }
    Tally { rounds: 0, yes }
}

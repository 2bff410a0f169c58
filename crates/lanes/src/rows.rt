// A row of lanes from the words of an answer, and the range of a centre.
ghost use Rattle.std.specs.Prelude.{◌≡◌, ◌<◌};
ghost use Rattle.words.specs.Bytes.{words_of};
ghost use Rattle.lanes.specs.Lanes.{lanes, row_of};
ghost use Rattle.lanes.specs.Strips.{Held};
ghost use Rattle.lanes.specs.Rows.{Room, RowWritten, BlockThere, lane_signal, within_in};

use crate::{LANES, Place, Row, Strip};
use codes::operator::Bounds;
use distances::table::Distances;

// Samples first to first + count - 1, side by side.
#[derive(Clone, Copy)]
pub struct Block {
    pub first: usize,
    pub count: usize,
}

// The chain number of a place at the sample of a lane, and the lowest past the last of the samples. Words, start and places stay three parameters, here, in
// `load_strip` and in `load`: the operators, whose `Operand` is such a value, lie beside this crate and not below it, and `signal_at` would be called with
// the three again.
#[tactic(auto, using(crate::proofs::RowLaws::signal_index, words::proofs::Words::words_count))]
fn lane_signal(
    words: &[u8],
    start: usize,
    places: usize,
    block: Block,
    place: usize,
    lane: usize,
) -> u32
    requires { BlockThere words.now start places block × (place < places) }
    ensures { result ≡ lane_signal (words_of words.now) start places block lane place }
{
    if lane < block.count {
        values::signal_at(words, start, places, block.first + lane, place)
    } else {
        values::bottom()
    }
}

// Decodes a signal at the samples of a block into a strip of one place.
pub fn load_strip(words: &[u8], start: usize, places: usize, block: Block, place: usize) -> Strip
    requires { BlockThere words.now start places block × (place < places) }
    ensures { Held lanes (λ lane. lane_signal (words_of words.now) start places block lane place) result }
{
    let mut strip: Strip = [0; LANES];
    for (lane, x) in strip.iter_mut().enumerate() {
        *x = lane_signal(words, start, places, block, place, lane);
    }
    strip
}

// Decodes a signal at the samples of a block into a row, once for all centres.
pub fn load(words: &[u8], start: usize, places: usize, block: Block, row: Row, rows: &mut [Place])
    requires { BlockThere words.now start places block × Room places rows.old }
    ensures { RowWritten (row_of row) places (lane_signal (words_of words.now) start places block) rows.old rows.new }
{
    for (l, place) in rows[..places].iter_mut().enumerate() {
        place.put(row, load_strip(words, start, places, block, l));
    }
}

// Whether a place lies within bounds of a centre. Distances, centre and bounds stay three parameters, here and in what asks of a centre: of the same
// distances and bounds every place is the centre once.
#[tactic(auto, unfolding(values::specs::Signals::in_table))]
pub fn in_range(distances: Distances, centre: usize, place: usize, bounds: Bounds) -> bool
    requires { (centre < distances.places) × (place < distances.places) }
    ensures { result ≡ within_in distances.entry centre bounds place }
{
    distances.between(centre, place).is_some_and(|distance| {
        bounds.lower as u64 <= distance && distance <= bounds.upper as u64
    })
}

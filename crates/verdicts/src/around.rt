// The verdicts of a line over space, a surround or somewhere or everywhere: the samples of a block are evaluated side by side about every centre,
// and then written sample by sample.
ghost use Rattle.std.specs.Prelude.{◌≡◌, ◌+◌, ◌*◌, ◌<◌, ◌≤◌, length};
ghost use Rattle.words.specs.Bytes.{words_of, after_words};
ghost use Rattle.lanes.specs.Lanes.{lanes, out_row, row_in};
ghost use Rattle.lanes.specs.Rows.{Room};
ghost use Rattle.operators.specs.Rows.{Filled};
ghost use Rattle.verdicts.specs.Around.{PlacesFit, LanesBounded, LanesWritten, AroundReadyIn, OwnRoom, BlockFitsIn, BlockFilledIn, BlockWrittenIn, AroundWrittenIn};

use checks::limits::{MOST_NARROW, MOST_PLACES};
use distances::table::Distances;
use lanes::rows::Block;
use lanes::{LANES, Place};
use locating::Around;
use ranges::somewhere_block;
use samples::sample::write_values;
use samples::tally::Tally;
use sheet::check::Layout;
use surrounds::surround::{SheetNetwork, surround_block};

// A line over space: what is asked about every place, and what its verdicts are made from: the sheet with its distances, and the words before its own.
// Three fields are those of a `RowLine`, and row.rt says why they stand in both.
#[derive(Clone, Copy)]
pub struct SpaceLine<'a> {
    pub around: Around,
    pub sheet: &'a [u8],
    pub layout: Layout,
    pub distances: &'a [u8],
    pub before: &'a [u8],
}

// The numbers of one lane, place after place.
fn copy_lane(rows: &[Place], lane: usize, places: usize, values: &mut [u32])
    requires { Room places rows.now × (lane < lanes) × (places ≤ length values.old) }
    ensures { Filled places (row_in rows.now out_row lane) values.new }
{
    // Written by number: of numbers that a `zip` lends to be written nothing is known once they are.
    for (l, place) in rows[..places].iter().enumerate() {
        values[l] = place.out[lane];
    }
}

// Writes the samples of a block, one lane after the other, from a row for the numbers of N places.
#[tactic(auto, using(words::proofs::Words::words_count, samples::proofs::LineRows::row_room))]
fn write_lanes<const N: usize>(
    rows: &[Place],
    places: usize,
    samples: usize,
    own: &mut [u8],
    to: usize,
) -> u64
    requires { LanesBounded rows.now places samples × PlacesFit places N × (to + samples * places ≤ length (words_of own.old)) }
    ensures written { LanesWritten rows.now places samples (words_of own.old) to (words_of own.new) result }
    ensures tail { after_words own.new ≡ after_words own.old }
{
    let mut values = [0u32; N];
    let mut yes: u64 = 0;
    for lane in 0..samples {
        copy_lane(rows, lane, places, &mut values);
        yes += write_values(&values[..places], own, to + lane * places);
    }
    yes
}

// Evaluates the samples of a block, and tells their greatest rounds.
#[tactic(auto, using(crate::proofs::Blocks::block_ready, crate::proofs::Blocks::range_ready, crate::proofs::Blocks::surround_filled, crate::proofs::Blocks::somewhere_filled))]
fn fill_block(line: SpaceLine, block: Block, rows: &mut [Place]) -> u64
    requires { BlockFitsIn line block × Room line.layout.places rows.old }
    ensures { BlockFilledIn line.entry block rows.new result }
{
    let distances = Distances {
        table: line.distances,
        places: line.layout.places,
    };
    match line.around {
        Around::Surround(surround) => {
            let network = SheetNetwork {
                sheet: line.sheet,
                roads: line.layout.roads,
                distances,
            };
            surround_block(line.before, surround, network, block, rows)
        }
        Around::Range(range) => {
            somewhere_block(line.before, range, distances, block, rows);
            0
        }
    }
}

// Evaluates a block, in which there is room for N places, and writes it where it stands in the line.
#[tactic(auto, using(words::proofs::Words::words_count, crate::proofs::Blocks::lanes_bounded))]
fn write_block<const N: usize>(
    line: SpaceLine,
    block: Block,
    rows: &mut [Place],
    own: &mut [u8],
) -> Tally
    requires { BlockFitsIn line block × Room line.layout.places rows.old × PlacesFit line.layout.places N × OwnRoom line own.old (block.first + block.count) }
    ensures written { BlockWrittenIn line.entry own.old block own.new result }
    ensures tail { after_words own.new ≡ after_words own.old }
{
    let rounds = fill_block(line, block, rows);
    let places = line.layout.places;
    let to = block.first * places;
    let yes = write_lanes::<N>(rows, places, block.count, own, to);
    Tally { rounds, yes }
}

// Writes a line a block at a time. This is not inlined: a narrow sheet takes no stack for the places of a wide one. That the places fit N and that the words
// have room (`PlacesFit`, `OwnRoom`) stay clauses: N is chosen after the line is made, and the words are written.
#[inline(never)]
#[tactic(auto, using(words::proofs::Words::words_count))]
fn write_blocks<const N: usize>(line: SpaceLine, own: &mut [u8], samples: usize) -> Tally
    requires ready { AroundReadyIn line samples }
    requires room { OwnRoom line own.old samples }
    requires fits { PlacesFit line.layout.places N }
    ensures written { AroundWrittenIn line.entry own.old samples own.new result }
    ensures tail { after_words own.new ≡ after_words own.old }
{
    let mut rows = [Place::EMPTY; N];
    let mut tally = Tally::NONE;
    for k in 0..samples.div_ceil(LANES) {
        let first = k * LANES;
        let block = Block {
            first,
            count: LANES.min(samples - first),
        };
        let here = write_block::<N>(line, block, &mut rows, own);
        tally = tally.with(here);
    }
    tally
}

// Writes the words of so many samples of a line.
pub fn write_around(line: SpaceLine, own: &mut [u8], samples: usize) -> Tally
    requires { AroundReadyIn line samples × OwnRoom line own.old samples }
    ensures written { AroundWrittenIn line.entry own.old samples own.new result }
    ensures tail { after_words own.new ≡ after_words own.old }
{
    if line.layout.places <= MOST_NARROW {
        return write_blocks::<MOST_NARROW>(line, own, samples);
    }
    write_blocks::<MOST_PLACES>(line, own, samples)
}

// Somewhere and its dual, everywhere, for several samples side by side: the greatest, or the least, within range of every centre.
#![tactic(auto)]

ghost use Rattle.std.specs.Prelude.{◌<◌};
ghost use Rattle.lanes.specs.Rows.{Room};
ghost use Rattle.ranges.specs.Lent.{CentreGatheredIn, CentresGatheredIn, RangeReadyIn, RangeDoneIn};

use codes::operator::Bounds;
use distances::table::Distances;
use lanes::ends::{End, Greatest, Least};
use lanes::rows::{Block, in_range, load};
use lanes::strips::of_two;
use lanes::{LANES, Place, Row, Strip};

// What is asked about every centre. The operand is the index at which its signal begins. Somewhere or its dual is a flag, as in the definitions.
#[derive(Clone, Copy)]
pub struct Range {
    pub left: usize,
    pub bounds: Bounds,
    pub dual: bool,
}

// All places within range of one centre. The table of distances is asked by a place's number.
fn gather<E: End>(rows: &[Place], distances: Distances, centre: usize, bounds: Bounds) -> Strip
    requires { (centre < distances.places) × Room distances.places rows.now }
    ensures { CentreGatheredIn E.over rows.now distances.entry bounds centre result }
{
    let mut strip: Strip = [E::none(); LANES];
    for (place, at) in rows[..distances.places].iter().enumerate() {
        if in_range(distances, centre, place, bounds) {
            strip = of_two::<E>(&strip, &at.left);
        }
    }
    strip
}

// About every centre. By index: one place is written, and all are read.
fn gather_all<E: End>(rows: &mut [Place], distances: Distances, bounds: Bounds)
    requires { Room distances.places rows.old }
    ensures { CentresGatheredIn E.over rows.old distances.entry bounds rows.new }
{
    for centre in 0..distances.places {
        let strip = gather::<E>(rows, distances, centre, bounds);
        rows[centre].out = strip;
    }
}

// Of a signal that stands in the words of an answer, at samples first to first + count - 1: lane `lane` of each place's `out` has, at each centre, the chain
// number of sample first + lane about it, and from lane `count` on that of the lowest signal. Everywhere is the dual, the opposite of somewhere of the
// opposite, and comes to the least.
pub fn somewhere_block(
    words: &[u8],
    range: Range,
    distances: Distances,
    block: Block,
    rows: &mut [Place],
)
    requires { RangeReadyIn words.now range distances block × Room distances.places rows.old }
    ensures { RangeDoneIn words.now range distances.entry block rows.old rows.new }
{
    load(words, range.left, distances.places, block, Row::Left, rows);
    if range.dual {
        gather_all::<Least>(rows, distances, range.bounds);
    } else {
        gather_all::<Greatest>(rows, distances, range.bounds);
    }
}

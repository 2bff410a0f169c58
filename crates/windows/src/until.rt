// Code 5, until, and code 12, since, which is until looking back. Row t of since has its values at sample t + upper of the signals, from where it
// looks back as far as sample t. Samples are read one after the other, at several places side by side.
ghost use Rattle.std.specs.Prelude.{◌≡◌, ◌+◌, ◌≤◌, ◌<◌, ◌^◌, length};
ghost use Rattle.words.specs.Bytes.{words_of};
ghost use Rattle.logic.specs.Table.{away};
ghost use Rattle.operators.specs.Rows.{Filled, RowLeft};
ghost use Rattle.codes.specs.Decoding.{side_said};
ghost use Rattle.windows.specs.Rows.{present_of, until_in, UntilReady};
ghost use Rattle.windows.specs.Groups.{group_size, PartLeft};
ghost use Rattle.windows.specs.Reading.{CarriesOf, GroupReachedOf, WindowReady, SampleReady, until_of};

use crate::group::{GROUP, Group, group_from, is_known, lower_least, put_group, raise_best};
use codes::operator::{Bounds, Direction};
use operators::signals::Operand;

// `left` and `right` are the indices at which the signals of the operands begin.
#[derive(Clone, Copy)]
pub struct Until {
    pub left: usize,
    pub right: usize,
    pub bounds: Bounds,
    pub direction: Direction,
}

// What is read: both signals stand in the same words, with as many words to a sample.
#[derive(Clone, Copy)]
pub(crate) struct Operands<'a> {
    pub words: &'a [u8],
    pub places: usize,
    pub until: Until,
}

// The sample that is read after k others.
fn sample_away(until: Until, t: usize, k: usize) -> usize
    requires { (k ≤ until.bounds.upper) × (t + until.bounds.upper < 2 ^ 64) }
    ensures { result ≡ away (side_said until.direction) (present_of until t) k }
{
    match until.direction {
        Direction::Forward => t + k,
        Direction::Backward => t + until.bounds.upper as usize - k,
    }
}

// Reads one sample more. What is carried at each place is the least of left so far and until so far. From the lower bound on each sample offers the
// lesser of right and the least of left up to there; before it, nothing, and right is not read.
#[tactic(auto, using(crate::proofs::Bounds::away_inside, crate::proofs::Bounds::window_reached, crate::proofs::Bounds::window_end))]
fn read_sample(
    operands: Operands<'_>,
    t: usize,
    k: usize,
    group: Group,
    least: &mut [u32],
    best: &mut [u32],
)
    requires group_reached { SampleReady operands t group k least.old best.old }
    requires carries_group { CarriesOf operands t group k least.old best.old }
    ensures { CarriesOf operands.entry t group (k + 1) least.new best.new }
{
    let Operands {
        words,
        places,
        until,
    } = operands;
    let u = sample_away(until, t, k);
    let left = Operand {
        words,
        start: until.left,
        places,
    };
    lower_least(left, u, group, least);
    if k < until.bounds.lower as usize {
        return;
    }
    let right = Operand {
        words,
        start: until.right,
        places,
    };
    raise_best(right, u, group, least, best);
}

// Reads the samples of the window until there are no more, or what is not yet read can change nothing: it offers at most the least of left so far.
#[tactic(auto, using(crate::proofs::Carried::all_read))]
fn read_window(operands: Operands<'_>, t: usize, group: Group, least: &mut [u32], best: &mut [u32])
    requires group_reached { WindowReady operands t group least.old best.old }
    requires carries_group { CarriesOf operands t group 0 least.old best.old }
    ensures { Filled group.count (until_of operands.entry t group) best.new }
{
    let end = operands.until.bounds.upper as usize + 1;
    for k in 0..end {
        if is_known(least, best, group.count) {
            return;
        }
        read_sample(operands, t, k, group, least, best);
    }
}

// At the places of one group.
#[tactic(auto, using(crate::proofs::Carried::none_read, crate::proofs::Parts::part_same))]
fn until_group(operands: Operands<'_>, t: usize, group: Group, row: &mut [u32])
    requires { GroupReachedOf operands t group × (group.count ≤ group_size) × (operands.places ≤ length row.old) }
    ensures { PartLeft group.first group.count (until_of operands.entry t group) row.old row.new }
{
    let mut least: [u32; GROUP] = [values::top(); GROUP];
    let mut best: [u32; GROUP] = [values::bottom(); GROUP];
    read_window(operands, t, group, &mut least, &mut best);
    put_group(&best, group, row);
}

#[tactic(auto, using(crate::proofs::Parts::group_passed))]
pub fn until_row(words: &[u8], until: Until, places: usize, t: usize, row: &mut [u32])
    requires { UntilReady (words_of words.now) places until t row.old }
    ensures { RowLeft places (until_in (words_of words.now) places until t) row.old row.new }
{
    let operands = Operands {
        words,
        places,
        until,
    };
    for k in 0..places.div_ceil(GROUP) {
        let group = group_from(k * GROUP, places);
        until_group(operands, t, group, row);
    }
}

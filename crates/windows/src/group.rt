// Places side by side whose windows are read together: loops over the places of a group, which the compiler turns into a few instructions. They go
// by the number of the lane, which is that of the place too. What is kept at each place stands in two arrays, since the pass over the least reads it alone.
ghost use Rattle.std.specs.Prelude.{◌≡◌, ◌+◌, ◌-◌, ◌≤◌, ◌<◌, min, length, get_or};
ghost use Rattle.operators.specs.Rows.{RowLeft};
ghost use Rattle.windows.specs.Groups.{group_size, lowered_of, raised_of, LowerReady, RaiseReady, Known, PartLeft};

use operators::signals::Operand;

// Few enough that a window need not be read long for the sake of one place, and enough for the loops.
pub(crate) const GROUP: usize = 16;

// So many places from the first on.
#[derive(Clone, Copy)]
pub(crate) struct Group {
    pub first: usize,
    pub count: usize,
}

// The group that begins at a place.
pub(crate) fn group_from(first: usize, places: usize) -> Group
    requires { first < places }
    ensures { result ≡ record { first = first; count = min (places - first) group_size } }
{
    Group {
        first,
        count: (places - first).min(GROUP),
    }
}

// A sample of left goes into the least.
#[tactic(auto, using(crate::proofs::Bounds::sample_reached, operators::proofs::RowLaws::one_passed))]
pub(crate) fn lower_least(left: Operand<'_>, u: usize, group: Group, least: &mut [u32])
    requires { LowerReady left u group least.old }
    ensures { RowLeft group.count (lowered_of left.entry u group least.old) least.old least.new }
{
    for (lane, x) in least[..group.count].iter_mut().enumerate() {
        *x = values::lesser(*x, left.at(u, group.first + lane));
    }
}

// What a sample of right offers, no more than the least of left, goes into the greatest.
#[tactic(auto, using(crate::proofs::Bounds::sample_reached, operators::proofs::RowLaws::one_passed))]
pub(crate) fn raise_best(
    right: Operand<'_>,
    u: usize,
    group: Group,
    least: &[u32],
    best: &mut [u32],
)
    requires { RaiseReady right u group least.now best.old }
    ensures { RowLeft group.count (raised_of right.entry u group least.now best.old) best.old best.new }
{
    // No `zip` with the least: of numbers that a `zip` lends to be written, nothing is known once they are.
    for (lane, x) in best[..group.count].iter_mut().enumerate() {
        let offer = values::lesser(right.at(u, group.first + lane), least[lane]);
        *x = values::greater(*x, offer);
    }
}

// Whether the least is no more than the greatest at every place of a group.
pub(crate) fn is_known(least: &[u32], best: &[u32], count: usize) -> bool
    requires { (count ≤ length least.now) × (count ≤ length best.now) }
    ensures { Known result least.now best.now count }
{
    least[..count]
        .iter()
        .zip(&best[..count])
        .all(|(l, b)| l <= b)
}

// The numbers of a group come to their places in a row.
pub(crate) fn put_group(numbers: &[u32], group: Group, row: &mut [u32])
    requires { (group.count ≤ length numbers.now) × (group.first + group.count ≤ length row.old) }
    ensures { PartLeft group.first group.count (λ lane. get_or numbers.now lane 0) row.old row.new }
{
    row[group.first..group.first + group.count].copy_from_slice(&numbers[..group.count]);
}

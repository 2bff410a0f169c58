// Code 9, eventually, and its dual, code 10, always. Operand, bounds, flag, sample and place stay parameters: as one value they would be put together at
// every place, and without the place they are few already. What is asked at one place is inlined: else an operand would go through memory at every place.
ghost use Rattle.std.specs.Prelude.{◌≡◌, ◌+◌};
ghost use Rattle.operators.specs.Rows.{RowLeft};
ghost use Rattle.windows.specs.Rows.{ahead_of, eventually_of, ReachedOf, NextReady, PlaceReady, RowReadyOf};

use codes::operator::Bounds;
use operators::signals::{Operand, turn};

// The greatest of a window, read from its first sample to its last.
fn greatest_ahead(operand: Operand<'_>, bounds: Bounds, t: usize, l: usize, negated: bool) -> u32
    requires { ReachedOf operand bounds t l }
    ensures { result ≡ ahead_of operand.entry bounds negated t l }
{
    let first = t + bounds.lower as usize;
    let end = t + bounds.upper as usize + 1;
    (first..end)
        .map(|u| operand.turned_at(u, l, negated))
        .fold(values::bottom(), values::greater)
}

// The greatest of the window of sample t + 1, given that of sample t: unless this was the sample that leaves, only the one that enters can
// exceed it, and long windows need not be read again.
#[inline(always)]
#[tactic(auto, using(operators::proofs::Bounds::turned_bound, crate::proofs::Bounds::reached_inside, crate::proofs::Windows::ahead_next))]
fn greatest_next(
    operand: Operand<'_>,
    bounds: Bounds,
    t: usize,
    l: usize,
    negated: bool,
    former: u32,
) -> u32
    requires { NextReady operand bounds negated t l former }
    ensures { result ≡ ahead_of operand.entry bounds negated (t + 1) l }
{
    let leaving = operand.turned_at(t + bounds.lower as usize, l, negated);
    if leaving < former {
        let entering = operand.turned_at(t + 1 + bounds.upper as usize, l, negated);
        return values::greater(former, entering);
    }
    greatest_ahead(operand, bounds, t + 1, l, negated)
}

// At one place, given the value at the sample before, if there is one.
#[inline(always)]
#[tactic(auto, using(crate::proofs::Bounds::ahead_bound, crate::proofs::Bounds::eventually_small, crate::proofs::Bounds::eventually_back, crate::proofs::Bounds::eventually_turned))]
fn eventually_at(
    operand: Operand<'_>,
    bounds: Bounds,
    dual: bool,
    t: usize,
    l: usize,
    former: u32,
) -> u32
    requires { PlaceReady operand bounds dual t l former }
    ensures { result ≡ eventually_of operand.entry bounds dual t l }
{
    let greatest = if t == 0 {
        greatest_ahead(operand, bounds, t, l, dual)
    } else {
        let before = turn(former, dual);
        greatest_next(operand, bounds, t - 1, l, dual, before)
    };
    turn(greatest, dual)
}

// The row holds the values at the sample before, if there is one.
#[tactic(auto, using(operators::proofs::RowLaws::one_passed))]
pub fn eventually_row(operand: Operand<'_>, bounds: Bounds, dual: bool, t: usize, row: &mut [u32])
    requires { RowReadyOf operand bounds dual t row.old }
    ensures { RowLeft operand.entry.places (eventually_of operand.entry bounds dual t) row.old row.new }
{
    for (l, x) in row[..operand.places].iter_mut().enumerate() {
        *x = eventually_at(operand, bounds, dual, t, l, *x);
    }
}

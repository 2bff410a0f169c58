// Loops over the lanes of a strip. Their count is a constant, so that the compiler works on all lanes at once.
ghost use Rattle.std.specs.Prelude.{◌≡◌, ◌/◌, ◌≤◌, get_or};
ghost use Rattle.lanes.specs.Lanes.{lanes};
ghost use Rattle.lanes.specs.Strips.{Held, StripsApart};

use crate::ends::End;
use crate::{LANES, Strip};

// The lesser of two strips, lane by lane, or the greater. Both are read by the lane's number, since of what a `zip` lends to be written nothing is known once
// it is.
pub fn of_two<E: End>(a: &Strip, b: &Strip) -> Strip
    ensures { Held lanes (λ lane. E.op (get_or a.now lane 0) (get_or b.now lane 0)) result }
{
    let mut strip: Strip = [0; LANES];
    for (lane, x) in strip.iter_mut().enumerate() {
        *x = E::of(a[lane], b[lane]);
    }
    strip
}

// Whether two strips differ in one of the lanes, with so many chain numbers as `unit` says taken as one. A fold, which goes through all lanes: `any` would
// stop at the first that differs, and the compiler could not work on them at once.
pub fn differs(former: &Strip, strip: &Strip, unit: u32) -> bool
    requires { 1 ≤ unit }
    ensures { StripsApart result (λ c. c / unit) former.now strip.now lanes }
{
    former
        .iter()
        .zip(strip)
        .fold(false, |apart, (f, s)| apart | (f / unit != s / unit))
}

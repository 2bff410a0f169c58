// What is worked on about a centre: the left operand masked by the ball, and the right one by both bounds. Outside the ball the strips to work in are lowest:
// what an earlier ball left there is cleared where a place leaves the ball, and nowhere else.
ghost use Rattle.std.specs.Prelude.{◌<◌};
ghost use Rattle.lanes.specs.Rows.{Room};
ghost use Rattle.iteration.specs.WorkRows.{LowOutside, PlaceCleared, Cleared};
ghost use Rattle.iteration.specs.Masks.{PlaceMasked, FlagsFor, MaskedBelow, MaskedNext, NextReady};

use codes::operator::Bounds;
use distances::table::Distances;
use lanes::rows::in_range;
use lanes::{LANES, Place};

// A place inside the ball, in the ring or not: a flag, since one strip of two is chosen by it.
fn mask_place(place: &mut Place, ring: bool)
    ensures { PlaceMasked ring place.entry.now place.exit.now }
{
    place.x = place.left;
    place.ring = if ring {
        place.right
    } else {
        [values::bottom(); LANES]
    };
}

fn clear_place(place: &mut Place)
    ensures { PlaceCleared place.entry.now place.exit.now }
{
    let lowest = [values::bottom(); LANES];
    place.ring = lowest;
    place.x = lowest;
    place.former = lowest;
    place.both = lowest;
}

// The first `places` places become lowest in the strips to work in: the four that `clear_place` clears where one place leaves a ball, and none of the others.
pub fn clear_all(rows: &mut [Place], places: usize)
    requires { Room places rows.old }
    ensures { Cleared places rows.old rows.new }
{
    for place in rows[..places].iter_mut() {
        clear_place(place);
    }
}

// One place more is masked, those before it being so.
fn mask_next(
    rows: &mut [Place],
    distances: Distances,
    bounds: Bounds,
    centre: usize,
    place: usize,
    inside: &mut [bool],
)
    requires { NextReady distances centre place inside.old rows.old }
    ensures { MaskedNext distances.entry bounds centre place inside.old rows.old inside.new rows.new }
{
    let ball = Bounds {
        lower: 0,
        upper: bounds.upper,
    };
    if in_range(distances, centre, place, ball) {
        inside[place] = true;
        let ring = in_range(distances, centre, place, bounds);
        mask_place(&mut rows[place], ring);
    } else if inside[place] {
        inside[place] = false;
        clear_place(&mut rows[place]);
    }
}

// Flags the ball about a centre, and masks the left operand by it and the right one by both bounds. By number: the distances are asked for it, and of two
// slices that are written side by side, through a `zip` of two `iter_mut`, a proof knows no more than the length afterwards.
#[tactic(auto, using(crate::proofs::Masks::centre_none))]
pub fn mask_centre(
    rows: &mut [Place],
    distances: Distances,
    bounds: Bounds,
    centre: usize,
    inside: &mut [bool],
)
    requires { (centre < distances.places) × FlagsFor distances inside.old × LowOutside inside.old rows.old }
    ensures { MaskedBelow distances.entry bounds centre distances.entry.places rows.old inside.new rows.new }
{
    for place in 0..distances.places {
        mask_next(rows, distances, bounds, centre, place, inside);
    }
}

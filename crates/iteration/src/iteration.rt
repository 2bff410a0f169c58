// Definition 4.4's iteration in lanes: all places step together from the former round. The flags say which places lie inside the ball.
ghost use Rattle.std.specs.Prelude.{◌*◌, ◌/◌, ◌≤◌, ◌<◌, length};
ghost use Rattle.words.specs.Bytes.{words_of};
ghost use Rattle.lanes.specs.Lanes.{x_row, former_row, both_row, row_in};
ghost use Rattle.lanes.specs.Rows.{KeptPast};
ghost use Rattle.iteration.specs.WorkRows.{joined_part, stepped_part, LowOutside, Worked, KeptBut};
ghost use Rattle.iteration.specs.Steps.{RoadsIn, Start, Pulled, RowsApart};
ghost use Rattle.iteration.specs.Lent.{JoinedIn, SteppedIn, RoundReadyIn, RoundIn, SettledIn};

use checks::head::is_wide;
use lanes::Place;
use lanes::ends::{Greatest, Least};
use lanes::strips::{differs, of_two};
use roads::road::{Road, SheetRoads, Way, road_at};

// So many chain numbers share a margin: one says no, one says yes.
const MARGIN: u32 = 2;

// Keeps the former numbers, and makes of them what each place hands to its neighbours: a pull must not read a place that has stepped already. That places
// outside the ball are lowest (`LowOutside`) stays a clause, here and below: it is a fact of the flags and of places that are written. The flags stand beside
// the places, which are lent to a surround without them, and are read by a place's number: through a `zip` with places that are written a proof knows nothing
// of these afterwards.
fn join(rows: &mut [Place], inside: &[bool])
    requires { LowOutside inside.now rows.old }
    ensures joined { JoinedIn rows.old inside.now rows.new }
    ensures worked { Worked joined_part inside.now rows.old rows.new }
{
    for (place, at) in rows[..inside.len()].iter_mut().enumerate() {
        if inside[place] {
            at.former = at.x;
            at.both = of_two::<Greatest>(&at.x, &at.ring);
        }
    }
}

// A place takes over what the place hands to it to which a way leads. One outside the ball has the lowest number already. What is handed over is copied
// first, as both places lie in one slice; `&` tests both flags without a branch between them.
fn pull(rows: &mut [Place], inside: &[bool], way: Way)
    requires { (way.from < length inside.now) × (way.to < length inside.now) × LowOutside inside.now rows.old }
    ensures pulled { Pulled way (row_in rows.old both_row) (row_in rows.old x_row) (row_in rows.new x_row) }
    ensures kept { KeptBut x_row rows.old rows.new }
    ensures past { KeptPast (length inside.now) rows.old rows.new }
{
    if way.runs & inside[way.from] {
        let handed = rows[way.to].both;
        let at = &mut rows[way.from];
        at.x = of_two::<Least>(&at.x, &handed);
    }
}

// Both ways of each road. That their places are among these (`RoadsIn`) stays a clause: it is a fact of a sheet and of how many places there are.
#[tactic(auto, using(crate::proofs::Rules::step_laws))]
fn step(rows: &mut [Place], inside: &[bool], network: SheetRoads)
    requires { RoadsIn (words_of network.sheet.now) network.roads (length inside.now) × LowOutside inside.now rows.old }
    ensures stepped { SteppedIn rows.old network.entry rows.new }
    ensures kept { KeptBut x_row rows.old rows.new }
    ensures past { KeptPast (length inside.now) rows.old rows.new }
{
    let wide = is_wide(network.sheet);
    for r in 0..network.roads {
        let road = Road {
            word: words::word_at(network.sheet, road_at(wide, r)),
            wide,
        };
        pull(rows, inside, road.forth());
        pull(rows, inside, road.back());
    }
}

#[tactic(auto, using(crate::proofs::Least::round_joined, crate::proofs::Least::round_made, crate::proofs::Least::round_worked))]
fn round(rows: &mut [Place], inside: &[bool], network: SheetRoads)
    requires { RoundReadyIn rows.old inside.now network }
    ensures joined { JoinedIn rows.old inside.now rows.new }
    ensures stepped { RoundIn rows.old inside.now network.entry rows.new }
    ensures worked { Worked stepped_part inside.now rows.old rows.new }
{
    join(rows, inside);
    step(rows, inside, network);
}

// Whether a number inside the ball is another, with so many chain numbers as `unit` says taken as one. Outside nothing changes.
fn changed(rows: &[Place], inside: &[bool], unit: u32) -> bool
    requires { (1 ≤ unit) × LowOutside inside.now rows.now }
    ensures { RowsApart result (λ c. c / unit) (row_in rows.now former_row) (row_in rows.now x_row) (length inside.now) }
{
    rows.iter().zip(inside).any(|(at, is_inside)| *is_inside && differs(&at.former, &at.x, unit))
}

// Steps until no place changes in any lane. The rounds are 1 plus the number of steps in which a margin fell in some lane; verdicts may still
// move after these. At rest the former numbers are those that the places have, and what is handed over is made of them. A loop that breaks with its
// count, as the definition counts.
#[tactic(auto, using(crate::proofs::Rules::settle_laws))]
pub fn settle(rows: &mut [Place], inside: &[bool], network: SheetRoads) -> u64
    requires { Start (words_of network.sheet.now) network.roads inside.now rows.old }
    ensures settled { SettledIn rows.old inside.now network.entry rows.new result }
    ensures worked { Worked stepped_part inside.now rows.old rows.new }
    ensures joined { JoinedIn rows.new inside.now rows.new }
{
    let mut rounds: u64 = 1;
    loop {
        round(rows, inside, network);
        if changed(rows, inside, MARGIN) {
            rounds += 1;
        } else if !changed(rows, inside, 1) {
            break rounds;
        }
    }
}

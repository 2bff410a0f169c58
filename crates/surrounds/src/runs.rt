// Which runs of the iteration a surround is made of, and what a run leaves out (request M-101). Run 0 leaves nothing out, and run k + 1 the left of
// place k. Where islands count, run 0 is all. Else a run is made about a centre for each other place with a distance from it. Those for the places
// beyond the ball are all run 0, for what they leave out is masked already.
ghost use Rattle.std.specs.Prelude.{◌≡◌, not, ◌&&◌, ◌≤◌, ◌<◌, ◌^◌};
ghost use Rattle.lanes.specs.Lanes.{x_row, row_in};
ghost use Rattle.lanes.specs.Rows.{Room, KeptPast, within_in};
ghost use Rattle.iteration.specs.WorkRows.{KeptBut};
ghost use Rattle.surrounds.specs.Runs.{runs_of, LeftOut};
ghost use Rattle.surrounds.specs.Lent.{reached_in, beyond_in, is_made_in};

use codes::operator::Bounds;
use distances::table::Distances;
use lanes::rows::in_range;
use lanes::{LANES, Place};

// A run about every centre that has it. Whether islands count is a flag, and the place that is left out a number, one more than its own or 0 for none, as in
// the definitions: so one loop goes over all runs.
#[derive(Clone, Copy)]
pub struct Run {
    pub bounds: Bounds,
    pub islands: bool,
    pub number: usize,
}

// So many runs there can be about a centre.
pub(crate) fn run_count(islands: bool, places: usize) -> usize
    requires { places < 2 ^ 32 }
    ensures { result ≡ runs_of islands places }
{
    if islands { 1 } else { places + 1 }
}

// Whether a place has a distance from the centre, but lies beyond the ball.
fn lies_beyond(distances: Distances, centre: usize, place: usize, ball: Bounds) -> bool
    requires { (centre < distances.places) × (place < distances.places) }
    ensures { result ≡ (reached_in distances.entry centre place && not (within_in distances.entry centre ball place)) }
{
    distances.between(centre, place).is_some() && !in_range(distances, centre, place, ball)
}

fn reaches_beyond(distances: Distances, centre: usize, ball: Bounds) -> bool
    requires { centre < distances.places }
    ensures { result ≡ beyond_in distances.entry centre ball }
{
    (0..distances.places).any(|place| lies_beyond(distances, centre, place, ball))
}

// Whether a run is made about a centre.
#[tactic(auto, using(crate::proofs::RunLaws::islands_made, crate::proofs::RunLaws::beyond_made, crate::proofs::RunLaws::ball_made, crate::proofs::RunLaws::centre_not_made))]
pub(crate) fn is_made(distances: Distances, centre: usize, run: Run) -> bool
    requires { (centre < distances.places) × (run.number ≤ distances.places) }
    ensures { result ≡ is_made_in distances.entry centre run }
{
    let ball = Bounds {
        lower: 0,
        upper: run.bounds.upper,
    };
    if run.number == 0 {
        return run.islands || reaches_beyond(distances, centre, ball);
    }
    let place = run.number - 1;
    place != centre && in_range(distances, centre, place, ball)
}

// The place that a run leaves out becomes lowest.
#[tactic(auto, using(crate::proofs::Centres::left_out_nothing, crate::proofs::Centres::left_out_set))]
pub(crate) fn leave_out(rows: &mut [Place], run: Run)
    requires { Room run.number rows.old }
    ensures out { LeftOut run.number (row_in rows.old x_row) (row_in rows.new x_row) }
    ensures kept { KeptBut x_row rows.old rows.new }
    ensures past { KeptPast run.number rows.old rows.new }
{
    if run.number > 0 {
        rows[run.number - 1].x = [values::bottom(); LANES];
    }
}

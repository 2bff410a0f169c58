// The surround by runs of Definition 4.4's iteration, for several samples side by side, from the words of an answer.
ghost use Rattle.std.specs.Prelude.{◌<◌, length};
ghost use Rattle.words.specs.Bytes.{words_of};
ghost use Rattle.lanes.specs.Lanes.{out_row};
ghost use Rattle.lanes.specs.Rows.{Room, RowWritten, Kept, KeptPast};
ghost use Rattle.iteration.specs.WorkRows.{Worked};
ghost use Rattle.surrounds.specs.Blocks.{given, CentreRaised, OperandsLoaded};
ghost use Rattle.surrounds.specs.Lent.{RowsReadyIn, RunReadyIn, OperandsThere, CentreReadyIn, CentreRunIn, RunDoneIn, CentresDoneIn, BlockReadyIn, BlockDoneIn};

use crate::runs::{Run, is_made, leave_out, run_count};
use checks::limits::MOST_PLACES;
use codes::operator::Bounds;
use distances::table::Distances;
use iteration::iteration::settle;
use iteration::mask::{clear_all, mask_centre};
use lanes::ends::Greatest;
use lanes::rows::{Block, load};
use lanes::strips::of_two;
use lanes::{LANES, Place, Row};
use roads::road::SheetRoads;

// What is asked about every centre, and whether islands count. The operands are the indices at which their signals begin.
#[derive(Clone, Copy)]
pub struct Surround {
    pub left: usize,
    pub right: usize,
    pub bounds: Bounds,
    pub islands: bool,
}

// The roads of a sheet, with the distances along them. Sheet and roads are fields of its own and no `SheetRoads`: contracts here name them so.
#[derive(Clone, Copy)]
pub struct SheetNetwork<'a> {
    pub sheet: &'a [u8],
    pub roads: usize,
    pub distances: Distances<'a>,
}

// The first `places` places become lowest in the row of what comes of the operands. No row of another name is cleared alone, and iteration's `clear_all`
// clears four strips at a place in one pass: a function of both, by the strips' names, would go over the places once for each name.
fn clear(rows: &mut [Place], places: usize)
    requires { Room places rows.old }
    ensures { RowWritten out_row places (λ _ _. 0) rows.old rows.new }
{
    for place in rows[..places].iter_mut() {
        place.out = [values::bottom(); LANES];
    }
}

// What comes of the operands at a centre is raised to what the place has.
fn raise(rows: &mut [Place], centre: usize)
    requires { centre < length rows.old }
    ensures { CentreRaised centre rows.old rows.new }
{
    let at = &mut rows[centre];
    at.out = of_two::<Greatest>(&at.out, &at.x);
}

// A run about a centre that has it: raises what comes of the operands to what it gives there, and tells its rounds. The flags may be another ball's.
fn run_centre(
    rows: &mut [Place],
    inside: &mut [bool],
    network: SheetNetwork,
    run: Run,
    centre: usize,
) -> u64
    requires { CentreReadyIn rows.old network run centre inside.old }
    ensures run { CentreRunIn rows.old network.entry run centre rows.new result }
    ensures worked { Worked given inside.new rows.old rows.new }
{
    let bounds = run.bounds;
    mask_centre(rows, network.distances, bounds, centre, inside);
    leave_out(rows, run);
    let roads = SheetRoads {
        sheet: network.sheet,
        roads: network.roads,
    };
    let rounds = settle(rows, inside, roads);
    raise(rows, centre);
    rounds
}

// Makes a run about every centre that has it, and tells the greatest rounds.
fn run_centres(rows: &mut [Place], network: SheetNetwork, run: Run) -> u64
    requires { RunReadyIn rows.old network run }
    ensures done { RunDoneIn rows.old network.entry run network.entry.distances.places rows.new result }
    ensures kept { Kept given rows.old rows.new }
    ensures past { KeptPast network.entry.distances.places rows.old rows.new }
{
    let mut inside: [bool; MOST_PLACES] = [false; MOST_PLACES];
    let places = network.distances.places;
    let mut most: u64 = 0;
    clear_all(rows, places);
    for centre in 0..places {
        if !is_made(network.distances, centre, run) {
            continue;
        }
        let flags = &mut inside[..places];
        let rounds = run_centre(rows, flags, network, run, centre);
        most = most.max(rounds);
    }
    most
}

// The surrounds about all centres, the greatest that a run gives, and the greatest rounds of a run.
fn surround_centres(rows: &mut [Place], network: SheetNetwork, surround: Surround) -> u64
    requires { RowsReadyIn rows.old network surround.bounds × Room network.distances.places rows.old }
    ensures done { CentresDoneIn rows.old network.entry surround rows.new result }
    ensures kept { Kept given rows.old rows.new }
    ensures past { KeptPast network.entry.distances.places rows.old rows.new }
{
    let places = network.distances.places;
    clear(rows, places);
    let bounds = surround.bounds;
    let islands = surround.islands;
    let runs = run_count(islands, places);
    let mut most: u64 = 0;
    for number in 0..runs {
        let run = Run {
            bounds,
            islands,
            number,
        };
        let rounds = run_centres(rows, network, run);
        most = most.max(rounds);
    }
    most
}

// Decodes both operands, once for all centres.
fn load_operands(words: &[u8], surround: Surround, places: usize, block: Block, rows: &mut [Place])
    requires { OperandsThere words.now surround places block × Room places rows.old }
    ensures { OperandsLoaded (words_of words.now) surround places block places rows.old rows.new }
{
    load(words, surround.left, places, block, Row::Left, rows);
    load(words, surround.right, places, block, Row::Right, rows);
}

// The surround of two signals, which stand in the words of an answer, at samples first to first + count - 1: what comes of the operands
// has in each lane the chain numbers of sample first + lane about all centres, and from lane `count` on the lowest. The result is the greatest rounds.
pub fn surround_block(
    words: &[u8],
    surround: Surround,
    network: SheetNetwork,
    block: Block,
    rows: &mut [Place],
) -> u64
    requires { BlockReadyIn words.now surround network block × Room network.distances.places rows.old }
    ensures { BlockDoneIn words.now surround network.entry block rows.old rows.new result }
{
    load_operands(words, surround, network.distances.places, block, rows);
    surround_centres(rows, network, surround)
}

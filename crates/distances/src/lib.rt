// The distances of all places, computed within the lent table: n * n numbers of 64 bits, row by row, 2^64 - 1 for none.
// Paths are let through one more place at a time (Floyd and Warshall). Within one table this is right because the row and the
// column of the place that is let in do not change in its turn.
// While it is written the table stays bytes beside the count of places: of a type that borrows them nothing would be known in the bytes once it is
// gone. What is read afterwards is a type (`Distances`). That the roads have passed stays a clause too (`GoodRoads`), as `fill_distances` is given a sheet,
// its places and its roads by the survey alone: a type of the three would be made there and taken apart here.
#![tactic(auto)]

ghost use Rattle.std.specs.Prelude.{◌≡◌, ◌+◌, ◌-◌, ◌*◌, ◌<◌, ◌^◌, length, drop, replicate};
ghost use Rattle.words.specs.Bytes.{words_of};
ghost use Rattle.network.specs.Distance.{none};
ghost use Rattle.roads.specs.Roads.{GoodRoad, GoodRoads};
ghost use Rattle.distances.specs.Distances.{numbers_in, room_in, HasRoom, distances_along, filled_along};
ghost use Rattle.distances.specs.Stages.{IsTable, stage, roads_put, way_put, relaxed, RowRelaxed, LetIn};

pub mod table;

use checks::head::is_wide;
use roads::road::{Road, Way, road_at, weight};

// Where no path is: a number, as the lent table holds numbers and its layout is promised (`fill_distances`). Read from it, it is no distance (`between`).
pub const NONE: u64 = u64::MAX;

// Every distance none: a number all of whose bytes are 255 is the largest.
#[tactic(auto, using(crate::proofs::StartTable::filled))]
fn fill_none(table: &mut [u8])
    ensures { numbers_in table.new ≡ replicate (room_in table.old) (2 ^ 64 - 1) }
{
    table.fill(u8::MAX);
}

// No road yet: a place is at distance 0 from itself, by the empty path.
#[tactic(auto, using(words::proofs::Numbers::same_count, words::proofs::Numbers::length_numbers, words::proofs::Rows::in_table, crate::proofs::StartTable::begun_none, crate::proofs::StartTable::begun_more, crate::proofs::StartTable::begun_all))]
fn start(n: usize, table: &mut [u8])
    requires { IsTable n table.old }
    ensures { numbers_in table.new ≡ stage (λ _ _. none) n 0 }
{
    fill_none(table);
    for a in 0..n {
        words::put_number(table, a * n + a, 0);
    }
}

// A road's weight one way, if the road runs so.
#[tactic(auto, using(words::proofs::Numbers::length_numbers, words::proofs::Rows::in_table))]
fn put_way(n: usize, way: Way, weight: u64, table: &mut [u8])
    requires { (way.from < n) × (way.to < n) × IsTable n table.old }
    ensures { numbers_in table.new ≡ way_put n way weight (numbers_in table.old) }
{
    if way.runs {
        words::put_number(table, way.from * n + way.to, weight);
    }
}

// One road more.
#[tactic(auto, using(crate::proofs::StartTable::road_put, crate::proofs::StartTable::back_inside, crate::proofs::Stages::same_table, checks::proofs::Checks::kind_inside, words::proofs::Words::words_count))]
fn put_road(s: &[u8], n: usize, r: usize, table: &mut [u8])
    requires { GoodRoad (words_of s.now) n r × (numbers_in table.old ≡ roads_put (words_of s.now) n r) }
    ensures { numbers_in table.new ≡ roads_put (words_of s.now) n (r + 1) }
{
    let wide = is_wide(s);
    let at = road_at(wide, r);
    let road = Road {
        word: words::word_at(s, at),
        wide,
    };
    let length = weight(s, at + 1);
    put_way(n, road.forth(), length, table);
    put_way(n, road.back(), length, table);
}

// All roads, in order.
#[tactic(auto, using(crate::proofs::StartTable::no_roads))]
fn put_roads(s: &[u8], n: usize, roads: usize, table: &mut [u8])
    requires { GoodRoads (words_of s.now) n roads × (numbers_in table.old ≡ stage (λ _ _. none) n 0) }
    ensures { numbers_in table.new ≡ roads_put (words_of s.now) n roads }
{
    for r in 0..roads {
        put_road(s, n, r, table);
    }
}

// Relaxes the distance at one index: x plus that at another takes its place where this is less, none where the sum is too large. It is stored in
// either case: in the innermost loop a test before the store would cost more, as its outcome can't be foreseen.
fn relax(x: u64, from: usize, to: usize, table: &mut [u8])
    requires { (from < room_in table.old) × (to < room_in table.old) }
    ensures { numbers_in table.new ≡ relaxed x from to (numbers_in table.old) }
{
    let d = words::number_at(table, to);
    let y = words::number_at(table, from);
    words::put_number(table, to, d.min(x.saturating_add(y)));
}

// The distances from a, by way of k where that is less. Where k has none from a, none is. By index, as each number that is stored rests on another
// of the same table.
#[tactic(auto, using(words::proofs::Numbers::same_count, words::proofs::Numbers::length_numbers, words::proofs::Rows::in_table, crate::proofs::Stages::relaxing_to, crate::proofs::Stages::relaxing_unreached, crate::proofs::Stages::relaxed_more))]
fn relax_row(n: usize, k: usize, a: usize, table: &mut [u8])
    requires { (k < n) × (a < n) × IsTable n table.old }
    ensures { RowRelaxed n k a table.old table.new }
{
    let row = a * n;
    let via = k * n;
    let x = words::number_at(table, row + k);
    if x == NONE {
        return;
    }
    for b in 0..n {
        relax(x, via + b, row + b, table);
    }
}

// Paths may pass through k too.
#[tactic(auto, using(words::proofs::Numbers::same_count, crate::proofs::Stages::relaxing_none, crate::proofs::Stages::relaxing_all))]
fn relax_through(n: usize, k: usize, table: &mut [u8])
    requires { (k < n) × IsTable n table.old }
    ensures { LetIn n k (k + 1) table.old table.new }
{
    for a in 0..n {
        relax_row(n, k, a, table);
    }
}

// Paths may pass through every place.
#[tactic(auto, using(words::proofs::Numbers::same_count))]
fn relax_all(n: usize, table: &mut [u8])
    requires { IsTable n table.old }
    ensures { LetIn n 0 n table.old table.new }
{
    for k in 0..n {
        relax_through(n, k, table);
    }
}

// The distances alone, in a table of just their size.
#[tactic(auto, using(words::proofs::Numbers::same_count))]
fn find_distances(s: &[u8], places: usize, roads: usize, table: &mut [u8])
    requires { GoodRoads (words_of s.now) places roads × IsTable places table.old }
    ensures { numbers_in table.new ≡ distances_along (words_of s.now) places roads }
{
    start(places, table);
    put_roads(s, places, roads, table);
    relax_all(places, table);
}

// The distances of all places along a sheet's roads, row by row, and zeros in all the bytes after them, whatever these held.
#[tactic(auto, using(words::proofs::Numbers::length_numbers, std::proofs::lemmas::Grind::common_steps))]
pub fn fill_distances(s: &[u8], places: usize, roads: usize, table: &mut [u8])
    requires { GoodRoads (words_of s.now) places roads × HasRoom places table.old }
    ensures numbers { numbers_in table.new ≡ filled_along (words_of s.now) places roads table.old }
    ensures tail { drop (places * places * 8) table.new ≡ replicate (length table.old - places * places * 8) 0 }
{
    let (front, behind) = table.split_at_mut(places * places * 8);
    find_distances(s, places, roads, front);
    words::fill_zero(behind);
}

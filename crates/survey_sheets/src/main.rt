// Surveys the sheets on standard input, of which it reads the first 65,536 bytes, and prints for each whether it is accepted, with the
// distances of its places, or why and where it is turned back.
//
// Input, all in words of four bytes, lowest byte first: a word with the count of the sheet's words, then these words; then the next count
// and the next sheet, up to the end of the input.
//
// Output, for each sheet in turn:
//     accepted PLACES SIGNALS SAMPLES ROADS LINES    then a row for each place: its distances to all places, `none` where no path is
//     refused NUMBER PLACE                           then `table not zero` if the survey left anything in the lent table
//     cut off                                        the input ends within a count or a sheet; nothing is read after it
// A read or a write that fails ends it: with an error on standard error, and status 1.
#![tactic(auto)]

ghost use Rattle.std.specs.Prelude.{◌≡◌, ◌≤◌, ◌<◌, ◌↔◌, IsTrue, slice_index, EachIndex};

use distances::table::Distances;
use sheet::check::Layout;
use std::{fmt, io};

// What is read at most.
const READ_BYTES: usize = 65536;

// A distance, or that no path is, as it is printed.
#[derive(Clone, Copy)]
struct Distance(Option<u64>);

impl fmt::Display for Distance {
    fn fmt<W: fmt::Write>(&self, f: &mut fmt::Formatter<W>) -> fmt::Result {
        match self.0 {
            Some(distance) => write!(f, "{distance}"),
            None => write!(f, "none"),
        }
    }
}

// The distances from a place to all places.
fn print_row(rt: &impl Print, distances: Distances, from: usize) -> io::Result<()>
    requires { from < distances.places }
{
    for to in 0..distances.places {
        if 0 < to {
            print!(rt; " ")?;
        }
        print!(rt; "{}", Distance(distances.between(from, to)))?;
    }
    println!(rt)
}

fn print_rows(rt: &impl Print, distances: Distances) -> io::Result<()> {
    for place in 0..distances.places {
        print_row(rt, distances, place)?;
    }
    Ok(())
}

fn print_accepted(rt: &impl Print, layout: Layout) -> io::Result<()> {
    println!(rt;
        "accepted {} {} {} {} {}",
        layout.places, layout.signals, layout.samples, layout.roads, layout.lines
    )
}

// A refusal must leave nothing behind. That it doesn't is proved of the survey; here it is seen in a run.
fn is_zero(table: &[u8]) -> bool
    ensures { IsTrue result ↔ EachIndex table.now (λ k. slice_index table.now k ≡ 0) }
{
    table.iter().all(|byte| *byte == 0)
}

// The table need not be clean: the survey writes all of it.
#[tactic(auto, using(sheet::proofs::Surveys::lent_roads, words::proofs::Numbers::same_count))]
fn survey_one(rt: &impl Print, sheet_bytes: &[u8], table: &mut [u8]) -> io::Result<()> {
    match sheet::survey::survey(sheet_bytes, table) {
        Ok(layout) => {
            print_accepted(rt, layout)?;
            let distances = Distances {
                table,
                places: layout.places,
            };
            print_rows(rt, distances)
        }
        Err(refusal) => {
            println!(rt; "refused {refusal}")?;
            if !is_zero(table) {
                println!(rt; "table not zero")?;
            }
            Ok(())
        }
    }
}

// How many bytes a count and its sheet take. Where not even the count is whole, its own four bytes are already more than is left.
fn size_with_count(rest: &[u8]) -> usize
    ensures { 4 ≤ result }
{
    if words::word_count(rest) == 0 {
        return 4;
    }
    4 + words::word_at(rest, 0) as usize * 4
}

// Each sheet is lent a table of 4,096 distances in which every byte is set: its zeros are then the survey's. Each count tells where the next sheet
// begins, so there is no number of turns to go through.
fn survey_all(rt: &impl Print, input: &[u8]) -> io::Result<()> {
    let mut rest = input;
    while !rest.is_empty() {
        let size = size_with_count(rest);
        if rest.len() < size {
            return println!(rt; "cut off");
        }
        let (with_count, behind) = rest.split_at(size);
        let mut table = [u8::MAX; 32768];
        survey_one(rt, &with_count[4..], &mut table)?;
        rest = behind;
    }
    Ok(())
}

fn main(rt: HostRuntime) -> io::Result<()> {
    let mut buf = [0u8; READ_BYTES];
    let count = input::read_full(&mut rt.stdin(), &mut buf)?;
    survey_all(&rt, &buf[..count])
}

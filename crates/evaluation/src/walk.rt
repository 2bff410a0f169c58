// The lines of an accepted sheet, one after the other: how many words their answer needs, and their verdicts.
ghost use Rattle.std.specs.Prelude.{◌≡◌, ◌≤◌, length};
ghost use Rattle.words.specs.Bytes.{words_of, after_words};
ghost use Rattle.evaluation.specs.Lent.{needed_in, lines_end_in};
ghost use Rattle.evaluation.specs.Walk.{LinesWrittenIn};

use crate::accepted::Accepted;
use crate::line::write_line;
use arrayvec::ArrayVec;
use checks::head::{head_words, is_wide};
use checks::limits::MOST_LINES;
use lines::extent::Extent;
use locating::earlier::Earlier;
use samples::tally::Tally;

// The index after the last line, and what the lines add to the result.
#[derive(Clone, Copy)]
pub struct Written {
    pub end: usize,
    pub tally: Tally,
}

// A word more for each line than verdicts, the head and the end. Each line tells where the next begins, so the index is carried. A walk of its own, beside
// that of `write_lines`: one for both would take what is done with a line as a closure, here one that counts and there one that writes, and be no plainer.
#[tactic(auto, using(checks::proofs::Heads::few_head_words))]
pub fn words_needed(accepted: Accepted) -> usize
    ensures { result ≡ needed_in accepted.entry.sheet.now accepted.entry.distances.now }
{
    let layout = accepted.layout;
    let mut extents = ArrayVec::<Extent, MOST_LINES>::new();
    let mut at = layout.table;
    let mut needed = head_words(is_wide(accepted.sheet)) + 1;
    for _ in 0..layout.lines {
        let (line, next) = accepted.line_at(at, &extents);
        needed += 1 + line.extent.length as usize * layout.places;
        extents.push(line.extent);
        at = next;
    }
    needed
}

// Writes every line, behind the head.
pub fn write_lines(accepted: Accepted, answer: &mut [u8]) -> Written
    requires { lines_end_in accepted.sheet.now accepted.distances.now accepted.layout ≤ length (words_of answer.old) }
    ensures written { LinesWrittenIn accepted.entry answer.old answer.new result }
    ensures tail { after_words answer.new ≡ after_words answer.old }
{
    let layout = accepted.layout;
    // of fixed room: there is no heap. The starts stand apart, since a line is read from extents alone.
    let mut extents = ArrayVec::<Extent, MOST_LINES>::new();
    let mut starts = ArrayVec::<usize, MOST_LINES>::new();
    let mut at = layout.table;
    let mut to = head_words(is_wide(accepted.sheet));
    let mut tally = Tally::NONE;
    for _ in 0..layout.lines {
        let earlier = Earlier {
            starts: &starts,
            extents: &extents,
            places: layout.places,
        };
        let (line, next) = accepted.line_at(at, earlier.extents);
        let (before, own) = answer.split_at_mut(to * 4);
        let here = write_line(line, accepted, earlier, before, own);
        extents.push(line.extent);
        starts.push(to + 1);
        to += 1 + line.extent.length as usize * layout.places;
        at = next;
        tally = tally.with(here);
    }
    Written { end: to, tally }
}

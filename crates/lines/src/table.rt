// The check of the lines of a table, one after the other.
ghost use Rattle.std.specs.Prelude.{◌≡◌, ◌≤◌};
ghost use Rattle.words.specs.Bytes.{words_of};
ghost use Rattle.checks.specs.Limits.{most_samples};
ghost use Rattle.checks.specs.Said.{said};
ghost use Rattle.lines.specs.Decoding.{table_at};

use crate::extent::Extent;
use crate::line::decode_line;
use arrayvec::ArrayVec;
use checks::fault::{Fault, Refusal};
use checks::kind::Kind;
use checks::limits::MOST_LINES;

// How many lines there are from an index on, and the index after the last: the first word of another kind ends them.
#[tactic(auto, using(checks::proofs::Tests::kind_told))]
pub fn check_lines(
    s: &[u8],
    start: usize,
    signals: usize,
    samples: usize,
) -> Result<(usize, usize), Refusal>
    requires { samples ≤ most_samples }
    ensures { said (λ found. found) result ≡ table_at (words_of s.now) signals samples start }
{
    // of fixed room: there is no heap. Where the lines end is found on the way.
    let mut extents = ArrayVec::<Extent, MOST_LINES>::new();
    let mut at = start;
    while Kind::Line.is_at(s, at) {
        if extents.is_full() {
            return Err(Fault::LineCount.at(at));
        }
        let (line, next) = decode_line(s, at, signals, samples, &extents)?;
        extents.push(line.extent);
        at = next;
    }
    if extents.is_empty() {
        return Err(Fault::LineCount.at(at));
    }
    Ok((extents.len(), at))
}

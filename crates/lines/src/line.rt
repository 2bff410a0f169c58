// A line of the table, decoded: its operator, and its extent from those of the lines before it.
ghost use Rattle.std.specs.Prelude.{◌≡◌, ◌≤◌, ◌<◌, length};
ghost use Rattle.words.specs.Bytes.{words_of};
ghost use Rattle.checks.specs.Limits.{most_samples};
ghost use Rattle.checks.specs.Said.{said};
ghost use Rattle.lines.specs.Decoding.{line_and_next, line_after, ExtentsWithin};

use crate::extent::{Extent, extent_of};
use checks::fault::{Fault, Refusal};
use codes::operator::{Operator, decode_operator};

#[derive(Clone, Copy)]
pub struct Line {
    pub extent: Extent,
    pub operator: Operator,
}

// The line whose word is at an index, after the earlier lines of these extents, and the index after its words. That the samples are within their limit stays a
// clause, here and where it is called: as a type it would be made of a number that the head's check has bounded, and be a number again in each extent.
#[tactic(auto, using(crate::proofs::AcceptedLines::read_sound), unfolding(crate::specs::Lines::line_at))]
pub fn decode_line(
    s: &[u8],
    at: usize,
    signals: usize,
    samples: usize,
    earlier: &[Extent],
) -> Result<(Line, usize), Refusal>
    requires there { at < length (words_of s.now) }
    requires within { (samples ≤ most_samples) × ExtentsWithin samples earlier.now }
    ensures { said line_and_next result ≡ line_after (words_of s.now) signals samples earlier.now at }
{
    let (operator, next) = decode_operator(s, at, signals, earlier.len())?;
    let extent = extent_of(operator, samples, earlier);
    if extent.length == 0 {
        return Err(Fault::LineTooShort.at(at));
    }
    Ok((Line { extent, operator }, next))
}

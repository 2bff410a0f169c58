// One line of the answer: its first word, and its verdicts, sample by sample or, over space, in blocks of samples.
ghost use Rattle.std.specs.Prelude.{◌≡◌, ◌≤◌};
ghost use Rattle.words.specs.Bytes.{after_words};
ghost use Rattle.formulas.specs.Formulas.{end_of};
ghost use Rattle.checks.specs.Limits.{most_samples};
ghost use Rattle.lines.specs.Decoding.{extent_said, line_said};
ghost use Rattle.answers.specs.Answer.{first_word};
ghost use Rattle.evaluation.specs.Line.{LineReadyIn, LineFitsIn, LineWrittenIn};

use crate::accepted::Accepted;
use checks::kind::Kind;
use lines::extent::Extent;
use lines::line::Line;
use locating::earlier::Earlier;
use locating::{Located, locate};
use samples::tally::Tally;
use verdicts::around::{SpaceLine, write_around};
use verdicts::row::{RowLine, write_rows};

// The first sample in bits 23..12, the length in 11..0.
fn first_word(extent: Extent) -> u32
    requires { end_of (extent_said extent) ≤ most_samples }
    ensures { result ≡ first_word (extent_said extent) }
{
    Kind::AnswerLine.word((extent.first << 12) | extent.length)
}

// Writes a line of a sheet, of which the words before its own have the earlier lines.
#[tactic(auto, using(words::proofs::Words::words_count))]
pub(crate) fn write_line(
    line: Line,
    accepted: Accepted,
    earlier: Earlier,
    before: &[u8],
    own: &mut [u8],
) -> Tally
    requires places { earlier.places ≡ accepted.layout.places }
    requires ready { LineReadyIn accepted earlier line before.now }
    requires fits { LineFitsIn accepted line own.old }
    ensures written { LineWrittenIn accepted.entry earlier.entry line before.now own.old own.new result }
    ensures tail { after_words own.new ≡ after_words own.old }
{
    let Accepted {
        sheet,
        layout,
        distances,
    } = accepted;
    words::put_word(own, 0, first_word(line.extent));
    let (_, verdicts) = own.split_at_mut(4);
    let samples = line.extent.length as usize;
    match locate(line, earlier) {
        Located::Rows(operator) => {
            let by_sample = RowLine {
                operator,
                sheet,
                layout,
                before,
            };
            write_rows(by_sample, verdicts, samples)
        }
        Located::Blocks(around) => {
            let over_space = SpaceLine {
                around,
                sheet,
                layout,
                distances,
                before,
            };
            write_around(over_space, verdicts, samples)
        }
    }
}

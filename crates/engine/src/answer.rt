// The whole answer to an accepted sheet: head, lines, end, and zeros behind it.
ghost use Rattle.std.specs.Prelude.{◌≡◌, ◌≤◌, length, replicate};
ghost use Rattle.words.specs.Bytes.{words_of, after_words};
ghost use Rattle.evaluation.specs.Lent.{needed_in};
ghost use Rattle.engine.specs.Lent.{AnswerWrittenIn};

use checks::beginning::{Beginning, put_head};
use checks::head::is_wide;
use checks::kind::Kind;
use evaluation::accepted::Accepted;
use evaluation::walk::{Written, write_lines};

#[tactic(auto, using(crate::proofs::Sizes::end_bound, crate::proofs::WholeWriting::end_room, words::proofs::Words::words_count))]
pub(crate) fn write_answer(accepted: Accepted, answer: &mut [u8]) -> Written
    requires { needed_in accepted.sheet.now accepted.distances.now ≤ length (words_of answer.old) }
    ensures written { AnswerWrittenIn accepted.entry answer.old answer.new result }
    ensures tail { after_words answer.new ≡ replicate (length (after_words answer.old)) 0 }
{
    let layout = accepted.layout;
    let head = Beginning {
        kind: Kind::Answer.number(),
        places: layout.places,
        count: layout.lines,
        samples: layout.samples,
    };
    put_head(answer, head, is_wide(accepted.sheet));
    let written = write_lines(accepted, answer);
    words::put_word(answer, written.end, Kind::End.word(written.end as u32));
    words::clear_behind(answer, written.end + 1);
    written
}

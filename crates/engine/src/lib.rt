// The engine: from a sheet to its whole answer, or to a refusal that leaves zeros.
#![tactic(auto)]

ghost use Rattle.std.specs.Prelude.{◌≡◌, length, replicate};
ghost use Rattle.words.specs.Bytes.{words_of, numbers_of, after_words, after_numbers};
ghost use Rattle.engine.specs.Lent.{judged_in, AnsweredIn};
ghost use Rattle.engine.specs.Result.{result_said};

use answer::write_answer;
use checks::fault::{Fault, Refusal};
use evaluation::accepted::Accepted;
use evaluation::walk::words_needed;
use sheet::survey::survey;

mod answer;

// What a host is told of an answer: its words, the greatest rounds of a surround, and how many verdicts are yes.
#[derive(Clone, Copy, Debug, PartialEq, Eq)]
pub struct Answered {
    pub words: u64,
    pub rounds: u64,
    pub yes: u64,
}

// Answers a sheet where the check accepts it and the answer has room. A refusal leaves zeros for distances, and what it leaves of the answer is not said.
#[tactic(auto, using(crate::proofs::Sizes::end_bound))]
fn answer_sheet(sheet: &[u8], distances: &mut [u8], answer: &mut [u8]) -> Result<Answered, Refusal>
    ensures { AnsweredIn sheet.now distances.old answer.old result distances.new answer.new }
{
    let layout = survey(sheet, distances)?;
    let accepted = Accepted {
        sheet,
        layout,
        distances,
    };
    if words::word_count(answer) < words_needed(accepted) {
        words::fill_zero(distances);
        return Err(Fault::OutputShort.at(words::word_count(sheet)));
    }
    let written = write_answer(accepted, answer);
    Ok(Answered {
        words: written.end as u64 + 1,
        rounds: written.tally.rounds,
        yes: written.tally.yes,
    })
}

// Judges a sheet: leaves its distances and its whole answer in what is lent, zeros beyond; zeros alone where it refuses.
#[tactic(auto, using(words::proofs::Zeros::zero_words, words::proofs::Zeros::zero_words_tail, words::proofs::Zeros::zero_numbers, words::proofs::Zeros::zero_numbers_tail, words::proofs::Numbers::same_count))]
pub fn judge(sheet: &[u8], distances: &mut [u8], answer: &mut [u8]) -> Result<Answered, Refusal>
    ensures told { result_said result ≡ (judged_in sheet.now distances.old answer.old).result }
    ensures said { words_of answer.new ≡ (judged_in sheet.now distances.old answer.old).answer }
    ensures measured { numbers_of (words_of distances.new) ≡ (judged_in sheet.now distances.old answer.old).distances }
    ensures tail { after_words answer.new ≡ replicate (length (after_words answer.old)) 0 }
    ensures rest { after_numbers distances.new ≡ replicate (length (after_numbers distances.old)) 0 }
{
    match answer_sheet(sheet, distances, answer) {
        Ok(answered) => Ok(answered),
        Err(refusal) => {
            words::fill_zero(answer);
            Err(refusal)
        }
    }
}

// The engine, the lookup and the tools over bytes and numbers, as a host calls them, one written in C through the static library host_c: a
// slice may have any length, and what is wrong with it is told.
#![tactic(auto)]

ghost use Rattle.std.specs.Prelude.{◌≡◌, length};
ghost use Rattle.engine.specs.Result.{result_said};
ghost use Rattle.host.specs.Host.{result_size, result_bytes, lent_whole, host_judged, host_looked_up};

use checks::fault::Refusal;
use engine::Answered;

mod tool_calls;

pub use tool_calls::{correct_sheet, sheet_to_narrow, sheet_to_wide};

// Five numbers of eight bytes.
const RESULT_BYTES: usize = 40;

// Whether these lengths have whole words, whole distances and a result.
#[tactic(auto, unfolding(crate::specs::Host::lent_whole))]
fn lent_whole(sheet: usize, distances: usize, answer: usize, res: usize) -> bool
    ensures { result ≡ lent_whole sheet distances answer res }
{
    sheet.is_multiple_of(4)
        && answer.is_multiple_of(4)
        && distances.is_multiple_of(8)
        && res == RESULT_BYTES
}

// The five numbers of what the engine answers, and the first of them: here, and in `put_told` of tools, 0 stands for no refusal. Tools have three
// numbers of another answer; what is common to both is `words::put_numbers`.
fn put_result(res: &mut [u8], told: Result<Answered, Refusal>) -> u64
    requires { length res.old ≡ result_size }
    ensures number { result ≡ (result_said told).number }
    ensures held { res.new ≡ result_bytes (result_said told) }
{
    let numbers = match told {
        Ok(answered) => [0, 0, answered.words, answered.rounds, answered.yes],
        Err(refusal) => [refusal.fault.number(), refusal.place as u64, 0, 0, 0],
    };
    words::put_numbers(res, &numbers);
    numbers[0]
}

// Judges a sheet and returns the number of its refusal, 0 for none, as C takes it. Lengths that are not whole are 16, before all else.
#[tactic(auto, using(crate::proofs::Lent::whole_lengths, crate::proofs::Lent::refused_lengths), unfolding(words::specs::Bytes::bytes_of, words::specs::Bytes::halves_of))]
pub fn judge(sheet: &[u8], distances: &mut [u8], answer: &mut [u8], res: &mut [u8]) -> u64
    ensures told { result ≡ (host_judged sheet.now distances.old answer.old res.old).number }
    ensures said { answer.new ≡ (host_judged sheet.now distances.old answer.old res.old).answer }
    ensures measured { distances.new ≡ (host_judged sheet.now distances.old answer.old res.old).distances }
    ensures held { res.new ≡ (host_judged sheet.now distances.old answer.old res.old).result }
{
    if !lent_whole(sheet.len(), distances.len(), answer.len(), res.len()) {
        words::fill_zero(distances);
        return tools::refuse_lent(answer, res, RESULT_BYTES);
    }
    put_result(res, engine::judge(sheet, distances, answer))
}

// 1 yes, 2 no, 0 no verdict, a number as C takes it: bytes past the last whole word are no part of an answer.
#[tactic(auto, unfolding(crate::specs::Host::host_looked_up))]
pub fn lookup(answer: &[u8], line: u64, sample: u64, place: u64) -> u64
    ensures { result ≡ host_looked_up answer.now line sample place }
{
    if !answer.len().is_multiple_of(4) {
        return 0;
    }
    lookup::lookup(answer, line, sample, place)
}

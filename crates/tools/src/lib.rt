// The tools over bytes, for hosts, and what they have in common: the test of the lengths, the refusal of bytes, and the numbers that are told.
#![tactic(auto)]

ghost use Rattle.std.specs.Prelude.{◌≡◌, ◌≤◌, ◌&&◌, Result, length};
ghost use Rattle.tool.specs.Tool.{told_by};
ghost use Rattle.tools.specs.Tools.{multiple, bytes_refused, zeros, refused_bytes, tool_result_size, told_bytes, tool_whole, host_converted, host_corrected};

use checks::fault::{Fault, Refusal};

// Three numbers of eight bytes.
const TOLD_BYTES: usize = 24;

// Whether a length has whole words.
fn whole_words(length: usize) -> bool
    ensures { result ≡ multiple 4 length }
{
    length.is_multiple_of(4)
}

// Whether the lengths have whole words and a result; of the inputs it is told, as some tools have one and some two.
#[tactic(auto, unfolding(crate::specs::Tools::tool_whole))]
fn tool_whole(inputs: bool, output: usize, res: usize) -> bool
    ensures { result ≡ tool_whole inputs output res }
{
    inputs && whole_words(output) && res == TOLD_BYTES
}

// The numbers of what a tool answers, and the first of them: here, and in `put_result` of host, 0 stands for no refusal.
fn put_told(res: &mut [u8], made: Result<usize, Refusal>) -> u64
    requires { length res.old ≡ tool_result_size }
    ensures number { result ≡ (told_by made).number }
    ensures held { res.new ≡ told_bytes (told_by made) }
{
    let numbers = match made {
        Ok(words) => [0, 0, words as u64],
        Err(refusal) => [refusal.fault.number(), refusal.place as u64, 0],
    };
    words::put_numbers(res, &numbers);
    numbers[0]
}

// Refuses lengths that are not whole, wherever a host lends them: zeros in an output and in a result, but for the number at the front of a result of the
// right size.
#[tactic(auto, using(words::proofs::Numbers::length_numbers, crate::proofs::Refusing::put_in_zeros))]
pub fn refuse_lent(output: &mut [u8], res: &mut [u8], size: usize) -> u64
    requires { 8 ≤ size }
    ensures told { result ≡ bytes_refused }
    ensures said { output.new ≡ zeros output.old }
    ensures held { res.new ≡ refused_bytes size res.old }
{
    let number = Fault::BytesRefused.number();
    words::fill_zero(output);
    words::fill_zero(res);
    if res.len() == size {
        words::put_number(res, 0, number);
    }
    number
}

// Converts a sheet to the layout that is asked for and returns the number of its refusal, 0 for none. Lengths that are not whole are 16, before
// all else.
#[tactic(auto, using(crate::proofs::LentTools::tool_lengths, crate::proofs::LentTools::tool_refused), unfolding(words::specs::Bytes::bytes_of, words::specs::Bytes::halves_of))]
pub fn convert_sheet(sheet: &[u8], to: bool, output: &mut [u8], res: &mut [u8]) -> u64
    ensures told { result ≡ (host_converted to sheet.now output.old res.old).number }
    ensures said { output.new ≡ (host_converted to sheet.now output.old res.old).output }
    ensures held { res.new ≡ (host_converted to sheet.now output.old res.old).result }
{
    if !tool_whole(whole_words(sheet.len()), output.len(), res.len()) {
        return refuse_lent(output, res, TOLD_BYTES);
    }
    put_told(res, conversion::convert(sheet, to, output))
}

// Corrects a sheet by a list of corrections, in the same way: a function for both would take the tool as a closure, and be no shorter.
#[tactic(auto, using(crate::proofs::LentTools::tool_lengths, crate::proofs::LentTools::tool_refused), unfolding(words::specs::Bytes::bytes_of, words::specs::Bytes::halves_of))]
pub fn correct_sheet(sheet: &[u8], list: &[u8], output: &mut [u8], res: &mut [u8]) -> u64
    ensures told { result ≡ (host_corrected sheet.now list.now output.old res.old).number }
    ensures said { output.new ≡ (host_corrected sheet.now list.now output.old res.old).output }
    ensures held { res.new ≡ (host_corrected sheet.now list.now output.old res.old).result }
{
    let inputs = whole_words(sheet.len()) && whole_words(list.len());
    if !tool_whole(inputs, output.len(), res.len()) {
        return refuse_lent(output, res, TOLD_BYTES);
    }
    put_told(res, correcting::correct(sheet, list, output))
}

// Judges the sheet on standard input and prints its verdicts.
//
// Input: the sheet's words, four bytes each, lowest byte first.
//
// Output, where the sheet is accepted:
//     accepted WORDS ROUNDS YES          the words of the answer, the greatest rounds of a surround, how many verdicts are yes
//     LINE SAMPLE VERDICT MARGIN ..      a row for each line and each of its samples, by the recording's numbers, with a verdict and its
//                                        margin for each place
//     end ROWS                           how many such rows there are
// where it is refused:
//     refused NUMBER PLACE
// A read or a write that fails ends it: with an error on standard error, and status 1.
#![tactic(auto)]

ghost use Rattle.std.specs.Prelude.{◌≡◌, ◌+◌, ◌*◌, ◌^◌, ◌<◌, ◌≤◌, length, IfOk};
ghost use Rattle.words.specs.Bytes.{words_of, numbers_of};
ghost use Rattle.words.specs.Word.{payload_of, signed};
ghost use Rattle.engine.specs.Result.{result_said};
ghost use Rattle.host.specs.Host.{program_distances, program_words, input_taken, program_judged};

use checks::fault::{Fault, Refusal};
use engine::Answered;
use std::{fmt, io};
use values::VerdictKind;

// What is read at most: more than is taken, so that an input that is too long is seen.
const READ_BYTES: usize = 65536;

// What is taken, and what is lent: 4,096 distances and 16,384 answer words.
const INPUT_BYTES: usize = 32768;

const DISTANCES_BYTES: usize = 32768;

const ANSWER_BYTES: usize = 65536;

// The margin of a word that says a finite one: its payload in two's complement.
fn margin(word: u32) -> i32
    ensures { result ≡ signed 28 (payload_of word) }
{
    words::signed::<28>(word)
}

// A word of an answer that says a verdict.
#[derive(Clone, Copy)]
struct Verdict(u32);

impl fmt::Display for Verdict {
    fn fmt<W: fmt::Write>(&self, f: &mut fmt::Formatter<W>) -> fmt::Result {
        match VerdictKind::of(self.0) {
            Some(VerdictKind::Yes) => write!(f, "yes {}", margin(self.0)),
            Some(VerdictKind::No) => write!(f, "no {}", margin(self.0)),
            Some(VerdictKind::InfiniteYes) => write!(f, "yes +inf"),
            // an answer has no other
            Some(VerdictKind::InfiniteNo) | None => write!(f, "no -inf"),
        }
    }
}

// The verdicts of all places at one sample, the first at index `at`.
fn print_places(rt: &impl Print, answer: &[u8], at: usize, places: usize) -> io::Result<()>
    requires { at + places ≤ 2 ^ 40 }
{
    for index in at..at + places {
        print!(rt; " {}", Verdict(words::word_or_zero(answer, index)))?;
    }
    println!(rt)
}

// The rows of the line whose first word stands at index `at`, from its first sample on. Tells the index after the line.
#[tactic(auto, using(crate::proofs::Rows::rows_few))]
fn print_line(
    rt: &impl Print,
    answer: &[u8],
    line: usize,
    at: usize,
    places: usize,
) -> io::Result<usize>
    requires { (at < 2 ^ 36) × (places < 2 ^ 16) }
    ensures { IfOk result (λ next. next ≤ at + 2 ^ 28) }
{
    let first = lookup::first_at(answer, at);
    let length = lookup::length_at(answer, at);
    for row in 0..length {
        print!(rt; "{line} {}", first + row)?;
        print_places(rt, answer, at + 1 + row * places, places)?;
    }
    Ok(at + 1 + length * places)
}

// The rows of all lines, and last how many they are. Each line tells where the next begins, so the index is carried. The fields of 8, 12 and 16 bits keep
// every index small, whatever the words are.
#[tactic(auto, using(checks::proofs::Heads::places_few))]
fn print_lines(rt: &impl Print, answer: &[u8]) -> io::Result<()> {
    let places = checks::head::places(answer);
    let mut at: usize = checks::head::head_words(checks::head::is_wide(answer));
    let mut rows: usize = 0;
    for line in 0..lookup::lines(answer) {
        rows += lookup::length_at(answer, at);
        at = print_line(rt, answer, line, at, places)?;
    }
    println!(rt; "end {rows}")
}

fn print_accepted(rt: &impl Print, told: Answered) -> io::Result<()> {
    println!(rt; "accepted {} {} {}", told.words, told.rounds, told.yes)
}

#[tactic(auto, unfolding(host::specs::Host::input_taken))]
fn input_taken(bytes: usize) -> bool
    ensures { result ≡ input_taken bytes }
{
    bytes.is_multiple_of(4) && bytes <= INPUT_BYTES
}

// Judges the input, where it is taken.
#[tactic(auto, using(words::proofs::Numbers::length_numbers, words::proofs::Words::length_words), unfolding(host::specs::Host::program_judged))]
fn judge_input(input: &[u8], distances: &mut [u8], answer: &mut [u8]) -> Result<Answered, Refusal>
    requires { (length distances.old ≡ program_distances * 8) × (length answer.old ≡ program_words * 4) }
    ensures told { result_said result ≡ (program_judged input.now).result }
    ensures said { words_of answer.new ≡ (program_judged input.now).answer }
    ensures measured { numbers_of (words_of distances.new) ≡ (program_judged input.now).distances }
{
    if !input_taken(input.len()) {
        words::fill_zero(distances);
        words::fill_zero(answer);
        return Err(Fault::BytesRefused.at(0));
    }
    engine::judge(input, distances, answer)
}

fn print_judged(rt: &impl Print, input: &[u8]) -> io::Result<()> {
    let mut distances = [0u8; DISTANCES_BYTES];
    let mut answer = [0u8; ANSWER_BYTES];
    match judge_input(input, &mut distances, &mut answer) {
        Ok(told) => {
            print_accepted(rt, told)?;
            print_lines(rt, &answer)
        }
        Err(refusal) => println!(rt; "refused {refusal}"),
    }
}

fn main(rt: HostRuntime) -> io::Result<()> {
    let mut buf = [0u8; READ_BYTES];
    let count = input::read_full(&mut rt.stdin(), &mut buf)?;
    print_judged(&rt, &buf[..count])
}

// The lookup: whether bytes hold a whole answer, and the verdict that it has at a line, sample and place. Every slice of bytes is taken: a word
// that is missing is read as 0, which is no word of an answer up to its end. First samples and lengths are fields of 12 bits, counts of 8, and
// places of at most 16, so even by words that are no answer the index of a line stays below 2^36, and none wraps.
#![tactic(auto)]

ghost use Rattle.std.specs.Prelude.{◌≡◌, ◌+◌, ◌*◌, ◌<◌, ◌^◌, ltb, eqb, length};
ghost use Rattle.words.specs.Bytes.{words_of};
ghost use Rattle.logic.specs.Lattice.{verdict_lattice, least_over};
ghost use Rattle.checks.specs.Checked.{word_at};
ghost use Rattle.checks.specs.Heads.{places_of};
ghost use Rattle.values.specs.Said.{said_by};
ghost use Rattle.lookup.specs.Told.{told};
ghost use Rattle.lookup.specs.Lookup.{is_said, verdict_number, all, head_lines, head_samples, extent_at, line_start, whole_places, whole_head, whole_line_at, whole_line, whole_end, whole_answer, said_at, looked_up};

use checks::head::{head, head_words, is_wide, places, wide_counted, wide_followed};
use checks::kind::Kind;
use checks::limits::{MOST_LINES, MOST_NARROW, MOST_SAMPLES, within};
use checks::word::is_end;
use values::VerdictKind;

// The payload -2^27, which no margin has: below it stand the margins from 0 up, above it those below 0.
const NO_MARGIN: u32 = 134217728;

// What an answer says at a line, sample and place, by its number.
#[derive(Clone, Copy)]
enum Verdict {
    Yes = 1,
    No = 2,
}

// What a word says.
#[tactic(auto, unfolding(values::specs::Said::said, values::specs::Kinds::verdict_kind))]
fn verdict_of(w: u32) -> Option<Verdict>
    ensures { told result ≡ verdict_number (said_by w) }
{
    let payload = words::payload(w);
    match VerdictKind::of(w)? {
        VerdictKind::Yes if payload < NO_MARGIN => Some(Verdict::Yes),
        VerdictKind::No if payload == 0 || NO_MARGIN < payload => Some(Verdict::No),
        VerdictKind::InfiniteYes if payload == 0 => Some(Verdict::Yes),
        VerdictKind::InfiniteNo if payload == 0 => Some(Verdict::No),
        _ => None,
    }
}

// The fields of an answer's head, and of a line's first word, whatever the words are: each one call of `bits` by its name.
pub fn lines(answer: &[u8]) -> usize
    ensures { result ≡ head_lines (words_of answer.now) }
{
    words::bits::<12, 8>(head(answer)) as usize
}

pub fn first_at(answer: &[u8], at: usize) -> usize
    ensures { result ≡ (extent_at (words_of answer.now) at).first }
{
    words::bits::<12, 12>(words::word_or_zero(answer, at)) as usize
}

pub fn length_at(answer: &[u8], at: usize) -> usize
    ensures { result ≡ (extent_at (words_of answer.now) at).length }
{
    words::bits::<0, 12>(words::word_or_zero(answer, at)) as usize
}

fn samples(answer: &[u8]) -> usize
    ensures { result ≡ head_samples (words_of answer.now) }
{
    words::bits::<0, 12>(head(answer)) as usize
}

// Whether the places are told as they should be, in the head of a narrow answer or before that of a wide one.
#[tactic(auto, unfolding(crate::specs::Lookup::whole_places))]
fn whole_places(answer: &[u8]) -> bool
    ensures { result ≡ whole_places (words_of answer.now) }
{
    if is_wide(answer) {
        return wide_counted(answer) && wide_followed(answer, Kind::Answer.number());
    }
    Kind::Answer.is_at(answer, 0) && within(places(answer), MOST_NARROW)
}

#[tactic(auto, unfolding(crate::specs::Lookup::whole_head))]
fn whole_head(answer: &[u8]) -> bool
    ensures { result ≡ whole_head (words_of answer.now) }
{
    whole_places(answer)
        && within(lines(answer), MOST_LINES)
        && within(samples(answer), MOST_SAMPLES)
}

// Whether each of so many words from an index on says a verdict.
fn whole_verdicts(answer: &[u8], start: usize, count: usize) -> bool
    requires { start + count < 2 ^ 40 }
    ensures { result ≡ all (λ j. is_said (said_by (word_at (words_of answer.now) (start + j)))) count }
{
    (start..start + count).all(|at| verdict_of(words::word_or_zero(answer, at)).is_some())
}

// Whether a line begins at an index, with samples that the recording has and a verdict for each sample and place. That the index is small stays a clause,
// here and where the next line or a row is read from it: a type of small indices would be made anew at every step.
#[tactic(auto, using(crate::proofs::Walk::line_size), unfolding(crate::specs::Lookup::whole_line_at))]
fn whole_line(answer: &[u8], at: usize) -> bool
    requires { at < 2 ^ 36 }
    ensures { result ≡ whole_line_at (words_of answer.now) at }
{
    let length = length_at(answer, at);
    let end = first_at(answer, at) + length;
    Kind::AnswerLine.is_at(answer, at)
        && words::bits::<24, 4>(words::word_or_zero(answer, at)) == 0
        && 1 <= length
        && end <= samples(answer)
        && whole_verdicts(answer, at + 1, length * places(answer))
}

// The index after a line, by its length.
#[tactic(auto, using(crate::proofs::Walk::line_size))]
fn next_line(answer: &[u8], at: usize) -> usize
    requires { at < 2 ^ 36 }
    ensures { result ≡ at + 1 + (extent_at (words_of answer.now) at).length * places_of (words_of answer.now) }
{
    at + 1 + length_at(answer, at) * places(answer)
}

// The index of line i, or of the end, where i is the line count: each line before it gives its own length, so a fold hands the index on.
fn line_start(answer: &[u8], i: usize) -> usize
    requires { i < 2 ^ 8 }
    ensures { result ≡ line_start (words_of answer.now) i }
{
    (0..i).fold(head_words(is_wide(answer)), |at, _| next_line(answer, at))
}

// Whether each line is whole. A line that is not may give a length that leads astray, so it ends the loop, and nothing after it is read. The index is
// carried, as each line gives where the next begins.
#[tactic(auto, using(crate::proofs::Walk::none_fails, crate::proofs::Walk::next_start, crate::proofs::Walk::start_small), unfolding(crate::specs::Lookup::line_start))]
fn whole_lines(answer: &[u8]) -> bool
    ensures { result ≡ all (whole_line (words_of answer.now)) (head_lines (words_of answer.now)) }
{
    let mut at: usize = head_words(is_wide(answer));
    for i in 0..lines(answer) {
        if !whole_line(answer, at) {
            return false;
        }
        at = next_line(answer, at);
    }
    true
}

// Whether each word after an index is zero.
#[tactic(auto, using(words::proofs::Words::words_count))]
fn zeros_after(answer: &[u8], at: usize) -> bool
    requires { at < length (words_of answer.now) }
    ensures { result ≡ least_over verdict_lattice (ltb at) (λ j. eqb (word_at (words_of answer.now) j) 0) (length (words_of answer.now)) }
{
    (at + 1..words::word_count(answer)).all(|j| words::word_at(answer, j) == 0)
}

#[tactic(auto, using(checks::proofs::Tests::kind_told, checks::proofs::Tests::and_true), unfolding(crate::specs::Lookup::whole_end))]
fn whole_end(answer: &[u8], at: usize) -> bool
    ensures { result ≡ whole_end (words_of answer.now) at }
{
    is_end(answer, at) && zeros_after(answer, at)
}

#[tactic(auto, unfolding(crate::specs::Lookup::whole_answer))]
fn whole(answer: &[u8]) -> bool
    ensures { result ≡ whole_answer (words_of answer.now) }
{
    whole_head(answer)
        && whole_lines(answer)
        && whole_end(answer, line_start(answer, lines(answer)))
}

// What the answer says at a line, sample and place: nothing where it has no such line, sample or place.
#[tactic(auto, using(crate::proofs::Walk::line_size, crate::proofs::Walk::start_small, checks::proofs::Heads::places_few), unfolding(crate::specs::Lookup::said_at))]
fn verdict_at(answer: &[u8], line: u64, sample: u64, place: u64) -> Option<Verdict>
    ensures { told result ≡ verdict_number (said_at (words_of answer.now) line sample place) }
{
    if lines(answer) as u64 <= line {
        return None;
    }
    let start = line_start(answer, line as usize);
    let first = first_at(answer, start) as u64;
    let row = sample.checked_sub(first)?;
    if length_at(answer, start) as u64 <= row {
        return None;
    }
    let n = places(answer);
    if n as u64 <= place {
        return None;
    }
    let at = start + 1 + (row as usize * n + place as usize);
    verdict_of(words::word_or_zero(answer, at))
}

// 1 yes, 2 no, 0 no verdict, as hosts in C are told: the bytes are no whole answer, or it has no such line, sample or place.
#[tactic(auto, unfolding(crate::specs::Lookup::looked_up))]
pub fn lookup(answer: &[u8], line: u64, sample: u64, place: u64) -> u64
    ensures { result ≡ looked_up (words_of answer.now) line sample place }
{
    if !whole(answer) {
        return 0;
    }
    match verdict_at(answer, line, sample, place) {
        Some(verdict) => verdict as u64,
        None => 0,
    }
}

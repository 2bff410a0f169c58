// The tool for late corrections (M-107): a valid sheet is written with each corrected sample replaced; for one sample the highest revision counts.
#![tactic(auto)]

ghost use Rattle.std.specs.Prelude.{◌≡◌, length, replicate};
ghost use Rattle.words.specs.Bytes.{words_of, after_words};
ghost use Rattle.tool.specs.Tool.{told_by, Makes};
ghost use Rattle.correcting.specs.Lent.{corrected_in, left_in, grid_in, raised_to, given_way, ReachesIn, raised_in, settled_in, TargetsIn, NoRevisionsIn, AllRaisedIn, AllSettledIn, CorrectedIn, Ready};

use checks::fault::{Fault, Refusal};
use clashes::find_clash;
use corrections::check::{check_corrections, correction_count};
use corrections::correction::Grid;
use corrections::list::Corrections;
use sheet::check::{Layout, check_words};

// One more than the highest revision.
const AFTER_REVISIONS: u32 = 256;

// A function and no `From`, which only the crate of one of the two types may write, and neither of these rests on the other.
fn grid_of(layout: Layout) -> Grid
    ensures { result ≡ grid_in layout }
{
    Grid {
        start: layout.recording,
        places: layout.places,
        signals: layout.signals,
        samples: layout.samples,
    }
}

// A sample, or a revision that is lower, gives way to a revision.
fn raised_to(revision: u32, word: u32) -> u32
    ensures { result ≡ raised_to revision word }
{
    if AFTER_REVISIONS <= word {
        return revision;
    }
    word.max(revision)
}

// A revision gives way to its value.
fn given_way(revision: u32, value: u32, word: u32) -> u32
    ensures { result ≡ given_way revision value word }
{
    if word == revision { value } else { word }
}

fn raise(list: &Corrections, k: usize, output: &mut [u8])
    requires { ReachesIn list.now output.old k }
    ensures { words_of output.new ≡ raised_in list.now output.old k }
{
    let at = list.target(k);
    let word = words::word_at(output, at);
    words::put_word(output, at, raised_to(list.revision(k), word));
}

// The steps of `raise` with another word in the end: a function for both would take that word as a closure, and be no shorter.
fn settle(list: &Corrections, k: usize, output: &mut [u8])
    requires { ReachesIn list.now output.old k }
    ensures { words_of output.new ≡ settled_in list.now output.old k }
{
    let at = list.target(k);
    let word = words::word_at(output, at);
    let settled = given_way(list.revision(k), list.value(k), word);
    words::put_word(output, at, settled);
}

// Puts the highest revision among its corrections in place of each corrected sample. That the targets lie in the words (`TargetsIn`) stays a clause: it is
// asked of the sheet and of the output, which is written.
#[tactic(auto, using(crate::proofs::Raising::raised_none, crate::proofs::Raising::raised_more, tool::proofs::Leaving::same_words))]
fn raise_all(list: &Corrections, output: &mut [u8])
    requires { TargetsIn list.now output.old × NoRevisionsIn list.now output.old }
    ensures { AllRaisedIn list.now output.old output.new }
{
    for k in 0..list.count {
        raise(list, k, output);
    }
}

// Puts the value in place of each highest revision, from the last correction on, so that the last of equal ones is taken.
#[tactic(auto, using(crate::proofs::Settling::settled_none, tool::proofs::Leaving::same_words))]
fn settle_all(list: &Corrections, output: &mut [u8])
    requires { TargetsIn list.now output.old }
    ensures { AllSettledIn list.now output.old output.new }
{
    for k in (0..list.count).rev() {
        settle(list, k, output);
    }
}

// Writes a valid sheet with its corrections, where there is room.
#[tactic(auto, using(crate::proofs::Writing::front_laws, tool::proofs::Leaving::same_words))]
fn write_corrected(sheet: &[u8], list: &Corrections, output: &mut [u8])
    requires { Ready list.now sheet.now output.old }
    ensures { CorrectedIn list.now sheet.now output.new }
{
    let end = words::word_count(sheet) * 4;
    words::copy_bytes(&sheet[..end], output, 0);
    raise_all(list, output);
    settle_all(list, output);
}

// Makes, of a list that has passed 19, the words at the front of the output: 20, then the room, then the sheet with its corrections.
#[tactic(auto, using(crate::proofs::Applying::clashes, crate::proofs::Applying::too_short, tool::proofs::Leaving::same_words, tool::proofs::Leaving::refusal_made))]
fn apply(sheet: &[u8], list: &Corrections, output: &mut [u8]) -> Result<usize, Refusal>
    requires { TargetsIn list.now sheet.now × NoRevisionsIn list.now sheet.now }
    ensures { Makes (left_in list.now sheet.now output.old) result (words_of output.new) }
{
    find_clash(list, output)?;
    let count = words::word_count(sheet);
    if words::word_count(output) < count {
        return Err(Fault::OutputShort.at(count));
    }
    write_corrected(sheet, list, output);
    Ok(count)
}

// A sheet's own fault comes first, then 19, then 20, and an output that is too short last.
#[tactic(auto, using(crate::proofs::Applying::decisions, tool::proofs::Leaving::refusal_made))]
fn make(sheet: &[u8], list: &[u8], output: &mut [u8]) -> Result<usize, Refusal>
    ensures { Makes (corrected_in sheet.now list.now output.old) result (words_of output.new) }
{
    let grid = grid_of(check_words(sheet)?);
    check_corrections(list, grid)?;
    let passed = Corrections {
        words: list,
        grid,
        count: correction_count(list),
    };
    apply(sheet, &passed, output)
}

// Corrects a sheet, and tells how many words it has.
#[tactic(auto, using(tool::proofs::Leaving::same_tail))]
pub fn correct(sheet: &[u8], list: &[u8], output: &mut [u8]) -> Result<usize, Refusal>
    ensures told { told_by result ≡ (corrected_in sheet.now list.now output.old).told }
    ensures left { words_of output.new ≡ (corrected_in sheet.now list.now output.old).output }
    ensures tail { after_words output.new ≡ replicate (length (after_words output.old)) 0 }
{
    let made = make(sheet, list, output);
    tool::leave(made, output)
}

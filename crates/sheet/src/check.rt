// The check of a whole sheet.
ghost use Rattle.std.specs.Prelude.{◌≡◌};
ghost use Rattle.words.specs.Bytes.{words_of};
ghost use Rattle.checks.specs.Said.{said};
ghost use Rattle.sheet.specs.Layout.{end_checked};
ghost use Rattle.sheet.specs.Checking.{layout_checked, layout_validated};

use crate::stages::{check_head, check_samples};
use checks::fault::{Fault, Refusal};
use checks::limits::MOST_PLACES;
use checks::word::is_end;
use lines::table::check_lines;
use roads::check::check_roads;

// What stands where: the sizes of the head, how many roads and lines there are, and the indices at which the recording (the samples) and the
// table (the lines) begin. The sizes are fields of its own and no `Sizes`, which the head alone needs: contracts of other crates name them so.
#[derive(Clone, Copy)]
pub struct Layout {
    pub places: usize,
    pub signals: usize,
    pub samples: usize,
    pub roads: usize,
    pub lines: usize,
    pub recording: usize,
    pub table: usize,
}

// The end word, at its index, and nothing after it: then what was found is the layout.
#[tactic(auto, using(words::proofs::Words::words_count, checks::proofs::Tests::kind_told), unfolding(crate::specs::Layout::end_checked))]
fn check_end(s: &[u8], at: usize, found: Layout) -> Result<Layout, Refusal>
    ensures { said (λ layout. layout) result ≡ end_checked (words_of s.now) at found }
{
    if !is_end(s, at) {
        return Err(Fault::NotEnd.at(at));
    }
    let after = at + 1;
    if words::word_count(s) != after {
        return Err(Fault::NotEnd.at(after));
    }
    Ok(found)
}

// Checks a sheet front to back, given how many distances are lent: its layout, or its first fault and the place of it.
#[tactic(auto, using(crate::proofs::Accepted::head_accepted, checks::proofs::Checks::mapped_accepted, checks::proofs::Checks::mapped_refused, checks::proofs::Heads::few_head_words, crate::proofs::Whole::lines_refused), unfolding(crate::specs::Layout::checked))]
pub fn check_sheet(s: &[u8], distances: usize) -> Result<Layout, Refusal>
    ensures { said (λ layout. layout) result ≡ layout_checked (words_of s.now) distances }
{
    let sizes = check_head(s, distances)?;
    let recording = check_roads(s, sizes.places)?;
    let count = sizes.signals * sizes.places * sizes.samples;
    let table = check_samples(s, recording, count)?;
    let (lines, after) = check_lines(s, table, sizes.signals, sizes.samples)?;
    let layout = Layout {
        places: sizes.places,
        signals: sizes.signals,
        samples: sizes.samples,
        // after a head of one word or of two, two words for each road
        roads: (recording - 1) / 2,
        lines,
        recording,
        table,
    };
    check_end(s, after, layout)
}

// Checks a sheet for those that ask for no distance.
#[tactic(auto, unfolding(crate::specs::Layout::validated))]
pub fn check_words(s: &[u8]) -> Result<Layout, Refusal>
    ensures { said (λ layout. layout) result ≡ layout_validated (words_of s.now) }
{
    check_sheet(s, MOST_PLACES * MOST_PLACES)
}

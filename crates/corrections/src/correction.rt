// What one correction says, and which sample of the sheet it is aimed at.
ghost use Rattle.std.specs.Prelude.{◌≡◌, ◌+◌, ◌*◌, ◌<◌, length};
ghost use Rattle.words.specs.Word.{bits};
ghost use Rattle.words.specs.Bytes.{words_of};
ghost use Rattle.checks.specs.Checked.{word_at};
ghost use Rattle.corrections.specs.Corrections.{revision, value, target};
ghost use Rattle.corrections.specs.Aimed.{GridFits};

// The samples of a sheet: the index at which they begin, and how many places, signals and samples there are. A sheet's `Layout` has these too, but this
// crate does not rest on the one that checks sheets.
#[derive(Clone, Copy)]
pub struct Grid {
    pub start: usize,
    pub places: usize,
    pub signals: usize,
    pub samples: usize,
}

// The fields of a first word, each one call of `bits` by its name.
pub(crate) fn revision_of(first: u32) -> u32
    ensures { result ≡ bits 20 8 first }
{
    words::bits::<20, 8>(first)
}

pub(crate) fn signal_of(first: u32) -> usize
    ensures { result ≡ bits 12 8 first }
{
    words::bits::<12, 8>(first) as usize
}

pub(crate) fn time_of(first: u32) -> usize
    ensures { result ≡ bits 0 12 first }
{
    words::bits::<0, 12>(first) as usize
}

// The field of a second word.
pub(crate) fn place_of(second: u32) -> usize
    ensures { result ≡ bits 0 16 second }
{
    words::bits::<0, 16>(second) as usize
}

// One of its three words. These readers are functions beside the methods of a list that has passed, since they ask only that the words are there.
#[tactic(auto, using(words::proofs::Words::words_count))]
fn part_at(list: &[u8], k: usize, part: usize) -> u32
    requires { k * 3 + part < length (words_of list.now) }
    ensures { result ≡ word_at (words_of list.now) (k * 3 + part) }
{
    words::word_at(list, k * 3 + part)
}

pub fn first_at(list: &[u8], k: usize) -> u32
    requires { k * 3 + 2 < length (words_of list.now) }
    ensures { result ≡ word_at (words_of list.now) (k * 3) }
{
    part_at(list, k, 0)
}

pub fn second_at(list: &[u8], k: usize) -> u32
    requires { k * 3 + 2 < length (words_of list.now) }
    ensures { result ≡ word_at (words_of list.now) (k * 3 + 1) }
{
    part_at(list, k, 1)
}

pub fn value_at(list: &[u8], k: usize) -> u32
    requires { k * 3 + 2 < length (words_of list.now) }
    ensures { result ≡ value (words_of list.now) k }
{
    part_at(list, k, 2)
}

pub fn revision_at(list: &[u8], k: usize) -> u32
    requires { k * 3 + 2 < length (words_of list.now) }
    ensures { result ≡ revision (words_of list.now) k }
{
    revision_of(first_at(list, k))
}

// The index of the sample in the sheet.
#[tactic(auto, using(crate::proofs::Small::row_small, crate::proofs::Small::cells_small))]
pub fn target_at(list: &[u8], k: usize, grid: Grid) -> usize
    requires { (k * 3 + 2 < length (words_of list.now)) × GridFits grid }
    ensures { result ≡ target (words_of list.now) grid k }
{
    let first = first_at(list, k);
    let place = place_of(second_at(list, k));
    let row = time_of(first) * grid.places + place;
    grid.start + (row * grid.signals + signal_of(first))
}

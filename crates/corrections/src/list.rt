// A list of which each correction has passed 19, with the samples of a sheet, at which each is aimed.
ghost use Rattle.std.specs.Prelude.{◌≡◌, ◌<◌};
ghost use Rattle.words.specs.Bytes.{words_of};
ghost use Rattle.corrections.specs.Corrections.{revision, value, target};
ghost use Rattle.corrections.specs.Aimed.{GridFits, AllAimed};

use crate::correction::{Grid, revision_at, target_at, value_at};

// The first so many corrections in the words: there may be more behind them, so the count stands beside. That a correction is one of them stays a clause: of
// its number as a type it would have to be told of which list.
#[derive(Clone, Copy)]
pub struct Corrections<'a> {
    pub words: &'a [u8],
    pub grid: Grid,
    pub count: usize,
    pub ghost aimed: { AllAimed (words_of words.now) grid count },
    pub ghost fits: { GridFits grid },
}

impl<'a> Corrections<'a> {
    pub fn revision(&self, k: usize) -> u32
        requires { k < self.now.count }
        ensures { result ≡ revision (words_of self.now.words.now) k }
    {
        revision_at(self.words, k)
    }

    pub fn value(&self, k: usize) -> u32
        requires { k < self.now.count }
        ensures { result ≡ value (words_of self.now.words.now) k }
    {
        value_at(self.words, k)
    }

    // The index of its sample in the sheet.
    pub fn target(&self, k: usize) -> usize
        requires { k < self.now.count }
        ensures { result ≡ target (words_of self.now.words.now) self.now.grid k }
    {
        target_at(self.words, k, self.grid)
    }
}

// A table of distances that is there, with a row for each place. That a place is below `places` stays a clause wherever one is asked for: a type of such
// places would have to tell of which table, and be taken apart at each use.
ghost use Rattle.std.specs.Prelude.{◌≡◌, ◌+◌, ◌*◌, ◌<◌, get_or};
ghost use Rattle.words.specs.Bytes.{words_of, numbers_of};
ghost use Rattle.distances.specs.Distances.{distance_told, HasRoom};

use crate::NONE;

#[derive(Clone, Copy)]
pub struct Distances<'a> {
    pub table: &'a [u8],
    pub places: usize,
    ghost there: { HasRoom places table.now },
}

impl<'a> Distances<'a> {
    // The distance from a place to another, none where no path is.
    #[tactic(auto, using(crate::proofs::Rooms::distance_there))]
    pub fn between(self, from: usize, to: usize) -> Option<u64>
        requires { (from < self.places) × (to < self.places) }
        ensures { result ≡ distance_told (get_or (numbers_of (words_of self.entry.table.now)) (from * self.entry.places + to) 0) }
    {
        let number = words::number_at(self.table, from * self.places + to);
        (number != NONE).then_some(number)
    }
}

// The two words of a road: where they stand, and what they say, in a narrow sheet and in a wide one.
ghost use Rattle.std.specs.Prelude.{◌≡◌, ◌<◌, ◌^◌, cond, length};
ghost use Rattle.words.specs.Word.{bits, payload_of};
ghost use Rattle.words.specs.Bytes.{words_of};
ghost use Rattle.checks.specs.Checked.{word_at};
ghost use Rattle.roads.specs.Roads.{road_at, first_place, second_place, spare_bits, runs_forth, runs_back, bits_fit, way_forth, way_back, place_pair};

use checks::head::head_words;

// The roads of a sheet: its bytes, and how many roads there are.
#[derive(Clone, Copy)]
pub struct SheetRoads<'a> {
    pub sheet: &'a [u8],
    pub roads: usize,
}

// One of the two ways of a road: from which place it leads to which, and whether the road runs so: a flag, as in the definitions.
#[derive(Clone, Copy)]
pub struct Way {
    pub from: usize,
    pub to: usize,
    pub runs: bool,
}

// After the head's words and two words for each road before it.
pub fn road_at(wide: bool, r: usize) -> usize
    requires { road_at wide r < 2 ^ 64 }
    ensures { result ≡ road_at wide r }
{
    head_words(wide) + 2 * r
}

// The first word of a road, in a narrow sheet or in a wide one: which, is a flag, as in the definitions.
#[derive(Clone, Copy)]
pub struct Road {
    pub word: u32,
    pub wide: bool,
}

impl Road {
    pub fn first(self) -> usize
        ensures { result ≡ first_place self.wide self.word }
    {
        self.field::<12, 12, 8, 8>() as usize
    }

    pub fn second(self) -> usize
        ensures { result ≡ second_place self.wide self.word }
    {
        self.field::<0, 12, 0, 8>() as usize
    }

    // Both places as one number.
    pub(crate) fn pair(self) -> usize
        ensures { result ≡ place_pair self.wide self.word }
    {
        self.field::<0, 24, 0, 16>() as usize
    }

    pub fn forth(self) -> Way
        ensures { result ≡ way_forth self.wide self.word }
    {
        Way {
            from: self.first(),
            to: self.second(),
            runs: self.runs_forth(),
        }
    }

    pub fn back(self) -> Way
        ensures { result ≡ way_back self.wide self.word }
    {
        Way {
            from: self.second(),
            to: self.first(),
            runs: self.runs_back(),
        }
    }

    pub(crate) fn bits_fit(self) -> bool
        ensures { result ≡ bits_fit self.wide self.word }
    {
        (self.spare_bits() == 0) & (self.runs_forth() | self.runs_back())
    }

    // A field, by its lowest bit and how many bits it has: in a wide sheet, and in a narrow one.
    fn field<const WIDE_LOW: u32, const WIDE_COUNT: u32, const LOW: u32, const COUNT: u32>(
        self,
    ) -> u32
        requires { WIDE_LOW < 32 × WIDE_COUNT < 32 × LOW < 32 × COUNT < 32 }
        ensures { result ≡ cond self.wide (bits WIDE_LOW WIDE_COUNT self.word) (bits LOW COUNT self.word) }
    {
        if self.wide {
            return words::bits::<WIDE_LOW, WIDE_COUNT>(self.word);
        }
        words::bits::<LOW, COUNT>(self.word)
    }

    fn spare_bits(self) -> u32
        ensures { result ≡ spare_bits self.wide self.word }
    {
        self.field::<24, 2, 16, 10>()
    }

    // The test of each way is one line, so one function for both bits would only be a third.
    fn runs_forth(self) -> bool
        ensures { result ≡ runs_forth self.word }
    {
        words::bits::<26, 1>(self.word) == 0
    }

    fn runs_back(self) -> bool
        ensures { result ≡ runs_back self.word }
    {
        words::bits::<27, 1>(self.word) == 0
    }
}

// The weight in the word after the first, as wide as a distance. That the word is there stays a clause: words are read where their index is known to be one.
pub fn weight(s: &[u8], at: usize) -> u64
    requires { at < length (words_of s.now) }
    ensures { result ≡ payload_of (word_at (words_of s.now) at) }
{
    words::payload(words::word_at(s, at)) as u64
}

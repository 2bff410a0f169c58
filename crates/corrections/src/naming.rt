// The kinds of words that stand in lists of corrections alone.
ghost use Rattle.std.specs.Prelude.{◌≡◌};
ghost use Rattle.corrections.specs.Naming.{naming_number};

// What the word names: a sample of each place, by its revision, signal and time, or the place.
#[derive(Clone, Copy, Debug, PartialEq, Eq)]
pub(crate) enum Naming {
    Sample = 11,
    Place = 12,
}

impl Naming {
    // A method, as that of `Kind`.
    pub(crate) fn number(self) -> u32
        ensures { result ≡ naming_number self }
    {
        self as u32
    }
}

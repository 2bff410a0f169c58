// The lines before the one that is evaluated, by where their signals stand.
ghost use Rattle.std.specs.Prelude.{◌≡◌};
ghost use Rattle.locating.specs.Starts.{StartsLow, start_at};

use lines::extent::Extent;

// At which index of the answer's words the signal of each line begins and which samples it has, with so many words to a sample.
#[derive(Clone, Copy)]
pub struct Earlier<'a> {
    pub starts: &'a [usize],
    pub extents: &'a [Extent],
    pub places: usize,
    pub ghost low: { StartsLow starts.now places },
}

impl Earlier<'_> {
    // The index from which a line is read from a sample of the recording on; the signal of a line that is not there begins at 0, as the
    // definition has it.
    pub(crate) fn read_from(self, line: usize, sample: u32) -> usize
        ensures { result ≡ start_at self.entry.starts.now self.entry.extents.now self.entry.places sample line }
    {
        let start = self.starts.get(line).copied().unwrap_or(0);
        let extent = self.extents.get(line).copied().unwrap_or(Extent::NONE);
        start + sample.saturating_sub(extent.first) as usize * self.places
    }
}

// A sheet that the check has accepted, and its lines, decoded again.
ghost use Rattle.evaluation.specs.Lent.{AcceptingIn};

use lines::extent::Extent;
use lines::line::{Line, decode_line};
use sheet::check::Layout;

// Its bytes, what stands where in it, and the distances of its network.
#[derive(Clone, Copy)]
pub struct Accepted<'a> {
    pub sheet: &'a [u8],
    pub layout: Layout,
    pub distances: &'a [u8],
    pub ghost accepting: { AcceptingIn sheet.now distances.now layout },
}

impl Accepted<'_> {
    ghost use Rattle.evaluation.specs.Line.{LineThereIn, LineReadIn};

    // The line whose word is at an index, after earlier lines of these extents, and the index after its words. The check has read every line
    // already, so this one is not refused.
    pub(crate) fn line_at(self, at: usize, earlier: &[Extent]) -> (Line, usize)
        requires { LineThereIn self earlier.now at }
        ensures { LineReadIn self.entry earlier.now at result }
    {
        let layout = self.layout;
        decode_line(self.sheet, at, layout.signals, layout.samples, earlier).unwrap()
    }
}

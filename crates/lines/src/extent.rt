// The samples for which a line has verdicts, by their numbers in the recording, from the extents of the lines before it.
ghost use Rattle.std.specs.Prelude.{◌≡◌, ◌≤◌, ◌<◌, ◌^◌};
ghost use Rattle.formulas.specs.Formulas.{span, end_of, common, looking, extent_of};
ghost use Rattle.checks.specs.Limits.{most_samples};
ghost use Rattle.lines.specs.Decoding.{extent_said, extent_in, ExtentsWithin, SoundSomewhere};
ghost use Rattle.codes.specs.Decoding.{side_said, operator_said};

use codes::operator::{Direction, Operator};

// So many samples from the first on. That of a line that looks back may begin past the recording, without a sample, so no bound is kept with it. A default is
// what a vector of extents has where it is not filled.
#[derive(Clone, Copy, Default)]
pub struct Extent {
    pub first: u32,
    pub length: u32,
}

impl Extent {
    // Of a line that is not there.
    pub const NONE: Extent = Extent {
        first: 0,
        length: 0,
    };

    // Every sample of the recording.
    fn all(samples: usize) -> Extent
        requires { samples ≤ most_samples }
        ensures { extent_said result ≡ span 0 samples }
    {
        Extent {
            first: 0,
            length: samples as u32,
        }
    }

    // The samples of both.
    fn common(self, other: Extent) -> Extent
        requires own { end_of (extent_said self) ≤ most_samples }
        requires others { end_of (extent_said other) ≤ most_samples }
        ensures { extent_said result ≡ common (extent_said self) (extent_said other) }
    {
        let first = self.first.max(other.first);
        let end = (self.first + self.length).min(other.first + other.length);
        Extent {
            first,
            length: end.saturating_sub(first),
        }
    }

    // The samples that have `upper` more of them in that direction.
    fn looking(self, direction: Direction, upper: u32) -> Extent
        requires { (self.first ≤ most_samples) × (upper < 2 ^ 28) }
        ensures { extent_said result ≡ looking (side_said direction) upper (extent_said self) }
    {
        let length = self.length.saturating_sub(upper);
        match direction {
            Direction::Forward => Extent {
                first: self.first,
                length,
            },
            Direction::Backward => Extent {
                first: self.first + upper,
                length,
            },
        }
    }
}

// The extent of an operand; without a sample where there is no such line, as the definition has it.
fn operand(earlier: &[Extent], i: usize) -> Extent
    ensures { extent_said result ≡ extent_in earlier.now i }
{
    earlier.get(i).copied().unwrap_or(Extent::NONE)
}

// The extent of an operator that was read, with so many samples and earlier lines of these extents.
pub(crate) fn extent_of(operator: Operator, samples: usize, earlier: &[Extent]) -> Extent
    requires within { (samples ≤ most_samples) × ExtentsWithin most_samples earlier.now }
    requires sound { SoundSomewhere (operator_said operator) }
    ensures { extent_said result ≡ extent_of samples (extent_in earlier.now) (operator_said operator) }
{
    match operator {
        Operator::True | Operator::AtLeast { .. } | Operator::AtMost { .. } => Extent::all(samples),
        Operator::Not { left }
        | Operator::Somewhere { left, .. }
        | Operator::Everywhere { left, .. } => operand(earlier, left),
        Operator::And { left, right }
        | Operator::Or { left, right }
        | Operator::Surrounded { left, right, .. } => {
            operand(earlier, left).common(operand(earlier, right))
        }
        Operator::Until {
            direction,
            left,
            right,
            bounds,
        } => {
            let both = operand(earlier, left).common(operand(earlier, right));
            both.looking(direction, bounds.upper)
        }
        Operator::Eventually {
            direction,
            left,
            bounds,
        }
        | Operator::Always {
            direction,
            left,
            bounds,
        } => operand(earlier, left).looking(direction, bounds.upper),
    }
}

// An operator with its operands by where they stand: an operand is the number of an earlier line, and here it is the index from which the
// signal of that line is read, looked up once for all samples. Every operand is read from the line's first sample on; an operator that looks back
// reads from its upper bound earlier on, where once is eventually. What comes of it tells by its type which way the line goes.
#![tactic(auto)]

ghost use Rattle.std.specs.Prelude.{◌≡◌};
ghost use Rattle.locating.specs.Located.{read_on, both_located, until_located, eventually_located, surround_located, range_located, located_of};

pub mod earlier;

use crate::earlier::Earlier;
use codes::operator::{Bounds, Direction, Operator};
use lines::line::Line;
use ranges::Range;
use surrounds::surround::Surround;
use windows::until::Until;

// What is asked about every centre.
#[derive(Clone, Copy)]
pub enum Around {
    Surround(Surround),
    Range(Range),
}

// What is evaluated sample by sample. Operands are the indices from which their signals are read. Since is until looking back, or the dual of and,
// always that of eventually: flags, as in the definitions.
#[derive(Clone, Copy)]
pub enum RowOperator {
    True,
    Atom {
        signal: usize,
        constant: i32,
        atleast: bool,
    },
    Not {
        left: usize,
    },
    Both {
        left: usize,
        right: usize,
        dual: bool,
    },
    Until(Until),
    Eventually {
        left: usize,
        bounds: Bounds,
        dual: bool,
    },
}

// How the verdicts of a line are found: sample by sample, or, over space, in blocks of samples.
#[derive(Clone, Copy)]
pub enum Located {
    Rows(RowOperator),
    Blocks(Around),
}

// The sample from which the operands of a line are read that begins with the first: earlier by the upper bound, where it looks back.
fn read_on(first: u32, direction: Direction, upper: u32) -> u32
    ensures { result ≡ read_on first direction upper }
{
    match direction {
        Direction::Forward => first,
        Direction::Backward => first.saturating_sub(upper),
    }
}

// A line's operands are read among the earlier lines, from its first sample on or, to look back, before it.
impl Earlier<'_> {
    // Codes 4 and 8.
    fn both(self, first: u32, left: usize, right: usize, dual: bool) -> Located
        ensures { result ≡ both_located self.entry.starts.now self.entry.extents.now self.entry.places first left right dual }
    {
        Located::Rows(RowOperator::Both {
            left: self.read_from(left, first),
            right: self.read_from(right, first),
            dual,
        })
    }

    // Codes 5 and 12.
    fn until(
        self,
        first: u32,
        direction: Direction,
        left: usize,
        right: usize,
        bounds: Bounds,
    ) -> Located
        ensures { result ≡ until_located self.entry.starts.now self.entry.extents.now self.entry.places first direction left right bounds }
    {
        let sample = read_on(first, direction, bounds.upper);
        Located::Rows(RowOperator::Until(Until {
            left: self.read_from(left, sample),
            right: self.read_from(right, sample),
            bounds,
            direction,
        }))
    }

    // Codes 9, 10, 13 and 14.
    fn eventually(
        self,
        first: u32,
        direction: Direction,
        left: usize,
        bounds: Bounds,
        dual: bool,
    ) -> Located
        ensures { result ≡ eventually_located self.entry.starts.now self.entry.extents.now self.entry.places first direction left bounds dual }
    {
        let left = self.read_from(left, read_on(first, direction, bounds.upper));
        let bounds = match direction {
            Direction::Forward => bounds,
            Direction::Backward => Bounds {
                lower: 0,
                upper: bounds.upper.saturating_sub(bounds.lower),
            },
        };
        Located::Rows(RowOperator::Eventually { left, bounds, dual })
    }

    // Codes 7 and 15.
    fn surround(
        self,
        first: u32,
        islands: bool,
        left: usize,
        right: usize,
        bounds: Bounds,
    ) -> Located
        ensures { result ≡ surround_located self.entry.starts.now self.entry.extents.now self.entry.places first islands left right bounds }
    {
        Located::Blocks(Around::Surround(Surround {
            left: self.read_from(left, first),
            right: self.read_from(right, first),
            bounds,
            islands,
        }))
    }

    // Codes 6 and 11.
    fn range(self, first: u32, left: usize, bounds: Bounds, dual: bool) -> Located
        ensures { result ≡ range_located self.entry.starts.now self.entry.extents.now self.entry.places first left bounds dual }
    {
        Located::Blocks(Around::Range(Range {
            left: self.read_from(left, first),
            bounds,
            dual,
        }))
    }
}

// Codes 1 and 2: no operand.
fn atom(signal: usize, constant: i32, atleast: bool) -> Located
    ensures { result ≡ Located.Rows (RowOperator.Atom signal constant atleast) }
{
    Located::Rows(RowOperator::Atom {
        signal,
        constant,
        atleast,
    })
}

pub fn locate(line: Line, earlier: Earlier<'_>) -> Located
    ensures { result ≡ located_of earlier.entry.starts.now earlier.entry.extents.now earlier.entry.places line }
{
    let first = line.extent.first;
    match line.operator {
        Operator::True => Located::Rows(RowOperator::True),
        Operator::AtLeast { signal, constant } => atom(signal, constant, true),
        Operator::AtMost { signal, constant } => atom(signal, constant, false),
        Operator::Not { left } => Located::Rows(RowOperator::Not {
            left: earlier.read_from(left, first),
        }),
        Operator::And { left, right } => earlier.both(first, left, right, false),
        Operator::Until {
            direction,
            left,
            right,
            bounds,
        } => earlier.until(first, direction, left, right, bounds),
        Operator::Somewhere { left, bounds } => earlier.range(first, left, bounds, false),
        Operator::Surrounded {
            islands,
            left,
            right,
            bounds,
        } => earlier.surround(first, islands, left, right, bounds),
        Operator::Or { left, right } => earlier.both(first, left, right, true),
        Operator::Eventually {
            direction,
            left,
            bounds,
        } => earlier.eventually(first, direction, left, bounds, false),
        Operator::Always {
            direction,
            left,
            bounds,
        } => earlier.eventually(first, direction, left, bounds, true),
        Operator::Everywhere { left, bounds } => earlier.range(first, left, bounds, true),
    }
}

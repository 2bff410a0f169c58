// The limits of a sheet, those of `specs/Limits.antt`.
ghost use Rattle.std.specs.Prelude.{◌≡◌};
ghost use Rattle.checks.specs.Checked.{between};

// Of any sheet, which only wide ones have, and of a narrow one.
pub const MOST_PLACES: usize = 1024;

pub const MOST_NARROW: usize = 64;

pub const MOST_SIGNALS: usize = 16;

pub const MOST_SAMPLES: usize = 1024;

pub const MOST_LINES: usize = 64;

pub const LEAST_DISTANCES: usize = 4096;

// Of a size: at least 1, and at most its limit.
pub fn within(x: usize, most: usize) -> bool
    ensures { result ≡ between 1 most x }
{
    1 <= x && x <= most
}

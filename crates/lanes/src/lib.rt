// Strips of lanes: several samples lie side by side in a strip, and each place has its strips by name.
#![tactic(auto)]

ghost use Rattle.lanes.specs.Lanes.{row_of};
ghost use Rattle.lanes.specs.Rows.{StripPut};

pub mod ends;
pub mod rows;
pub mod strips;

// Samples side by side.
pub const LANES: usize = 16;

// A number for each sample.
pub type Strip = [u32; LANES];

// What one place has: two operands, what comes of them, and what an iteration works in: the ring about a centre, what the place has, what it had a round
// before, and what it hands to its neighbours. Where slices of places are lent they may be longer than the places of a sheet: there is room for these
// (`Room`), and no exact length is asked.
#[derive(Clone, Copy)]
pub struct Place {
    pub left: Strip,
    pub right: Strip,
    pub out: Strip,
    pub ring: Strip,
    pub x: Strip,
    pub former: Strip,
    pub both: Strip,
}

// A row, by the strip that a place has in it.
#[derive(Clone, Copy)]
pub enum Row {
    Left,
    Right,
    Out,
    Ring,
    X,
    Former,
    Both,
}

impl Place {
    pub const EMPTY: Place = Place {
        left: [0; LANES],
        right: [0; LANES],
        out: [0; LANES],
        ring: [0; LANES],
        x: [0; LANES],
        former: [0; LANES],
        both: [0; LANES],
    };

    // A strip comes into a row, in place of the one that the place had there.
    pub fn put(&mut self, row: Row, strip: Strip)
        ensures { StripPut (row_of row) strip self.entry.now self.exit.now }
    {
        match row {
            Row::Left => self.left = strip,
            Row::Right => self.right = strip,
            Row::Out => self.out = strip,
            Row::Ring => self.ring = strip,
            Row::X => self.x = strip,
            Row::Former => self.former = strip,
            Row::Both => self.both = strip,
        }
    }
}

// The operator of a line: its code, operands and parameters, read from the line word and the words after it.
ghost use Rattle.std.specs.Prelude.{◌≡◌, ◌&&◌, ◌+◌, ◌≤◌, ◌<◌, ◌^◌, ltb, leb, length};
ghost use Rattle.words.specs.Bytes.{words_of};
ghost use Rattle.checks.specs.Checked.{accepted, require};
ghost use Rattle.checks.specs.Said.{said};
ghost use Rattle.codes.specs.Operators.{constant_at, bounds_at, operator_at};
ghost use Rattle.codes.specs.Decoding.{side_said, operator_said, bounds_read, operator_and_next, fields_of, side_of, operator_of, plain_read, atom_read, bounded_read};

use checks::fault::{Fault, Refusal};
use checks::kind::Kind;
use checks::word::spare_bit_zero;

#[derive(Clone, Copy)]
pub struct Bounds {
    pub lower: u32,
    pub upper: u32,
}

// Where an operator over time looks from a sample.
#[derive(Clone, Copy)]
pub enum Direction {
    Forward,
    Backward,
}

// In the order of the codes 0 to 11; 12 to 14 are until, eventually and always backward, 15 is surrounded where islands count. `signal` is the number
// of a signal; `left` and `right` are numbers of earlier lines. Whether islands count is a flag, as in the definitions.
#[derive(Clone, Copy)]
pub enum Operator {
    True,
    AtLeast {
        signal: usize,
        constant: i32,
    },
    AtMost {
        signal: usize,
        constant: i32,
    },
    Not {
        left: usize,
    },
    And {
        left: usize,
        right: usize,
    },
    Until {
        direction: Direction,
        left: usize,
        right: usize,
        bounds: Bounds,
    },
    Somewhere {
        left: usize,
        bounds: Bounds,
    },
    Surrounded {
        islands: bool,
        left: usize,
        right: usize,
        bounds: Bounds,
    },
    Or {
        left: usize,
        right: usize,
    },
    Eventually {
        direction: Direction,
        left: usize,
        bounds: Bounds,
    },
    Always {
        direction: Direction,
        left: usize,
        bounds: Bounds,
    },
    Everywhere {
        left: usize,
        bounds: Bounds,
    },
}

// The fields of a line word. Made by a function and no `From`: not every word is a line word.
#[derive(Clone, Copy)]
struct Fields {
    pub code: u32,
    pub left: usize,
    pub right: usize,
}

#[tactic(auto, unfolding(crate::specs::Decoding::fields_of))]
fn fields_of(w: u32) -> Fields
    ensures { result ≡ fields_of w }
{
    Fields {
        code: words::bits::<20, 8>(w),
        left: words::bits::<10, 10>(w) as usize,
        right: words::bits::<0, 10>(w) as usize,
    }
}

// The constant of codes 1 and 2.
#[tactic(auto, unfolding(crate::specs::Operators::constant_at))]
fn read_constant(s: &[u8], at: usize) -> Result<i32, Refusal>
    ensures { said (λ c. c) result ≡ constant_at (words_of s.now) at }
{
    if !Kind::Constant.is_at(s, at) || !spare_bit_zero(s, at) {
        return Err(Fault::LineParameter.at(at));
    }
    Ok(words::sample(words::word_or_zero(s, at)))
}

// Two bounds, the lower at most the upper, which else is told at its place.
fn ordered_bounds(lower: u32, upper: u32, place: usize) -> Result<Bounds, Refusal>
    ensures { said bounds_read result ≡ require (leb lower upper) 12 place (accepted (lower, upper)) }
{
    if upper < lower {
        return Err(Fault::LineParameter.at(place));
    }
    Ok(Bounds { lower, upper })
}

// The lower and the upper bound of codes 5 to 7 and 9 to 15.
#[tactic(auto, using(words::proofs::Words::words_count), unfolding(crate::specs::Operators::bounds_at))]
fn read_bounds(s: &[u8], at: usize) -> Result<Bounds, Refusal>
    requires { at ≤ length (words_of s.now) }
    ensures { said bounds_read result ≡ bounds_at (words_of s.now) at }
{
    if !Kind::Lower.is_at(s, at) {
        return Err(Fault::LineParameter.at(at));
    }
    let next = at + 1;
    if !Kind::Upper.is_at(s, next) {
        return Err(Fault::LineParameter.at(next));
    }
    let lower = words::payload(words::word_or_zero(s, at));
    let upper = words::payload(words::word_or_zero(s, next));
    ordered_bounds(lower, upper, next)
}

// Where a code over time looks: 12 to 14 look back.
fn direction_of(code: u32) -> Direction
    ensures { side_said result ≡ side_of code }
{
    match code {
        12..=14 => Direction::Backward,
        _ => Direction::Forward,
    }
}

// The table of codes, by the number that a line has: here, in `direction_of` and in `decode_operator` numbers become operators, and nowhere else. A parameter
// that a code does not have counts for nothing, so any may be handed over for it; a code above the last says nothing: it is true, as code 0.
#[tactic(auto, unfolding(crate::specs::Codes::codes))]
fn operator_of(fields: Fields, constant: i32, bounds: Bounds) -> Operator
    ensures { operator_said result ≡ operator_of fields constant bounds.lower bounds.upper }
{
    let Fields { code, left, right } = fields;
    let signal = left;
    match code {
        1 => Operator::AtLeast { signal, constant },
        2 => Operator::AtMost { signal, constant },
        3 => Operator::Not { left },
        4 => Operator::And { left, right },
        5 | 12 => Operator::Until {
            direction: direction_of(code),
            left,
            right,
            bounds,
        },
        6 => Operator::Somewhere { left, bounds },
        7 | 15 => Operator::Surrounded {
            islands: code == 15,
            left,
            right,
            bounds,
        },
        8 => Operator::Or { left, right },
        9 | 13 => Operator::Eventually {
            direction: direction_of(code),
            left,
            bounds,
        },
        10 | 14 => Operator::Always {
            direction: direction_of(code),
            left,
            bounds,
        },
        11 => Operator::Everywhere { left, bounds },
        _ => Operator::True,
    }
}

// Whether each field is below its limit. An unused field has the limit 1: it is zero. The limits differ from code to code, and stay parameters.
fn fields_below(fields: Fields, lefts: usize, rights: usize) -> bool
    ensures { result ≡ ltb fields.left lefts && ltb fields.right rights }
{
    fields.left < lefts && fields.right < rights
}

// A code with no parameter. The three kinds of lines read other parameters, and each meets a definition of its own. That the line word is there stays a clause
// of theirs, and of those that call them: the words after it may be absent, so a type of an index at which a word is would be left at the next one.
#[tactic(auto, unfolding(crate::specs::Decoding::plain_read))]
fn decode_plain(
    fields: Fields,
    lefts: usize,
    rights: usize,
    at: usize,
) -> Result<(Operator, usize), Refusal>
    requires { at + 1 < 2 ^ 64 }
    ensures { said operator_and_next result ≡ plain_read fields lefts rights at }
{
    if !fields_below(fields, lefts, rights) {
        return Err(Fault::LineFields.at(at));
    }
    let operator = operator_of(fields, 0, Bounds { lower: 0, upper: 0 });
    Ok((operator, at + 1))
}

// A code with a constant.
#[tactic(auto, using(words::proofs::Words::words_count), unfolding(crate::specs::Decoding::atom_read))]
fn decode_atom(
    s: &[u8],
    fields: Fields,
    signals: usize,
    at: usize,
) -> Result<(Operator, usize), Refusal>
    requires { at < length (words_of s.now) }
    ensures { said operator_and_next result ≡ atom_read (words_of s.now) fields signals at }
{
    if !fields_below(fields, signals, 1) {
        return Err(Fault::LineFields.at(at));
    }
    let constant = read_constant(s, at + 1)?;
    let operator = operator_of(fields, constant, Bounds { lower: 0, upper: 0 });
    Ok((operator, at + 2))
}

// A code with bounds.
#[tactic(auto, using(words::proofs::Words::words_count), unfolding(crate::specs::Decoding::bounded_read))]
fn decode_bounded(
    s: &[u8],
    fields: Fields,
    lefts: usize,
    rights: usize,
    at: usize,
) -> Result<(Operator, usize), Refusal>
    requires { at < length (words_of s.now) }
    ensures { said operator_and_next result ≡ bounded_read (words_of s.now) fields lefts rights at }
{
    if !fields_below(fields, lefts, rights) {
        return Err(Fault::LineFields.at(at));
    }
    let bounds = read_bounds(s, at + 1)?;
    let operator = operator_of(fields, 0, bounds);
    Ok((operator, at + 3))
}

// The operator at a line word, with so many signals and earlier lines, and the index after its words.
#[tactic(auto, using(words::proofs::Words::words_count, crate::proofs::Operators::code_laws))]
pub fn decode_operator(
    s: &[u8],
    at: usize,
    signals: usize,
    lines: usize,
) -> Result<(Operator, usize), Refusal>
    requires { at < length (words_of s.now) }
    ensures { said operator_and_next result ≡ operator_at (words_of s.now) signals lines at }
{
    let fields = fields_of(words::word_or_zero(s, at));
    match fields.code {
        0 => decode_plain(fields, 1, 1, at),
        1..=2 => decode_atom(s, fields, signals, at),
        3 => decode_plain(fields, lines, 1, at),
        4 | 8 => decode_plain(fields, lines, lines, at),
        5 | 7 | 12 | 15 => decode_bounded(s, fields, lines, lines, at),
        6 | 9..=11 | 13..=14 => decode_bounded(s, fields, lines, 1, at),
        _ => Err(Fault::LineFields.at(at)),
    }
}

// Codes 0, 3, 4 and 8: true, not, and, or.
ghost use Rattle.std.specs.Prelude.{◌+◌, ◌*◌, ◌≤◌, length};
ghost use Rattle.words.specs.Bytes.{words_of};
ghost use Rattle.values.specs.Chain.{highest};
ghost use Rattle.values.specs.Signals.{turned};
ghost use Rattle.operators.specs.Rows.{RowLeft, and_in, operand_signal, AndReady, OperandTo};

use crate::signals::{Operand, turn};

// The same number at every place.
pub fn fill_row(places: usize, number: u32, row: &mut [u32])
    requires { places ≤ length row.old }
    ensures { RowLeft places (λ _. number) row.old row.new }
{
    row[..places].fill(number);
}

// Code 0.
#[tactic(auto, using(crate::proofs::RowLaws::left_same))]
pub fn true_row(places: usize, row: &mut [u32])
    requires { places ≤ length row.old }
    ensures { RowLeft places (λ _. highest) row.old row.new }
{
    fill_row(places, values::top(), row);
}

// A signal, or its opposite: code 3.
pub fn turned_row(operand: Operand<'_>, negated: bool, t: usize, row: &mut [u32])
    requires { OperandTo operand t × (operand.places ≤ length row.old) }
    ensures { RowLeft operand.entry.places (turned negated (operand_signal operand.entry) t) row.old row.new }
{
    for (l, x) in row[..operand.places].iter_mut().enumerate() {
        *x = operand.turned_at(t, l, negated);
    }
}

// Code 4, and its dual, code 8. Two signals of the same words and places: only where they begin differs.
#[tactic(auto, using(crate::proofs::Bounds::in_row, crate::proofs::Bounds::turned_bound, crate::proofs::Bounds::meet_bound, crate::proofs::RowLaws::turned_number, crate::proofs::RowLaws::one_passed))]
pub fn and_row(
    words: &[u8],
    left: usize,
    right: usize,
    places: usize,
    dual: bool,
    t: usize,
    row: &mut [u32],
)
    requires { AndReady (words_of words.now) places left right t row.old }
    ensures { RowLeft places (and_in (words_of words.now) places dual left right t) row.old row.new }
{
    let left = Operand {
        words,
        start: left,
        places,
    };
    let right = Operand {
        words,
        start: right,
        places,
    };
    for (l, x) in row[..places].iter_mut().enumerate() {
        let both = values::lesser(left.turned_at(t, l, dual), right.turned_at(t, l, dual));
        *x = turn(both, dual);
    }
}

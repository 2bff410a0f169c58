// The values of a line for all places at one sample, for every operator but those over space.
ghost use Rattle.std.specs.Prelude.{◌≡◌, ◌≤◌, ◌<◌, length};
ghost use Rattle.words.specs.Bytes.{words_of};
ghost use Rattle.formulas.specs.Formulas.{InBits};
ghost use Rattle.operators.specs.Rows.{RowLeft, atom_value};
ghost use Rattle.verdicts.specs.Rows.{sheet_recording, Recorded, value_in, RowReadyIn};

use crate::row::RowLine;
use locating::RowOperator;
use operators::atoms::atom_row;
use operators::connectives::{and_row, true_row, turned_row};
use operators::signals::Operand;
use sheet::check::Layout;
use windows::eventually::eventually_row;
use windows::until::until_row;

// Codes 1 and 2: the evaluator of atoms is handed the samples' part of the sheet, from the roads to the lines.
#[tactic(auto, using(words::proofs::Words::words_count, crate::proofs::Points::length_before))]
fn recorded_row(
    sheet: &[u8],
    layout: Layout,
    signal: usize,
    constant: i32,
    atleast: bool,
    t: usize,
    row: &mut [u32],
)
    requires { Recorded (words_of sheet.now) layout × (signal < layout.signals) × (t < layout.samples) × InBits 27 constant × (layout.places ≤ length row.old) }
    ensures { RowLeft layout.places (λ l. atom_value atleast (sheet_recording (words_of sheet.now) layout signal t l) constant) row.old row.new }
{
    let begin = layout.recording * 4;
    let end = (layout.recording + layout.signals * layout.places * layout.samples) * 4;
    atom_row(
        &sheet[begin..end],
        layout.places,
        layout.signals,
        signal,
        constant,
        atleast,
        t,
        row,
    );
}

// The operand whose signal begins at an index of the words before a line.
fn operand(line: RowLine<'_>, start: usize) -> Operand<'_>
    ensures { result ≡ record { words = line.entry.before; start = start; places = line.entry.layout.places } }
{
    Operand {
        words: line.before,
        start,
        places: line.layout.places,
    }
}

// The row holds the values at the sample before, if there is one.
#[tactic(auto, using(crate::proofs::Points::constant_kept), unfolding(crate::specs::Rows::row_value))]
pub(crate) fn value_row(line: RowLine, t: usize, row: &mut [u32])
    requires { RowReadyIn line t row.old }
    ensures { RowLeft line.entry.layout.places (value_in line.entry t) row.old row.new }
{
    let n = line.layout.places;
    let words = line.before;
    match line.operator {
        RowOperator::True => true_row(n, row),
        RowOperator::Atom {
            signal,
            constant,
            atleast,
        } => recorded_row(line.sheet, line.layout, signal, constant, atleast, t, row),
        RowOperator::Not { left } => turned_row(operand(line, left), true, t, row),
        RowOperator::Both { left, right, dual } => and_row(words, left, right, n, dual, t, row),
        RowOperator::Until(until) => until_row(words, until, n, t, row),
        RowOperator::Eventually { left, bounds, dual } => {
            eventually_row(operand(line, left), bounds, dual, t, row)
        }
    }
}

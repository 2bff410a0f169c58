// Signals where they stand in the words of an answer: a value, turned or not.
ghost use Rattle.std.specs.Prelude.{◌≡◌, ◌≤◌};
ghost use Rattle.values.specs.Chain.{highest};
ghost use Rattle.values.specs.Signals.{turned};
ghost use Rattle.operators.specs.Rows.{turned_to, operand_signal, OperandAt};

// A value, or its opposite. `negated`, and `dual` in what is built on it, stays a flag, as in the definitions: one loop serves an operator and its
// dual.
pub fn turn(c: u32, negated: bool) -> u32
    requires { c ≤ highest }
    ensures { result ≡ turned_to negated c }
{
    if negated { values::opposite(c) } else { c }
}

// An operand of an operator: the signal of an earlier line, which begins at index `start` of the words and has `places` words to a sample.
#[derive(Clone, Copy)]
pub struct Operand<'a> {
    pub words: &'a [u8],
    pub start: usize,
    pub places: usize,
}

impl Operand<'_> {
    // Its value.
    #[inline(always)]
    pub fn at(self, t: usize, l: usize) -> u32
        requires { OperandAt self t l }
        ensures { result ≡ operand_signal self.entry t l }
    {
        values::signal_at(self.words, self.start, self.places, t, l)
    }

    // Its value, or the opposite.
    #[inline(always)]
    #[tactic(auto, using(values::proofs::ChainWords::signal_bound, crate::proofs::RowLaws::turned_number))]
    pub fn turned_at(self, t: usize, l: usize, negated: bool) -> u32
        requires { OperandAt self t l }
        ensures { result ≡ turned negated (operand_signal self.entry) t l }
    {
        turn(self.at(t, l), negated)
    }
}

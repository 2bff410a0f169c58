// Codes 1 and 2: a signal of the recording is at least a constant, or at most.
ghost use Rattle.std.specs.Prelude.{◌≡◌, ◌<◌, length, get_or};
ghost use Rattle.words.specs.Word.{sample_of};
ghost use Rattle.words.specs.Bytes.{words_of};
ghost use Rattle.formulas.specs.Formulas.{InBits};
ghost use Rattle.operators.specs.Rows.{RowLeft, atom_value, atom_in, AtomReady};

// The value of sample i, given the part of a sheet that begins with its samples. `atleast` stays a flag, as the definition has it.
fn atom_at(samples: &[u8], i: usize, constant: i32, atleast: bool) -> u32
    requires { (i < length (words_of samples.now)) × InBits 27 constant }
    ensures { result ≡ atom_value atleast (sample_of (get_or (words_of samples.now) i 0)) constant }
{
    let sample = words::sample(words::word_at(samples, i));
    if atleast {
        values::difference(sample, constant)
    } else {
        values::difference(constant, sample)
    }
}

// A sheet has time outermost, then place, then signal. What an atom asks stays three parameters: as one value they would only be taken apart here.
#[tactic(auto, using(words::proofs::Rows::in_table, words::proofs::Words::words_count, crate::proofs::Bounds::in_row, crate::proofs::RowLaws::in_front))]
pub fn atom_row(
    samples: &[u8],
    places: usize,
    signals: usize,
    signal: usize,
    constant: i32,
    atleast: bool,
    t: usize,
    row: &mut [u32],
)
    requires { AtomReady (words_of samples.now) places signals signal constant t row.old }
    ensures { RowLeft places (atom_in (words_of samples.now) places signals signal atleast constant t) row.old row.new }
{
    for (l, x) in row[..places].iter_mut().enumerate() {
        *x = atom_at(
            samples,
            (t * places + l) * signals + signal,
            constant,
            atleast,
        );
    }
}

// A verdict with its margin: as one number in the order of both, and as the word of an answer; and signals of such words.
#![tactic(auto)]

ghost use Rattle.std.specs.Prelude.{◌≡◌, ◌+◌, ◌*◌, ◌≤◌, ◌<◌, ◌^◌, ◌-ℤ◌, nat_abs, length};
ghost use Rattle.words.specs.Word.{kind_of};
ghost use Rattle.words.specs.Bytes.{words_of};
ghost use Rattle.logic.specs.Margin.{finite, negate};
ghost use Rattle.formulas.specs.Formulas.{InBits};
ghost use Rattle.values.specs.Chain.{margin_code, margin_at, highest, chain_of, chain_verdict, chain_lattice, chain_opposite, chain_difference, chain_word, word_chain};
ghost use Rattle.values.specs.Kinds.{verdict_kind};
ghost use Rattle.values.specs.Signals.{signal_in};

// A margin by its place in the order of margins: 0 is minus infinity, 2^27 + z the number z, 2^28 plus infinity.
#[derive(Clone, Copy)]
pub struct Margin {
    pub code: u32,
    pub ghost in_order: { code ≤ 2 ^ 28 },
}

impl Margin {
    pub const PLUS_INFINITY: Margin = Margin { code: 268435456 };

    pub const MINUS_INFINITY: Margin = Margin { code: 0 };

    #[tactic(auto, using(crate::proofs::Codes::code_bound, crate::proofs::Machine::plus_code))]
    pub fn finite(x: i32) -> Margin
        requires { nat_abs x < 2 ^ 27 }
        ensures { result.code ≡ margin_code (finite x) }
    {
        Margin {
            code: (x + 134217728) as u32,
        }
    }

    #[tactic(auto, using(crate::proofs::Codes::code_opposite))]
    pub fn negate(self) -> Margin
        ensures { result.code ≡ margin_code (negate (margin_at self.code)) }
    {
        Margin {
            code: 268435456 - self.code,
        }
    }
}

// A verdict with its margin; the verdict is a flag, as in the definition.
#[tactic(auto, using(crate::proofs::Codes::code_at, crate::proofs::Machine::byte_count))]
pub fn chain(yes: bool, margin: Margin) -> u32
    ensures { result ≡ chain_of yes (margin_at margin.code) }
{
    2 * margin.code + yes as u32
}

// Yes at plus infinity: the least of nothing, and what is true.
#[tactic(auto, unfolding(crate::specs::Chain::margin_at))]
pub fn top() -> u32
    ensures { result ≡ highest }
{
    chain(true, Margin::PLUS_INFINITY)
}

// No at minus infinity: the greatest of nothing.
#[tactic(auto, unfolding(crate::specs::Chain::margin_at))]
pub fn bottom() -> u32
    ensures { result ≡ 0 }
{
    chain(false, Margin::MINUS_INFINITY)
}

// The verdict.
pub fn yes(c: u32) -> bool
    ensures { result ≡ chain_verdict c }
{
    268435456 < c
}

// What an atom is worth, by the difference of a sample and a constant. Their 27 bits stay a clause, here and where atoms are read: a type of such numbers would
// stand in every operator that has a constant, for this one subtraction.
#[tactic(auto, using(logic::proofs::Small::difference_small, crate::proofs::Machine::small_fits, crate::proofs::Codes::code_bound))]
pub fn difference(x: i32, c: i32) -> u32
    requires { InBits 27 x × InBits 27 c }
    ensures { result ≡ chain_difference (x -ℤ c) }
{
    let z = x - c;
    chain(0 <= z, Margin::finite(z))
}

// Not. That a number is one of the order stays a clause (`c ≤ highest`), here, where numbers are turned and where they are written: of a type every write of
// a row would prove it, and no reader would see less.
#[tactic(auto, using(crate::proofs::Codes::code_opposite, crate::proofs::Codes::code_at, crate::proofs::Machine::byte_count))]
pub fn opposite(c: u32) -> u32
    requires { c ≤ highest }
    ensures { result ≡ chain_opposite c }
{
    let margin = Margin { code: c / 2 };
    chain(c % 2 == 0, margin.negate())
}

// The meet of the order and its join, by the names that contracts give them.
pub fn lesser(a: u32, b: u32) -> u32
    ensures { result ≡ chain_lattice.meet a b }
{
    a.min(b)
}

pub fn greater(a: u32, b: u32) -> u32
    ensures { result ≡ chain_lattice.join a b }
{
    a.max(b)
}

// The kinds of the words that say a verdict, by their numbers: at a finite margin or at an infinity.
#[derive(Clone, Copy)]
pub enum VerdictKind {
    Yes = 9,
    No = 10,
    InfiniteYes = 11,
    InfiniteNo = 12,
}

impl VerdictKind {
    // Of a word, if it says a verdict: from the number that its kind is. An Option, and no `TryFrom`, as the definition has it.
    #[tactic(auto, unfolding(crate::specs::Kinds::verdict_kind))]
    pub fn of(w: u32) -> Option<VerdictKind>
        ensures { result ≡ verdict_kind (kind_of w) }
    {
        match words::kind(w) {
            9 => Some(VerdictKind::Yes),
            10 => Some(VerdictKind::No),
            11 => Some(VerdictKind::InfiniteYes),
            12 => Some(VerdictKind::InfiniteNo),
            _ => None,
        }
    }
}

// The word of an answer. All three words are computed first: what is left is a choice of numbers, and a loop over it vectorises.
#[tactic(auto, using(crate::proofs::ChainWords::word_between, crate::proofs::Machine::byte_count), unfolding(crate::specs::Chain::chain_word))]
pub fn word_of(c: u32) -> u32
    requires { c ≤ highest }
    ensures { result ≡ chain_word c }
{
    let kind = if yes(c) {
        VerdictKind::Yes
    } else {
        VerdictKind::No
    };
    let word = words::word(kind as u32, (c / 2 + 134217728) % 268435456);
    let infinite_no = words::word(VerdictKind::InfiniteNo as u32, 0);
    let infinite_yes = words::word(VerdictKind::InfiniteYes as u32, 0);
    if c == bottom() {
        infinite_no
    } else if c == top() {
        infinite_yes
    } else {
        word
    }
}

// The number of a word, in the same manner: by the number of its kind, since a `match` on the kind would be a branch. Here and above the sum loses what is
// over 28 bits: two's complement, and no field of a word.
#[tactic(auto, using(crate::proofs::Machine::byte_count), unfolding(crate::specs::Chain::word_chain))]
pub fn of_word(w: u32) -> u32
    ensures { result ≡ word_chain w }
{
    let kind = words::kind(w);
    let code = (words::payload(w) + 134217728) % 268435456;
    let number = 2 * code + (kind == VerdictKind::Yes as u32) as u32;
    if kind == VerdictKind::InfiniteNo as u32 {
        bottom()
    } else if kind == VerdictKind::InfiniteYes as u32 {
        top()
    } else {
        number
    }
}

// The number of a signal at a sample and a place. The signal begins at index `start` of the words and has `places` words to a sample; the operators have
// the three as one value, an operand.
#[tactic(auto, using(words::proofs::Words::words_count), unfolding(crate::specs::Signals::signal_in))]
pub fn signal_at(words: &[u8], start: usize, places: usize, t: usize, l: usize) -> u32
    requires { start + (t * places + l) < length (words_of words.now) }
    ensures { result ≡ signal_in (words_of words.now) start places t l }
{
    of_word(words::word_at(words, start + (t * places + l)))
}

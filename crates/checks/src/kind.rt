// The kinds of words, by the numbers in their bits 31..28.
ghost use Rattle.std.specs.Prelude.{◌≡◌, ◌<◌, ◌^◌};
ghost use Rattle.words.specs.Word.{word_of};
ghost use Rattle.words.specs.Bytes.{words_of};
ghost use Rattle.checks.specs.Checked.{is_kind};
ghost use Rattle.checks.specs.Kinds.{kind_number};

use crate::word::is_kind;

// Of the words of sheets, and of those of answers that say no verdict.
#[derive(Clone, Copy, Debug, PartialEq, Eq)]
pub enum Kind {
    Head = 1,
    Road = 2,
    Weight = 3,
    Sample = 4,
    Line = 5,
    Lower = 6,
    Upper = 7,
    Constant = 8,
    Wide = 10,
    Answer = 13,
    AnswerLine = 14,
    End = 15,
}

impl Kind {
    // A method, and no `From` beside it: its name is promised (docs/PROMISES.md), as that of `Fault::number`.
    pub fn number(self) -> u32
        ensures { result ≡ kind_number self }
    {
        self as u32
    }

    // The word of this kind with a payload.
    pub fn word(self, payload: u32) -> u32
        requires { payload < 2 ^ 28 }
        ensures { result ≡ word_of (kind_number self) payload }
    {
        words::word(self.number(), payload)
    }

    // Whether the word at an index is there and of this kind.
    #[tactic(auto, using(crate::proofs::SomeKind::some_kind))]
    pub fn is_at(self, s: &[u8], at: usize) -> bool
        ensures { result ≡ is_kind (kind_number self) (words_of s.now) at }
    {
        is_kind(s, at, self.number())
    }
}

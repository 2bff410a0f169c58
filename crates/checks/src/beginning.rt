// The words with which a sheet or an answer begins are written: one, or two of a wide one.
ghost use Rattle.std.specs.Prelude.{◌≡◌, ◌+◌, ◌*◌, ◌^◌, ◌<◌, ◌≤◌, length};
ghost use Rattle.words.specs.Bytes.{words_of, after_words};
ghost use Rattle.words.specs.Rows.{put};
ghost use Rattle.checks.specs.Heads.{head_words, head_for, HeadFits};

use crate::kind::Kind;

// What they say: the head's kind, the places, what the head counts in bits 19..12 (the signals of a sheet, the lines of an answer) and the samples.
// The kind is a number: a type of kinds would leave out heads that `put_head` writes.
#[derive(Clone, Copy)]
pub struct Beginning {
    pub kind: u32,
    pub places: usize,
    pub count: usize,
    pub samples: usize,
}

// The count from bit 12 on, and the samples in bits 11..0.
fn fields(count: u32, samples: u32) -> u32
    requires { count < 2 ^ 16 × samples < 2 ^ 12 }
    ensures { result ≡ count * 2 ^ 12 + samples }
{
    (count << 12) | samples
}

#[tactic(auto, using(words::proofs::Words::words_count, crate::proofs::Heads::few_head_words))]
pub fn put_head(s: &mut [u8], head: Beginning, wide: bool)
    requires { HeadFits head.kind wide head.places head.count head.samples × (head_words wide ≤ length (words_of s.old)) }
    ensures stored { words_of s.new ≡ put (words_of s.old) 0 (head_for head.kind wide head.places head.count head.samples) }
    ensures tail { after_words s.new ≡ after_words s.old }
{
    let places = head.places as u32;
    let fields = fields(head.count as u32, head.samples as u32);
    if wide {
        words::put_word(s, 0, Kind::Wide.word(places));
        words::put_word(s, 1, words::word(head.kind, fields));
        return;
    }
    words::put_word(s, 0, words::word(head.kind, (places << 20) | fields));
}

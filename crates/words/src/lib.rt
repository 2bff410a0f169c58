// Words of 32 bits and numbers of 64 bits in bytes, lowest byte first, and the fields of a word.
#![tactic(auto)]

ghost use Rattle.std.specs.Prelude.{◌≡◌, [], ◌∷◌, ◌+◌, ◌*◌, ◌%◌, ◌<◌, ◌≤◌, ◌^◌, length, get_or, take, set, replicate};
ghost use Rattle.words.specs.Word.{bits, kind_of, payload_of, sample_of, signed, word_of};
ghost use Rattle.words.specs.Bytes.{words_of, numbers_of, bytes_of, halves_of, after_words};
ghost use Rattle.words.specs.Rows.{put, padded};

// Bits 31..28.
pub fn kind(w: u32) -> u32
    ensures { result ≡ kind_of w }
{
    w >> 28
}

// Bits 27..0.
pub fn payload(w: u32) -> u32
    ensures { result ≡ payload_of w }
{
    bits::<0, 28>(w)
}

// The word of a kind and a payload. The kind is a number, since the enums of kinds lie in crates above: `Kind` of checks, `VerdictKind` of values, `Naming` of
// corrections.
pub fn word(kind: u32, payload: u32) -> u32
    requires { kind < 16 × payload < 2 ^ 28 }
    ensures { result ≡ word_of kind payload }
{
    (kind << 28) | payload
}

// The lowest WIDTH bits of a word as a number in two's complement.
#[tactic(auto, using(crate::proofs::TwosComplement::pulled_back))]
pub fn signed<const WIDTH: u32>(w: u32) -> i32
    requires { 0 < WIDTH × WIDTH ≤ 32 }
    ensures { result ≡ signed WIDTH (w % 2 ^ WIDTH) }
{
    (w << (32 - WIDTH)).cast_signed() >> (32 - WIDTH)
}

// Bits 26..0 as a number in two's complement.
pub fn sample(w: u32) -> i32
    ensures { result ≡ sample_of w }
{
    signed::<27>(w)
}

// How many whole words there are.
#[tactic(auto, using(crate::proofs::Words::length_words))]
pub fn word_count(s: &[u8]) -> usize
    ensures { result ≡ length (words_of s.now) }
{
    s.len() / 4
}

#[tactic(auto, using(crate::proofs::Words::words_count, crate::proofs::Words::get_or_words))]
pub fn word_at(s: &[u8], i: usize) -> u32
    requires { i < length (words_of s.now) }
    ensures { result ≡ get_or (words_of s.now) i 0 }
{
    let at = i * 4;
    u32::from_le_bytes([s[at], s[at + 1], s[at + 2], s[at + 3]])
}

// The word at an index, or 0 past the end: a word of kind 0 is asked for nowhere, so one test finds a word that is absent and one of another kind.
pub fn word_or_zero(s: &[u8], i: usize) -> u32
    ensures { result ≡ get_or (words_of s.now) i 0 }
{
    if i < word_count(s) { word_at(s, i) } else { 0 }
}

// The words do not tell of bytes past the last whole word, so the bytes are promised too.
#[tactic(auto, using(crate::proofs::Words::words_count, std::proofs::lemmas::Grind::common_steps, crate::proofs::Parts::put_back_as, crate::proofs::Puts::word_back), unfolding(crate::specs::Bytes::bytes_of))]
pub fn put_word(s: &mut [u8], i: usize, w: u32)
    requires { i < length (words_of s.old) }
    ensures stored { words_of s.new ≡ set (words_of s.old) i w }
    ensures bytes { s.new ≡ put s.old (i * 4) (bytes_of (w ∷ [])) }
{
    let at = i * 4;
    s[at..at + 4].copy_from_slice(&w.to_le_bytes());
}

// So many bits from a lowest one up, as a number.
pub fn bits<const LOW: u32, const COUNT: u32>(w: u32) -> u32
    requires { LOW < 32 × COUNT < 32 }
    ensures { result ≡ bits LOW COUNT w }
{
    (w >> LOW) % (1 << COUNT)
}

// Numbers, beside the three functions of words above. By a size the two would share `s.len() / N` and `i * N` alone: std's conversions are of an array of 4 and
// of one of 8, and what is promised of a number is of a pair of words.

// How many whole numbers there are.
#[tactic(auto, using(crate::proofs::Numbers::length_numbers))]
pub fn number_count(s: &[u8]) -> usize
    ensures { result ≡ length (numbers_of (words_of s.now)) }
{
    s.len() / 8
}

#[tactic(auto, using(crate::proofs::Words::words_count, crate::proofs::Numbers::numbers_count, crate::proofs::Numbers::get_or_bytes))]
pub fn number_at(s: &[u8], i: usize) -> u64
    requires { i < length (numbers_of (words_of s.now)) }
    ensures { result ≡ get_or (numbers_of (words_of s.now)) i 0 }
{
    let at = i * 8;
    u64::from_le_bytes([
        s[at],
        s[at + 1],
        s[at + 2],
        s[at + 3],
        s[at + 4],
        s[at + 5],
        s[at + 6],
        s[at + 7],
    ])
}

#[tactic(auto, using(crate::proofs::Words::words_count, crate::proofs::Numbers::numbers_count, crate::proofs::Parts::put_back_as, crate::proofs::Puts::number_back, crate::proofs::RoundTrips::number_bytes))]
pub fn put_number(s: &mut [u8], i: usize, x: u64)
    requires { i < length (numbers_of (words_of s.old)) }
    ensures stored { numbers_of (words_of s.new) ≡ set (numbers_of (words_of s.old)) i x }
    ensures bytes { s.new ≡ put s.old (i * 8) (bytes_of (halves_of (x ∷ []))) }
{
    let at = i * 8;
    s[at..at + 8].copy_from_slice(&x.to_le_bytes());
}

// Stores numbers one after the other in bytes that have room for just them.
#[tactic(auto, using(crate::proofs::Numbers::length_numbers, std::proofs::lemmas::Grind::common_steps))]
pub fn put_numbers(s: &mut [u8], numbers: &[u64])
    requires { length s.old ≡ length numbers.now * 8 }
    ensures { s.new ≡ bytes_of (halves_of numbers.now) }
{
    for (i, x) in numbers.iter().enumerate() {
        put_number(s, i, *x);
    }
}

// Sets every byte to zero: lent a part of a slice, it clears that part.
pub fn fill_zero(s: &mut [u8])
    ensures { s.new ≡ replicate (length s.old) 0 }
{
    s.fill(0);
}

// Keeps the first words and sets every byte behind them to zero.
#[tactic(auto, using(crate::proofs::Words::words_count, crate::proofs::Parts::tail_list, crate::proofs::Parts::tail_back, crate::proofs::Zeros::cleared_words, crate::proofs::Zeros::cleared_words_tail))]
pub fn clear_behind(s: &mut [u8], count: usize)
    requires { count ≤ length (words_of s.old) }
    ensures kept { words_of s.new ≡ padded (take count (words_of s.old)) (length (words_of s.old)) }
    ensures tail { after_words s.new ≡ replicate (length (after_words s.old)) 0 }
{
    let after = count * 4;
    fill_zero(&mut s[after..]);
}

// Puts bytes in place of as many others, from an index on. A loop, and not std's copy: of that the compiler makes a call of memmove, which a host without a C
// library would have to have beside the memcpy and memset that it needs in any case.
#[tactic(auto, using(crate::proofs::Puts::put_nil))]
pub fn copy_bytes(from: &[u8], to: &mut [u8], at: usize)
    requires { at + length from.now ≤ length to.old }
    ensures { to.new ≡ put to.old at from.now }
{
    for (i, x) in from.iter().enumerate() {
        to[at + i] = *x;
    }
}

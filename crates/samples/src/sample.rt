// One sample of a line as words of the answer.
ghost use Rattle.std.specs.Prelude.{◌≡◌, ◌+◌, ◌≤◌, length, get_or};
ghost use Rattle.words.specs.Bytes.{words_of, after_words};
ghost use Rattle.words.specs.Rows.{row, put};
ghost use Rattle.counting.specs.Totals.{count, sum_below};
ghost use Rattle.values.specs.Chain.{chain_word, chain_verdict};
ghost use Rattle.samples.specs.Sample.{entry, SampleThere, ValuesThere};

// Writes a word for each place from index `to` of a line's words on, and counts the yes verdicts. Place l has its value at index l * stride + offset:
// every stride and offset is promised (docs/PROMISES.md), though the engine has its values side by side.
pub fn write_sample(
    values: &[u32],
    stride: usize,
    offset: usize,
    places: usize,
    line: &mut [u8],
    to: usize,
) -> u64
    requires { SampleThere values.now stride offset places × (to + places ≤ length (words_of line.old)) }
    ensures written { words_of line.new ≡ put (words_of line.old) to (row (λ l. chain_word (entry values.now stride offset l)) places) }
    ensures counted { result ≡ sum_below (λ l. count (chain_verdict (entry values.now stride offset l))) places }
    ensures tail { after_words line.new ≡ after_words line.old }
{
    let mut yes: u64 = 0;
    for l in 0..places {
        let value = values[l * stride + offset];
        words::put_word(line, to + l, values::word_of(value));
        yes += values::yes(value) as u64;
    }
    yes
}

// The same of values that stand side by side.
pub fn write_values(values: &[u32], line: &mut [u8], to: usize) -> u64
    requires { ValuesThere values.now × (to + length values.now ≤ length (words_of line.old)) }
    ensures written { words_of line.new ≡ put (words_of line.old) to (row (λ l. chain_word (get_or values.now l 0)) (length values.now)) }
    ensures counted { result ≡ sum_below (λ l. count (chain_verdict (get_or values.now l 0))) (length values.now) }
    ensures tail { after_words line.new ≡ after_words line.old }
{
    write_sample(values, 1, 0, values.len(), line, to)
}

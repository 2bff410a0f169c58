// What every tool leaves: the words that it made and zeros behind them, or a refusal and zeros alone.
#![tactic(auto)]

ghost use Rattle.std.specs.Prelude.{◌≡◌, ◌≤◌, Result, length, replicate};
ghost use Rattle.words.specs.Bytes.{words_of, after_words};
ghost use Rattle.tool.specs.Tool.{cleared, RoomFor};

// Ends a tool that has made so many words at the front of the output, or refuses, whatever it tells then: every byte behind them is zero, or every
// byte. It tells the same.
#[tactic(auto, using(words::proofs::Zeros::zero_words, words::proofs::Zeros::zero_words_tail))]
pub fn leave<E: Copy>(made: Result<usize, E>, output: &mut [u8]) -> Result<usize, E>
    requires { RoomFor made (length (words_of output.old)) }
    ensures told { result ≡ made }
    ensures left { words_of output.new ≡ cleared made (words_of output.old) }
    ensures tail { after_words output.new ≡ replicate (length (after_words output.old)) 0 }
{
    match made {
        Ok(count) => words::clear_behind(output, count),
        Err(_) => words::fill_zero(output),
    }
    made
}

// What a program reads of its input, into memory that it lends.
#![tactic(auto)]

ghost use Rattle.std.specs.Prelude.{◌≡◌, ◌<◌, length, take, IsOk, IfOk, IfErr};
ghost use Rattle.std.specs.Io.{ReadsAtMost};
ghost use Rattle.std.specs.Io.KnownBytes.{Consumes, IsAtEnd};
ghost use Rattle.input.specs.Reading.{HeldAtStart};

use std::io::{self, Read};

#[cfg(test)]
mod tests;

// Reads until `buf` is full or the input ends, and tells how many bytes stand at the start of `buf`. An error is the reader's own: nothing is
// read after it, and what was read before it stands at the start of `buf`. Where there is no room no read is made, and so none fails.
pub fn read_full<R: Read>(input: &mut R, buf: &mut [u8]) -> io::Result<usize>
    ensures within { ReadsAtMost result buf.new }
    ensures bytes { IfOk result (λ n. Consumes (R.remaining input.old) (R.remaining input.new) (take n buf.new)) }
    ensures end { IfOk result (λ n. n < length buf.new → IsAtEnd (R.remaining input.new)) }
    ensures no_room { length buf.new ≡ 0 → IsOk result }
    ensures failed { IfErr result (λ _. HeldAtStart (R.remaining input.old) (R.remaining input.new) buf.new) }
{
    // each read tells how far it came
    let mut done = 0;
    while done < buf.len() {
        let n = input.read(&mut buf[done..])?;
        if n == 0 {
            return Ok(done);
        }
        done += n;
    }
    Ok(done)
}

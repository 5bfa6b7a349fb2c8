// Standard input and output of the programs: an input is read until a buffer is full, and a text is written or it is said that it was not.
#![tactic(auto)]

ghost use Rattle.std.specs.Prelude.{◌≡◌, ◌≤◌, true, false, length, take};
ghost use Rattle.std.specs.Io.KnownBytes.{Appends, Consumes};

use std::io::{Read, Write};

// Reads until `buf` is full, the input ends or a read fails, and answers how many bytes it put at the start of `buf`: the next of the input. What a
// failed read would have given is taken to be the end.
pub fn read_full<R: Read>(input: &mut R, buf: &mut [u8]) -> usize
    ensures within { result ≤ length buf.new }
    ensures next { Consumes (R.remaining input.old) (R.remaining input.new) (take result buf.new) }
{
    let mut done = 0;
    while done < buf.len() {
        let Ok(n) = input.read(&mut buf[done..]) else {
            return done;
        };
        if n == 0 {
            return done;
        }
        done += n;
    }
    done
}

// Writes all of a text to an output, and answers whether it did. Where that fails, part of the text may be written, and `said` is written to where errors are told.
pub fn write_or_say<W: Write, E: Write>(
    output: &mut W,
    errors: &mut E,
    text: &[u8],
    said: &[u8],
) -> bool
    ensures written { result ≡ true → Appends (W.contents output.old) (W.contents output.new) text.now }
    ensures silent { result ≡ true → errors.new ≡ errors.old }
{
    if output.write_all(text).is_ok() {
        return true;
    }
    say(errors, said);
    false
}

// Writes a text to where errors are told. Nothing can be said where that fails.
pub fn say<E: Write>(errors: &mut E, said: &[u8]) {
    let _ = errors.write_all(said);
}

// Whole inputs and whole texts, over std's readers and writers, with what an error leaves.
#![tactic(auto)]

ghost use Rattle.std.specs.Prelude.{◌≤◌, ◌<◌, length, take, IfOk, OnOk, OnErr, ℕ};
ghost use Rattle.std.specs.Io.KnownBytes.{Appends, Consumes, IsAtEnd};
ghost use Rattle.streams.specs.Writing.{Begins};

use std::io;
use std::io::{ErrorKind, Read, Write};

// Reads until `buf` is full or the input ends, and says how many bytes stand at the start of `buf`. A `while` with a count, as each read says how far it came.
pub fn read_full<R: Read>(reader: &mut R, buf: &mut [u8]) -> io::Result<usize>
    ensures in_bounds { IfOk result (λ n. n ≤ length buf.new) }
    ensures bytes { IfOk result (λ n. Consumes (R.remaining reader.old) (R.remaining reader.new) (take n buf.new)) }
    ensures error { OnErr result ((n : ℕ) × (n ≤ length buf.new) × Consumes (R.remaining reader.old) (R.remaining reader.new) (take n buf.new)) }
    ensures end { IfOk result (λ n. n < length buf.new → IsAtEnd (R.remaining reader.new)) }
{
    let mut done = 0;
    while done < buf.len() {
        let n = reader.read(&mut buf[done..])?;
        if n == 0 {
            break;
        }
        done += n;
    }
    Ok(done)
}

// Writes the whole of `text`. After an error a beginning of it is written, and not the whole. It does not try again where a signal interrupts a write.
// A `while` with a count, as each write says how far it came.
pub fn write_full<W: Write>(writer: &mut W, text: &[u8]) -> io::Result<()>
    ensures written { OnOk result (Appends (W.contents writer.old) (W.contents writer.new) text.now) }
    ensures error { OnErr result (Begins (W.contents writer.old) (W.contents writer.new) text.now) }
{
    let mut done = 0;
    while done < text.len() {
        match writer.write(&text[done..])? {
            0 => return Err(io::Error::from(ErrorKind::WriteZero)),
            n => done += n,
        }
    }
    Ok(())
}

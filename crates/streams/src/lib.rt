// A reader such as standard input, read to its end into a lent space. For the programs, which hand what was read to a function that decides what is printed.
#![tactic(auto)]

ghost use Rattle.std.specs.Prelude.{◌≤◌, ◌<◌, IfOk, length, take};
ghost use Rattle.std.specs.Io.KnownBytes.{Consumes, IsAtEnd};
ghost use Rattle.streams.specs.Reading.{bytes_read};

use std::io::{ErrorKind, Read};

// The most reads that are made: far more than there are bytes in the space of any program, also where signals interrupt some.
const READS: usize = 10000000;

// A read failed, or the most reads were made before the input ended: how many bytes had been read by then.
#[derive(Clone, Copy, Debug, PartialEq, Eq)]
pub struct ReadFailed {
    pub bytes: usize,
}

// Reads until the input ends or the space is full: how many bytes were read. A read that a signal interrupts before it brings a byte is made again.
pub fn read_all<R: Read>(input: &mut R, space: &mut [u8]) -> Result<usize, ReadFailed>
    ensures upper_bound { bytes_read result ≤ length space.new }
    ensures bytes { Consumes (R.remaining input.old) (R.remaining input.new) (take (bytes_read result) space.new) }
    ensures end { IfOk result (λ n. n < length space.new → IsAtEnd (R.remaining input.new)) }
{
    let mut bytes = 0;
    for _ in 0..READS {
        if bytes == space.len() {
            return Ok(bytes);
        }
        match input.read(&mut space[bytes..]) {
            Ok(0) => return Ok(bytes),
            Ok(more) => bytes += more,
            Err(e) => {
                if e.kind() != ErrorKind::Interrupted {
                    return Err(ReadFailed { bytes });
                }
            }
        }
    }
    Err(ReadFailed { bytes })
}

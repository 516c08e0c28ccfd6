// A program's input, read whole.

#![tactic(auto)]

ghost use Rattle.std.specs.Prelude.{◌≡◌, length};
ghost use Rattle.input.specs.Input.{buffer_length, IsPrefixLen, Ended};

use report::MOST_INPUT;
use std::io;

// One byte more than an input may have.
pub const BUFFER_LENGTH: usize = MOST_INPUT + 1;

// A reading at its end: how many bytes came, and the last answer of `read`.
// Kept: `last` is a number, as the clause `ended` and the theorem `whole_reported` say it.
#[derive(Clone, Copy)]
pub struct Read {
    pub count: usize,
    pub last: isize,
}

// Reads until the buffer is full, the input ends or a read fails, also after a short read.
pub fn read_from<R: io::Read>(reader: &mut R, buf: &mut [u8]) -> Read
    requires { length buf.old ≡ buffer_length }
    ensures prefix_len { IsPrefixLen result.count buf.new }
    ensures ended { Ended result.count result.last }
{
    let mut at: usize = 0;
    let mut last: isize = 0;
    // Kept: a turn reads as much as there is, and no index is counted.
    while at < buf.len() {
        let Ok(more) = reader.read(&mut buf[at..]) else {
            return Read {
                count: at,
                last: -1,
            };
        };
        last = more as isize;
        if more == 0 {
            return Read { count: at, last };
        }
        at += more;
    }
    Read { count: at, last }
}

// Standard input.
pub fn read_input(rt: &impl Input, buf: &mut [u8]) -> Read
    requires { length buf.old ≡ buffer_length }
    ensures prefix_len { IsPrefixLen result.count buf.new }
    ensures ended { Ended result.count result.last }
{
    let mut reader = rt.reader();
    read_from(&mut reader, buf)
}

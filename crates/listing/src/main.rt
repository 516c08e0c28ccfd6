// Reads a table's text from standard input and prices it whole: prints the list of its entries, or
// the line of its refusal. What it prints of an input is the report's; here is what counts of
// what was read, and the writing.
//
// Kept: columns and rooms are lent, or arrays of a fixed size: the library and its programs use no heap.

#![tactic(auto)]

ghost use Rattle.std.specs.Prelude.{◌≡◌, length};
ghost use Rattle.columns.specs.Filled.{filled};
ghost use Rattle.input.specs.Printed.{printed};

use input::{BUFFER_LENGTH, read_input};
use report::MOST_OUTPUT;

// Puts at the room's start what is printed of the bytes that were read. After a read that failed
// none counts: the start of a table is not the table.
fn conclude(input: &[u8], last: isize, room: &mut [u8; MOST_OUTPUT]) -> usize
    ensures value { result ≡ length (printed input.now last) }
    ensures room_after { room.new ≡ filled (printed input.now last) room.old }
{
    if last < 0 {
        return report::report(&input[..0], room);
    }
    report::report(input, room)
}

fn main(rt: HostRuntime) {
    let mut input = [0u8; BUFFER_LENGTH];
    let read = read_input(&rt, &mut input);
    let count = read.count;
    let answer = read.last;
    let mut room = [0u8; MOST_OUTPUT];
    let width = conclude(&input[..count], answer, &mut room);
    let written = rt.write_all(&room[..width]);
    if answer < 0 {
        let _ = rt.eprintln("listing: the input could not be read");
    }
    if written.is_err() {
        let _ = rt.eprintln("listing: the output could not be written");
    }
}

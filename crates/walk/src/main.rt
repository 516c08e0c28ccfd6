// Goes over a table's text on standard input with the reader and prints, of each table line, its head,
// its own figure and how many parts it lists. At the first text line that breaks a rule it stops.
//
// Kept: columns and rooms are lent, or arrays of a fixed size: the library and its programs use no heap.

#![tactic(auto)]

ghost use Rattle.std.specs.Prelude.{◌≡◌};
ghost use Rattle.text.specs.Machine.{parse};
ghost use Rattle.walk.specs.Walked.{walked_of};

use columns::{MOST_EDGES, MOST_LISTED};
use input::{BUFFER_LENGTH, read_input};
use reader::line_from;
use reading::first_line;
use weights::{Mark, Vertex, Weight};

// What is printed is let go where it can not be written.
fn put_number(rt: &impl Print, v: u64) {
    let _ = rt.print(v);
}

// The own figure, of a struck line behind `-`.
fn put_own(rt: &impl Print, own: Weight, mark: Mark) {
    if mark.is_struck() {
        let _ = rt.print("-");
    }
    put_number(rt, own.0);
}

fn put_line(rt: &impl Print, head: Vertex, own: Weight, mark: Mark, listed: usize) {
    put_number(rt, head.0);
    let _ = rt.print(" ");
    put_own(rt, own, mark);
    let _ = rt.print(" ");
    put_number(rt, listed as u64);
    let _ = rt.print("\n");
}

fn put_stop(rt: &impl Print, line: u64) {
    let _ = rt.print("stopped at text line ");
    put_number(rt, line);
    let _ = rt.print("\n");
}

// A walk ends at the text's end, or fails at the text line that breaks a rule. The reader holds every
// number to its limit; the lines and the parts in all are counted here.
fn walk(rt: &impl Print, text: &[u8]) -> Result<(), u64>
    ensures { result ≡ walked_of (parse text.now) }
{
    let Ok(first) = first_line(text) else {
        return Err(1);
    };
    let mut at = first.next;
    let mut edges: usize = 0;
    let mut listed: usize = 0;
    // Kept: a turn goes on by a line of the text, and no index is counted.
    while at < text.len() {
        let here = edges as u64 + 2;
        let full = edges >= MOST_EDGES;
        if full {
            return Err(here);
        }
        let Ok(line) = line_from(text, at, first.vertices, MOST_LISTED - listed) else {
            return Err(here);
        };
        put_line(rt, line.head, line.own, line.mark, line.listed);
        edges += 1;
        listed += line.listed;
        at = line.next;
    }
    Ok(())
}

fn main(rt: HostRuntime) {
    let mut input = [0u8; BUFFER_LENGTH];
    let read = read_input(&rt, &mut input);
    let length = read.count;
    let last = read.last;
    if length == input.len() {
        let _ = rt.print("refused 17 0\n");
        return;
    }
    let _ = rt.print("head own listed\n");
    // After a read that failed no byte counts: the start of a text is not the text.
    if last < 0 {
        put_stop(&rt, 1);
        return;
    }
    if let Err(line) = walk(&rt, &input[..length]) {
        put_stop(&rt, line);
    }
}

// A bill as rows to quote from: a row for each of its lines, and last one with the part's figure.
//
// Kept: columns and rooms are lent, or arrays of a fixed size: the library and its programs use no heap.

#![tactic(auto)]

ghost use Rattle.std.specs.Prelude.{◌≡◌, [], ◌++◌, ◌+◌, ◌*◌, ◌≤◌, length};
ghost use Rattle.columns.specs.Columns.{columns, cell};
ghost use Rattle.columns.specs.Given.{columns_of, entries_in};
ghost use Rattle.writing.specs.Written.{Written};
ghost use Rattle.reply.specs.Reply.{most_reply, Replied};
ghost use Rattle.quote.specs.Quote.{most_row, most_last, row, rows, last_row, bill_said};

use columns::{Entries, Table};
use reply::{Reply, Status, put_refusal};
use report::put_stem;
use weights::{Measure, State, Vertex};
use writing::{put_number, put_tail};

// The most lines of a bill that is printed.
pub const MOST_LINES: usize = 16384;

// What a column holds for a line, and 0 for a line beyond its end.
fn cell(column: &[u64], line: u64) -> u64
    ensures { result ≡ cell column.now line }
{
    column.get(line as usize).copied().unwrap_or(0)
}

// The row of a line. Its part and its figure are written as a list of numbers is.
fn put_row(room: &mut [u8], heads: &[u64], own: &[u64], line: u64) -> usize
    requires { most_row ≤ length room.old }
    ensures fact { let c = columns 0 heads.now own.now [] [] [] in
        Written (row c line) room.old result room.new }
    ensures upper_bound { result ≤ most_row }
{
    let head = cell(heads, line);
    let figure = cell(own, line);
    let numbers = [head, figure];
    let at = put_number(room, line);
    let width = put_tail(&mut room[at..], &numbers);
    at + width
}

// The rows of lines.
fn put_rows(room: &mut [u8], heads: &[u64], own: &[u64], lines: &[u64]) -> usize
    requires { most_row * length lines.now ≤ length room.old }
    ensures fact { let c = columns 0 heads.now own.now [] [] [] in
        Written (rows c lines.now) room.old result room.new }
    ensures upper_bound { result ≤ most_row * length lines.now }
{
    let mut at: usize = 0;
    for line in lines {
        at += put_row(&mut room[at..], heads, own, *line);
    }
    at
}

// The last row: the part, its state and its figure.
fn put_last(room: &mut [u8], v: u64, state: State, figure: u64) -> usize
    requires { most_last ≤ length room.old }
    ensures written { Written (last_row v state figure) room.old result room.new }
    ensures upper_bound { result ≤ most_last }
{
    let numbers = [figure];
    let at = put_stem(room, Vertex(v), state);
    let width = put_tail(&mut room[at..], &numbers);
    at + width
}

// The rows of lines, and the last one behind them.
fn put_sheet(
    room: &mut [u8],
    heads: &[u64],
    own: &[u64],
    lines: &[u64],
    v: u64,
    state: State,
    figure: u64,
) -> usize
    requires { most_row * length lines.now + most_last ≤ length room.old }
    ensures { let c = columns 0 heads.now own.now [] [] [] in
        Written (rows c lines.now ++ last_row v state figure) room.old result room.new }
{
    let at = put_rows(room, heads, own, lines);
    let width = put_last(&mut room[at..], v, state, figure);
    at + width
}

// The bill of a part, its figure last; or by what it is refused.
pub fn put_bill(
    room: &mut [u8],
    measure: Measure,
    table: &Table,
    entries: &Entries,
    part: Vertex,
) -> Reply
    requires { most_reply ≤ length room.old }
    ensures { let c = columns_of table.now in
        let a = entries_in entries.now in
        Replied (bill_said measure c a part.0) room.old result room.new }
{
    let Table { heads, own, .. } = *table;
    let mut lines = [0u64; MOST_LINES];
    let extent = bill::bill(measure, table, entries, part, &mut lines);
    match extent {
        Err(r) => return put_refusal(room, r),
        Ok(k) => {
            let size = k as usize;
            let entry = settle::entry(entries, part);
            let state = entry.state;
            let weight = entry.weight;
            let v = part.0;
            let figure = weight.0;
            let width = put_sheet(room, heads, own, &lines[..size], v, state, figure);
            return Reply {
                width,
                status: Status::Answered,
            };
        }
    }
}

// The stock clerk's record, written as a text, replayed over a table's answers: what became of each
// event, then the final counts.
//
// Kept: columns and rooms are lent, or arrays of a fixed size: the library and its programs use no heap.

#![tactic(auto)]

ghost use Rattle.std.specs.Prelude.{◌≡◌, ◌+◌, ◌*◌, ◌≤◌, ◌<◌, ◌^◌, length};
ghost use Rattle.columns.specs.Given.{columns_of, entries_in};
ghost use Rattle.inventory.specs.Shelf.{most_events};
ghost use Rattle.writing.specs.Written.{Written};
ghost use Rattle.reply.specs.Reply.{most_reply, Replied};
ghost use Rattle.ledger.specs.Record.{most_shelf, found_number, next_at, counts_from, shelf_in, pieces_at, event_at, wrong_at, events_from, read_record};
ghost use Rattle.ledger.specs.Ledger.{most_outcome, most_row, most_stock_line, outcome_text, outcome_row, outcome_rows, stock_line, ledger, replayed_said, replay_said};

use columns::{Entries, Table};
use cursor::{Separator, byte_at, number_at, separator_at};
use inventory::MOST_EVENTS;
use reading::agree;
use refusal::{Refusal, TextColumn, TextLine};
use reply::{Reply, Status, put_second_refusal};
use report::MOST_INPUT;
use weights::Measure;
use writing::{put_bytes, put_number, put_tail};

// The most opening counts of a record.
pub const MOST_SHELF: usize = 1024;

// One more than the greatest number that is read: eighteen digits.
const LIMIT: u64 = 1000000000000000000;

// What stands behind a word or a number: a single space and a number, with the place behind it; the
// line's end, with the place of the next line; or a byte that can't stand there.
// Kept: an end is neither a number nor a mistake; an `Option` within a `Result` would hide which is which.
#[derive(Clone, Copy)]
pub enum Next {
    Number(u64, usize),
    End(usize),
    Wrong(usize),
}

// A line of an event: its part, its pieces and the place of the next line; a byte that can't stand
// there; or nothing more.
// Kept: as `Next`.
#[derive(Clone, Copy)]
pub enum EventLine {
    Event(u64, u64, usize),
    Wrong(usize),
    End,
}

// The refusal of a text line that starts at `at`.
fn wrong_at(line: u64, at: usize, place: usize) -> Refusal
    requires { (at ≤ place) × (place < 2 ^ 63) }
    ensures { result ≡ wrong_at line at place }
{
    let column = (place - at) as u64 + 1;
    Refusal::Text(TextLine(line), TextColumn(column))
}

// The number at a place.
fn found_at(text: &[u8], at: usize) -> Next
    ensures { result ≡ found_number text.now at }
{
    let token = number_at(text, at, LIMIT);
    let stop = token.stop;
    let found = token.found;
    let Some(v) = found else {
        return Next::Wrong(stop);
    };
    Next::Number(v, stop)
}

fn next_at(text: &[u8], at: usize) -> Next
    ensures { result ≡ next_at text.now at }
{
    let separator = separator_at(text, at);
    match separator {
        Separator::Space(next) => found_at(text, next),
        Separator::LineEnd(next) => Next::End(next),
        Separator::Neither => Next::Wrong(at),
    }
}

// The counts from a place on, put into a column: how many there are and the place of the next line, or
// a byte that can't stand there. Behind a full column only the line's end can stand.
fn read_counts(text: &[u8], from: usize, column: &mut [u64]) -> Result<(usize, usize), usize>
    ensures { record { counts = result; column = column.new } ≡ counts_from (length column.old) text.now from 0 column.old }
{
    let mut at = from;
    for i in 0..column.len() {
        let next = next_at(text, at);
        match next {
            Next::End(line) => return Ok((i, line)),
            Next::Wrong(place) => return Err(place),
            Next::Number(v, stop) => {
                column[i] = v;
                at = stop;
            }
        }
    }
    let separator = separator_at(text, at);
    match separator {
        Separator::Space(_) => Err(at),
        Separator::LineEnd(line) => Ok((column.len(), line)),
        Separator::Neither => Err(at),
    }
}

// The opening counts: the first line.
fn read_shelf(text: &[u8], column: &mut [u64]) -> Result<(usize, usize), usize>
    ensures { record { counts = result; column = column.new } ≡ shelf_in text.now column.old }
{
    let same = agree(text, b"stock");
    if same == 5 {
        return read_counts(text, 5, column);
    }
    Err(same)
}

// The pieces of an event, behind its part.
fn pieces_at(text: &[u8], part: u64, at: usize) -> EventLine
    ensures { result ≡ pieces_at text.now part at }
{
    let next = next_at(text, at);
    match next {
        Next::End(_) => EventLine::Wrong(at),
        Next::Wrong(place) => EventLine::Wrong(place),
        Next::Number(pieces, stop) => {
            let behind = byte_at(text, stop);
            if behind == b'\n' {
                let line = stop + 1;
                return EventLine::Event(part, pieces, line);
            }
            EventLine::Wrong(stop)
        }
    }
}

fn event_at(text: &[u8], at: usize) -> EventLine
    ensures { result ≡ event_at text.now at }
{
    if at >= text.len() {
        return EventLine::End;
    }
    let token = number_at(text, at, LIMIT);
    let stop = token.stop;
    let found = token.found;
    let Some(part) = found else {
        return EventLine::Wrong(stop);
    };
    pieces_at(text, part, stop)
}

// The events from a place on, put into two columns until they are full: how many there are, or the
// refusal. Behind full columns nothing can stand.
fn read_events(
    text: &[u8],
    from: usize,
    parts: &mut [u64],
    received: &mut [u64],
) -> Result<usize, Refusal>
    requires { (from ≤ length text.now) × (length received.old ≡ length parts.old) }
    ensures { let vs = parts.old in
        record { events = result; parts = parts.new; received = received.new } ≡ events_from (length vs) text.now from 0 vs received.old }
{
    let mut at = from;
    for i in 0..parts.len() {
        let next = event_at(text, at);
        match next {
            EventLine::End => return Ok(i),
            EventLine::Wrong(place) => {
                let refusal = wrong_at(i as u64 + 2, at, place);
                return Err(refusal);
            }
            EventLine::Event(part, pieces, line) => {
                parts[i] = part;
                received[i] = pieces;
                at = line;
            }
        }
    }
    let count = parts.len();
    if at >= text.len() {
        return Ok(count);
    }
    let refusal = wrong_at(count as u64 + 2, at, at);
    Err(refusal)
}

// The opening counts and the events of a text, put into columns: how many of each there are, or the
// refusal.
fn read_record(
    text: &[u8],
    shelf: &mut [u64],
    parts: &mut [u64],
    received: &mut [u64],
) -> Result<(usize, usize), Refusal>
    requires { length received.old ≡ length parts.old }
    ensures { let read = read_record text.now shelf.old parts.old received.old in
        record { result = result; shelf = shelf.new; parts = parts.new; received = received.new } ≡ read }
{
    let counts = read_shelf(text, shelf);
    match counts {
        Err(place) => {
            let refusal = wrong_at(1, 0, place);
            Err(refusal)
        }
        Ok((k, at)) => {
            let e = read_events(text, at, parts, received)?;
            Ok((k, e))
        }
    }
}

// What became of an event, behind a space, and the end of the line.
fn put_outcome(room: &mut [u8], outcome: u64) -> usize
    requires { most_outcome ≤ length room.old }
    ensures written { Written (outcome_text outcome) room.old result room.new }
    ensures upper_bound { result ≤ most_outcome }
{
    // Kept: the numbers are the C interface's, in whose column of outcomes they stand.
    if outcome == 0 {
        return put_bytes(room, b" received\n");
    }
    if outcome == 1 {
        return put_bytes(room, b" issued\n");
    }
    if outcome == 2 {
        return put_bytes(room, b" built\n");
    }
    put_bytes(room, b" late\n")
}

// The row of an event.
fn put_outcome_row(room: &mut [u8], part: u64, outcome: u64) -> usize
    requires { most_row ≤ length room.old }
    ensures written { Written (outcome_row part outcome) room.old result room.new }
    ensures upper_bound { result ≤ most_row }
{
    let at = put_number(room, part);
    let width = put_outcome(&mut room[at..], outcome);
    at + width
}

// The rows of events.
fn put_outcome_rows(room: &mut [u8], parts: &[u64], outcomes: &[u64]) -> usize
    requires { (length outcomes.now ≡ length parts.now) × (most_row * length parts.now ≤ length room.old) }
    ensures written { Written (outcome_rows parts.now outcomes.now) room.old result room.new }
    ensures upper_bound { result ≤ most_row * length parts.now }
{
    let mut at: usize = 0;
    for (i, part) in parts.iter().enumerate() {
        let outcome = outcomes[i];
        at += put_outcome_row(&mut room[at..], *part, outcome);
    }
    at
}

// The line of the counts, as it opens a record.
fn put_stock(room: &mut [u8], stock: &[u64]) -> usize
    requires { (length stock.now ≤ most_shelf) × (most_stock_line ≤ length room.old) }
    ensures written { Written (stock_line stock.now) room.old result room.new }
    ensures upper_bound { result ≤ most_stock_line }
{
    let at = put_bytes(room, b"stock");
    let width = put_tail(&mut room[at..], stock);
    at + width
}

// The rows of events, and the final counts behind them.
fn put_ledger(room: &mut [u8], parts: &[u64], outcomes: &[u64], stock: &[u64]) -> usize
    requires { (length outcomes.now ≡ length parts.now) × (length parts.now ≤ most_events) × (length stock.now ≤ most_shelf) × (most_reply ≤ length room.old) }
    ensures { Written (ledger parts.now outcomes.now stock.now) room.old result room.new }
{
    let at = put_outcome_rows(room, parts, outcomes);
    let width = put_stock(&mut room[at..], stock);
    at + width
}

// What is said of a record whose columns are these.
fn put_replayed(
    room: &mut [u8],
    measure: Measure,
    table: &Table,
    entries: &Entries,
    parts: &[u64],
    received: &[u64],
    stock: &mut [u64],
    outcomes: &mut [u64],
) -> Reply
    requires { (length outcomes.old ≡ length parts.now) × (length parts.now ≤ most_events) × (length stock.old ≤ most_shelf) × (most_reply ≤ length room.old) }
    ensures { let c = columns_of table.now in
        let a = entries_in entries.now in
        let said = replayed_said measure c a parts.now received.now stock.old outcomes.old in
        Replied said room.old result room.new }
{
    let a = inventory::replay(measure, table, entries, parts, received, stock, outcomes);
    match a {
        Err(r) => put_second_refusal(room, r),
        Ok(()) => {
            let width = put_ledger(room, parts, outcomes, stock);
            Reply {
                width,
                status: Status::Answered,
            }
        }
    }
}

// The record of a text, replayed: what became of each event, then the final counts; or by what it is
// refused.
pub fn put_replay(
    room: &mut [u8],
    measure: Measure,
    table: &Table,
    entries: &Entries,
    second: &[u8],
) -> Reply
    requires { most_reply ≤ length room.old }
    ensures { let c = columns_of table.now in
        let a = entries_in entries.now in
        Replied (replay_said measure c a second.now) room.old result room.new }
{
    if second.len() > MOST_INPUT {
        return put_second_refusal(room, Refusal::InputLength);
    }
    let mut shelf = [0u64; MOST_SHELF];
    let mut parts = [0u64; MOST_EVENTS];
    let mut received = [0u64; MOST_EVENTS];
    let mut outcomes = [0u64; MOST_EVENTS];
    let read = read_record(second, &mut shelf, &mut parts, &mut received);
    match read {
        Err(r) => put_second_refusal(room, r),
        Ok((k, e)) => put_replayed(
            room,
            measure,
            table,
            entries,
            &parts[..e],
            &received[..e],
            &mut shelf[..k],
            &mut outcomes[..e],
        ),
    }
}

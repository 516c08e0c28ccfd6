// Two tables side by side: a row for each part that differs, with its state and its figure in
// both.
//
// Kept: columns and rooms are lent, or arrays of a fixed size: the library and its programs use no heap.

#![tactic(auto)]

ghost use Rattle.std.specs.Prelude.{◌≡◌, ◌*◌, ◌≤◌, length};
ghost use Rattle.columns.specs.Columns.{columns, entries};
ghost use Rattle.columns.specs.Acceptance.{most_vertices};
ghost use Rattle.columns.specs.Given.{entries_in};
ghost use Rattle.settle.specs.Settling.{settled};
ghost use Rattle.writing.specs.Written.{Written};
ghost use Rattle.report.specs.Report.{most_output, blank_entries};
ghost use Rattle.report.specs.Pieces.{Lent, lent_columns};
ghost use Rattle.reply.specs.Reply.{most_reply, Replied};
ghost use Rattle.compare.specs.Compare.{most_row, agrees, difference_row, row_if, differences, compared_as, compared_said};
ghost use Rattle.compare.specs.Pieces.{most_half, most_rest, half, rest};

use columns::{Entries, Table};
use readtable::read_table;
use refusal::{Header, Refusal};
use reply::{Reply, Status, put_second_refusal};
use report::{MOST_INPUT, put_state, put_stem};
use weights::{Entry, Measure, State, Vertex};
use writing::{put_spaced, put_tail};

// The front of a row: the part, its state and its figure in the first table.
fn put_half(room: &mut [u8], v: u64, state: State, figure: u64) -> usize
    requires { most_half ≤ length room.old }
    ensures written { Written (half v state figure) room.old result room.new }
    ensures upper_bound { result ≤ most_half }
{
    let at = put_stem(room, Vertex(v), state);
    let width = put_spaced(&mut room[at..], figure);
    at + width
}

// The rest of it: state and figure in the second table.
fn put_rest(room: &mut [u8], state: State, figure: u64) -> usize
    requires { most_rest ≤ length room.old }
    ensures written { Written (rest state figure) room.old result room.new }
    ensures upper_bound { result ≤ most_rest }
{
    let numbers = [figure];
    let at = put_state(room, state);
    let width = put_tail(&mut room[at..], &numbers);
    at + width
}

// The row of a part that differs.
fn put_row(room: &mut [u8], v: u64, first: Entry, second: Entry) -> usize
    requires { most_row ≤ length room.old }
    ensures written { Written (difference_row v first second) room.old result room.new }
    ensures upper_bound { result ≤ most_row }
{
    let state = first.state;
    let weight = first.weight;
    let figure = weight.0;
    let other_state = second.state;
    let other_weight = second.weight;
    let other_figure = other_weight.0;
    let at = put_half(room, v, state, figure);
    let width = put_rest(&mut room[at..], other_state, other_figure);
    at + width
}

// Whether state and figure are the same.
fn agrees(first: Entry, second: Entry) -> bool
    ensures { result ≡ agrees first second }
{
    first.state == second.state && first.weight == second.weight
}

// The row of a part if it differs, and nothing if it does not.
fn put_row_if(room: &mut [u8], v: u64, first: Entry, second: Entry) -> usize
    requires { most_row ≤ length room.old }
    ensures written { Written (row_if v first second) room.old result room.new }
    ensures upper_bound { result ≤ most_row }
{
    if agrees(first, second) {
        return 0;
    }
    put_row(room, v, first, second)
}

// The rows of the first n parts.
fn put_differences(room: &mut [u8], n: u64, entries: &Entries, others: &Entries) -> usize
    requires { most_row * n ≤ length room.old }
    ensures { let a = entries_in entries.now in
        let b = entries_in others.now in
        Written (differences a b n) room.old result room.new }
{
    let mut at: usize = 0;
    for i in 0..n {
        let v = Vertex(i);
        let first = settle::entry(entries, v);
        let second = settle::entry(others, v);
        at += put_row_if(&mut room[at..], i, first, second);
    }
    at
}

// The second table, of k parts, is settled, and compared with the answers of the first.
fn put_settled<'a>(
    room: &mut [u8],
    n: u64,
    first: &Entries,
    measure: Measure,
    k: u64,
    table: &Table,
    figures: &'a mut [u64],
    levels: &'a mut [u64],
    roots: &'a mut [u64],
    counts: &'a mut [u64],
) -> Reply
    requires most_reply_in_bounds { most_reply ≤ length room.old }
    requires n_le_most_vertices { n ≤ most_vertices }
    requires k_le_most_vertices { k ≤ most_vertices }
    ensures { let a = entries_in first.now in
        let c = columns k table.now.heads.now table.now.own.now table.now.strikes.now table.now.spans.now table.now.tails.now in
        let b = entries figures.old levels.old roots.old counts.old in
        Replied (compared_as n k a (settled measure c b)) room.old result room.new }
{
    let Table {
        heads,
        own,
        strikes,
        spans,
        tails,
        ..
    } = *table;
    let answer = settle::settle(
        measure,
        &Table {
            vertices: k,
            heads,
            own,
            strikes,
            spans,
            tails,
        },
        figures,
        levels,
        roots,
        counts,
    );
    match answer {
        Err(r) => return put_second_refusal(room, r),
        Ok(()) => {}
    }
    let parts = n.max(k);
    let second = Entries {
        weights: figures,
        depths: levels,
        edges: roots,
        pieces: counts,
    };
    let width = put_differences(room, parts, first, &second);
    Reply {
        width,
        status: Status::Answered,
    }
}

// The second table, which was read, has answer columns of zeros.
fn put_read(room: &mut [u8], n: u64, entries: &Entries, header: Header, table: &Table) -> Reply
    requires most_reply_in_bounds { most_reply ≤ length room.old }
    requires n_le_most_vertices { n ≤ most_vertices }
    requires lent { Lent header table.now.heads.now table.now.own.now table.now.strikes.now table.now.spans.now table.now.tails.now most_output }
    ensures { let a = entries_in entries.now in
        let c = lent_columns header table.now.heads.now table.now.own.now table.now.strikes.now table.now.spans.now table.now.tails.now in
        let o = settled header.measure c (blank_entries header.vertices) in
        Replied (compared_as n header.vertices a o) room.old result room.new }
{
    let Table {
        heads,
        own,
        strikes,
        spans,
        tails,
        ..
    } = *table;
    let measure = header.measure;
    let k = header.vertices;
    let parts = k as usize;
    let lines = header.edges as usize;
    let places = 2 * lines;
    let listed = header.listed as usize;
    let mut figures = [0u64; 1024];
    let mut levels = [0u64; 1024];
    let mut roots = [0u64; 1024];
    let mut counts = [0u64; 1024];
    put_settled(
        room,
        n,
        entries,
        measure,
        k,
        &Table {
            vertices: n,
            heads: &heads[..lines],
            own: &own[..lines],
            strikes: &strikes[..lines],
            spans: &spans[..places],
            tails: &tails[..listed],
        },
        &mut figures[..parts],
        &mut levels[..parts],
        &mut roots[..parts],
        &mut counts[..parts],
    )
}

// The answers of a table of n parts, compared with those of the table of a second text; or by
// what that text is refused.
pub fn put_comparison(room: &mut [u8], n: u64, entries: &Entries, second: &[u8]) -> Reply
    requires most_reply_in_bounds { most_reply ≤ length room.old }
    requires n_le_most_vertices { n ≤ most_vertices }
    ensures { let a = entries_in entries.now in
        Replied (compared_said n a second.now) room.old result room.new }
{
    if second.len() > MOST_INPUT {
        return put_second_refusal(room, Refusal::InputLength);
    }
    let mut heads = [0u64; 4096];
    let mut own = [0u64; 4096];
    let mut strikes = [0u64; 4096];
    let mut spans = [0u64; 8192];
    let mut tails = [0u64; 16384];
    let reading = read_table(
        second,
        &mut heads,
        &mut own,
        &mut strikes,
        &mut spans,
        &mut tails,
    );
    match reading {
        Err(r) => put_second_refusal(room, r),
        Ok(header) => put_read(
            room,
            n,
            entries,
            header,
            &Table {
                vertices: n,
                heads: &heads,
                own: &own,
                strikes: &strikes,
                spans: &spans,
                tails: &tails,
            },
        ),
    }
}

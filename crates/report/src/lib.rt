// What the listing program prints of an input: the list of a table's entries, or the line of a
// refusal.
//
// Kept: columns and rooms are lent, or arrays of a fixed size: the library and its programs use no heap.

#![tactic(auto)]

ghost use Rattle.std.specs.Prelude.{◌≡◌, ◌∷◌, ◌++◌, ◌≤◌, length};
ghost use Rattle.settle.specs.Settling.{settled};
ghost use Rattle.text.specs.Render.{digits};
ghost use Rattle.columns.specs.Columns.{entries};
ghost use Rattle.columns.specs.Filled.{filled};
ghost use Rattle.columns.specs.Columns.{entries};
ghost use Rattle.columns.specs.Given.{columns_of, entries_in};
ghost use Rattle.writing.specs.Written.{Written};
ghost use Rattle.report.specs.Report.{most_refusal, state_word, row, rows, list, refused_with, refused_line, priced, blank_entries, report};
ghost use Rattle.report.specs.Pieces.{Lent, lent_columns};

use columns::{Entries, Table};
use readtable::read_table;
use refusal::{Header, Refusal};
use weights::{Entry, Measure, State, Vertex};
use writing::{put_bytes, put_number, put_tail};

// The most bytes of an input.
pub const MOST_INPUT: usize = 65535;

// A bound on the bytes of an output: the names, and 1,024 rows of 45, as if every part had four
// digits.
pub const MOST_OUTPUT: usize = 46116;

// A state's word behind a space.
#[tactic(auto, unfolding(crate::specs::Report::state_word))]
fn word(state: State) -> &'static [u8]
    ensures { result.now ≡ 32 ∷ state_word state }
{
    match state {
        State::Made => b" made",
        State::Over => b" over",
        State::Unmade => b" unmade",
    }
}

pub fn put_state(room: &mut [u8], state: State) -> usize
    requires { length (32 ∷ state_word state) ≤ length room.old }
    ensures { Written (32 ∷ state_word state) room.old result room.new }
{
    put_bytes(room, word(state))
}

// A part and its state.
pub fn put_stem(room: &mut [u8], v: Vertex, state: State) -> usize
    requires { length (digits v.0 ++ (32 ∷ state_word state)) ≤ length room.old }
    ensures { Written (digits v.0 ++ (32 ∷ state_word state)) room.old result room.new }
{
    let at = put_number(room, v.0);
    let width = put_state(&mut room[at..], state);
    at + width
}

// The line of a part. Its four numbers are written as a list of numbers is.
fn put_row(room: &mut [u8], v: Vertex, entry: Entry) -> usize
    requires { length (row v.0 entry) ≤ length room.old }
    ensures { Written (row v.0 entry) room.old result room.new }
{
    let numbers = [entry.weight.0, entry.depth, entry.edge.0, entry.pieces];
    let at = put_stem(room, v, entry.state);
    let width = put_tail(&mut room[at..], &numbers);
    at + width
}

// The lines of all parts.
fn put_rows(room: &mut [u8], entries: &Entries) -> usize
    requires { length (rows (entries_in entries.now) (length entries.now.depths.now)) ≤ length room.old }
    ensures { let a = entries_in entries.now in
        Written (rows a (length entries.now.depths.now)) room.old result room.new }
{
    let Entries { depths, .. } = *entries;
    let mut at: usize = 0;
    for i in 0..depths.len() {
        let v = Vertex(i as u64);
        let entry = settle::entry(entries, v);
        at += put_row(&mut room[at..], v, entry);
    }
    at
}

// The lines of all parts under the line of names.
pub fn put_list(room: &mut [u8], entries: &Entries) -> usize
    requires { length (list (entries_in entries.now) (length entries.now.depths.now)) ≤ length room.old }
    ensures { let a = entries_in entries.now in
        Written (list a (length entries.now.depths.now)) room.old result room.new }
{
    let Entries { pieces, .. } = *entries;
    let at = put_bytes(room, b"part state figure depth line pieces\n");
    let width = put_rows(&mut room[at..], entries);
    at + width
}

// The word of a refusal and its numbers, each behind a space.
fn put_numbers(room: &mut [u8], numbers: &[u64]) -> usize
    requires { length (refused_with numbers.now) ≤ length room.old }
    ensures { Written (refused_with numbers.now) room.old result room.new }
{
    let at = put_bytes(room, b"refused");
    let width = put_tail(&mut room[at..], numbers);
    at + width
}

// The line of a refusal: the place of 14 is line and column, that of any other one number.
pub fn put_refused(room: &mut [u8], refusal: Refusal) -> usize
    requires { most_refusal ≤ length room.old }
    ensures { Written (refused_line refusal) room.old result room.new }
{
    let number = refusal.number();
    let place = refusal.place();
    let column = refusal.column();
    if column == 0 {
        put_numbers(room, &[number, place])
    } else {
        put_numbers(room, &[number, place, column])
    }
}

// A table is settled into the answer columns and listed.
fn put_priced(
    room: &mut [u8],
    measure: Measure,
    table: &Table,
    weights: &mut [u64],
    depths: &mut [u64],
    edges: &mut [u64],
    pieces: &mut [u64],
) -> usize
    requires a_in_bounds { let c = columns_of table.now in
        let a = entries weights.old depths.old edges.old pieces.old in
        length (priced table.now.vertices (settled measure c a)) ≤ length room.old }
    requires most_refusal_in_bounds { most_refusal ≤ length room.old }
    ensures { let c = columns_of table.now in
        let a = entries weights.old depths.old edges.old pieces.old in
        Written (priced table.now.vertices (settled measure c a)) room.old result room.new }
{
    let answer = settle::settle(measure, table, weights, depths, edges, pieces);
    match answer {
        Err(r) => put_refused(room, r),
        Ok(()) => put_list(
            room,
            &Entries {
                weights,
                depths,
                edges,
                pieces,
            },
        ),
    }
}

// The table that was read is priced from answer columns of zeros.
fn put_read(room: &mut [u8], header: Header, table: &Table) -> usize
    requires { Lent header table.now.heads.now table.now.own.now table.now.strikes.now table.now.spans.now table.now.tails.now (length room.old) }
    ensures { let c = lent_columns header table.now.heads.now table.now.own.now table.now.strikes.now table.now.spans.now table.now.tails.now in
        Written (priced header.vertices (settled header.measure c (blank_entries header.vertices))) room.old result room.new }
{
    let Table {
        heads,
        own,
        strikes,
        spans,
        tails,
        ..
    } = *table;
    let measure = header.measure;
    let n = header.vertices;
    let parts = n as usize;
    let lines = header.edges as usize;
    let places = 2 * lines;
    let listed = header.listed as usize;
    let mut weights = [0u64; 1024];
    let mut depths = [0u64; 1024];
    let mut edges = [0u64; 1024];
    let mut pieces = [0u64; 1024];
    put_priced(
        room,
        measure,
        &Table {
            vertices: n,
            heads: &heads[..lines],
            own: &own[..lines],
            strikes: &strikes[..lines],
            spans: &spans[..places],
            tails: &tails[..listed],
        },
        &mut weights[..parts],
        &mut depths[..parts],
        &mut edges[..parts],
        &mut pieces[..parts],
    )
}

// The output of an input is put at the room's start, and its length is returned.
pub fn report(input: &[u8], room: &mut [u8; MOST_OUTPUT]) -> usize
    ensures value { result ≡ length (report input.now) }
    ensures room_after { room.new ≡ filled (report input.now) room.old }
{
    if input.len() > MOST_INPUT {
        return put_refused(room, Refusal::InputLength);
    }
    let mut heads = [0u64; 4096];
    let mut own = [0u64; 4096];
    let mut strikes = [0u64; 4096];
    let mut spans = [0u64; 8192];
    let mut tails = [0u64; 16384];
    let reading = read_table(
        input,
        &mut heads,
        &mut own,
        &mut strikes,
        &mut spans,
        &mut tails,
    );
    match reading {
        Err(r) => put_refused(room, r),
        Ok(header) => put_read(
            room,
            header,
            &Table {
                vertices: header.vertices,
                heads: &heads,
                own: &own,
                strikes: &strikes,
                spans: &spans,
                tails: &tails,
            },
        ),
    }
}

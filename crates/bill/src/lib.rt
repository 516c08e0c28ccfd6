// Printing the bill of a vertex: the hyperedges of its chosen derivation, root first, then the bill
// of each vertex of the root's tail, in order. A bill is measured before it is written: its length from
// the lengths of the bills below it, each worked out once, so that a long bill is refused as soon as a
// short one.
//
// Kept: columns and rooms are lent, or arrays of a fixed size: the library and its programs use no heap.

#![tactic(auto)]

ghost use Rattle.std.specs.Prelude.{◌≡◌, ◌≤◌, length};
ghost use Rattle.columns.specs.Acceptance.{most_vertices};
ghost use Rattle.columns.specs.Given.{columns_of, entries_in};
ghost use Rattle.bill.specs.Billing.{part_acceptance, printed, billed};
ghost use Rattle.bill.specs.Walk.{vertex_bill, tail_bill, Grounded, AllGrounded, VertexFits, TailFits, WrittenFrom, Repeatable, standing, Known, KnownStill, spend};

use columns::{Entries, Table};
use refusal::Refusal;
use weights::{Hyperedge, Measure, Vertex};

// What the bill of v, which is at most `depth` deep, leaves of a budget, which is the room that a bill
// may take, if it does not spend it. The length of each vertex's
// bill is worked out once and kept in `lengths`, where 0 says that it is not known: a bill has a line.
#[cycle(tail_spend_vertex_spend)]
fn vertex_spend(
    depth: u64,
    v: Vertex,
    spans: &[u64],
    tails: &[u64],
    edges: &[u64],
    lengths: &mut [u64],
    budget: usize,
) -> Option<usize>
    requires { (Grounded spans.now tails.now edges.now depth v.0) × (Known spans.now tails.now edges.now lengths.old) }
    ensures value { result ≡ spend budget (length (vertex_bill spans.now tails.now edges.now depth v.0)) }
    ensures known { KnownStill spans.now tails.now edges.now lengths.old lengths.new }
{
    if budget == 0 {
        return None;
    }
    let i = v.0 as usize;
    let known = lengths[i] as usize;
    if known != 0 {
        return budget.checked_sub(known);
    }
    let root = edges[i];
    let tail = columns::tail_of(Hyperedge(root), spans, tails);
    let below = budget - 1;
    let rest = tail_spend(depth - 1, tail, spans, tails, edges, lengths, below)?;
    lengths[i] = (budget - rest) as u64;
    Some(rest)
}

// The same for the bills of the vertices of a tail. A loop, so that the stack grows with the depth of
// a bill and not with the lengths of its tails. A vertex whose hyperedge lists nothing costs one line,
// with no call.
#[cycle(tail_spend_vertex_spend)]
fn tail_spend(
    depth: u64,
    tail: &[u64],
    spans: &[u64],
    tails: &[u64],
    edges: &[u64],
    lengths: &mut [u64],
    budget: usize,
) -> Option<usize>
    requires { (AllGrounded spans.now tails.now edges.now depth tail.now) × (Known spans.now tails.now edges.now lengths.old) }
    ensures value { result ≡ spend budget (length (tail_bill spans.now tails.now edges.now depth tail.now)) }
    ensures known { KnownStill spans.now tails.now edges.now lengths.old lengths.new }
{
    let mut left = budget;
    for &v in tail {
        let root = edges[v as usize] as usize;
        let size = spans[2 * root + 1];
        if size == 0 {
            if left == 0 {
                return None;
            }
            left -= 1;
            continue;
        }
        left = vertex_spend(depth, Vertex(v), spans, tails, edges, lengths, left)?;
    }
    Some(left)
}

// Copies the `size` places before `at` behind them, and gives how far the room is filled then.
fn repeat(room: &mut [u64], at: usize, size: usize) -> usize
    requires { Repeatable at size room.old }
    ensures { WrittenFrom at (standing at size room.old) room.old result room.new }
{
    let from = at - size;
    // Kept: std's `copy_within` goes from the last place down here, which takes up to twice the time.
    for k in 0..size {
        room[at + k] = room[from + k];
    }
    at + size
}

// Writes the bill of v, which is at most `depth` deep, from the start of a room that holds it, and
// gives its length.
#[cycle(tail_bill_vertex_bill)]
fn vertex_bill(
    depth: u64,
    v: Vertex,
    spans: &[u64],
    tails: &[u64],
    edges: &[u64],
    room: &mut [u64],
) -> usize
    requires { VertexFits spans.now tails.now edges.now depth v.0 room.old }
    ensures { WrittenFrom 0 (vertex_bill spans.now tails.now edges.now depth v.0) room.old result room.new }
{
    let i = v.0 as usize;
    let root = edges[i];
    room[0] = root;
    let tail = columns::tail_of(Hyperedge(root), spans, tails);
    tail_bill(depth - 1, tail, spans, tails, edges, room, 1)
}

// The same for the bills of the vertices of a tail, one behind the other, in a room that is filled
// so far; gives how far it is filled then. A hyperedge that lists nothing is written with no call:
// most lines of a bill are such. A vertex that is listed again at once is not walked again: its bill
// stands right before, and is copied.
#[cycle(tail_bill_vertex_bill)]
fn tail_bill(
    depth: u64,
    tail: &[u64],
    spans: &[u64],
    tails: &[u64],
    edges: &[u64],
    room: &mut [u64],
    filled: usize,
) -> usize
    requires { TailFits spans.now tails.now edges.now depth tail.now filled room.old }
    ensures { WrittenFrom filled (tail_bill spans.now tails.now edges.now depth tail.now) room.old result room.new }
{
    let mut length = 0;
    let mut at = filled;
    for (i, &v) in tail.iter().enumerate() {
        let root = edges[v as usize];
        let e = root as usize;
        let listed = spans[2 * e + 1];
        if listed == 0 {
            room[at] = root;
            at += 1;
            continue;
        }
        if i > 0 {
            let before = tail[i - 1];
            if before == v {
                at = repeat(room, at, length);
                continue;
            }
        }
        length = vertex_bill(depth, Vertex(v), spans, tails, edges, &mut room[at..]);
        at += length;
    }
    at
}

// Whether the table, the answers and the part allow a bill: 1 to 7 and 21, 11, 8 and 12.
fn check_part(
    measure: Measure,
    table: &Table,
    entries: &Entries,
    part: Vertex,
) -> Result<(), Refusal>
    ensures { let c = columns_of table.now in
        let a = entries_in entries.now in
        result ≡ part_acceptance measure c a part.0 }
{
    let Entries { depths, .. } = *entries;
    let Table { vertices: n, .. } = *table;
    columns::check_lent(table, entries)?;
    if part.0 >= n {
        return Err(Refusal::NoSuchVertex);
    }
    if !settle::answers_right(measure, table, entries) {
        return Err(Refusal::WrongAnswers);
    }
    let i = part.0 as usize;
    if depths[i] == 0 {
        return Err(Refusal::Underivable);
    }
    Ok(())
}

// What the bill of v leaves of a budget, with a column of its own of N places for the lengths.
fn spend_with<const N: usize>(
    depth: u64,
    v: Vertex,
    spans: &[u64],
    tails: &[u64],
    edges: &[u64],
    budget: usize,
) -> Option<usize>
    requires { (Grounded spans.now tails.now edges.now depth v.0) × (length edges.now ≤ N) × (N ≤ most_vertices) }
    ensures { result ≡ spend budget (length (vertex_bill spans.now tails.now edges.now depth v.0)) }
{
    let mut lengths = [0u64; N];
    vertex_spend(depth, v, spans, tails, edges, &mut lengths, budget)
}

// The same, with as many places as the table asks for: a table of few vertices is given few, as every
// place has to be cleared.
fn spend_all(
    depth: u64,
    v: Vertex,
    spans: &[u64],
    tails: &[u64],
    edges: &[u64],
    budget: usize,
) -> Option<usize>
    requires { (Grounded spans.now tails.now edges.now depth v.0) × (length edges.now ≤ most_vertices) }
    ensures { result ≡ spend budget (length (vertex_bill spans.now tails.now edges.now depth v.0)) }
{
    if edges.len() <= 64 {
        return spend_with::<64>(depth, v, spans, tails, edges, budget);
    }
    spend_with::<1024>(depth, v, spans, tails, edges, budget)
}

// Prints the bill of v, which is at most `depth` deep. Nothing is written before the whole bill is
// known to fit: 13.
fn print(
    depth: u64,
    v: Vertex,
    spans: &[u64],
    tails: &[u64],
    edges: &[u64],
    room: &mut [u64],
) -> Result<u64, Refusal>
    requires { (Grounded spans.now tails.now edges.now depth v.0) × (length edges.now ≤ most_vertices) }
    ensures { record { result = result; left = room.new } ≡ printed (vertex_bill spans.now tails.now edges.now depth v.0) room.old }
{
    match spend_all(depth, v, spans, tails, edges, room.len()) {
        None => return Err(Refusal::BillRoom),
        Some(_) => {}
    }
    let length = vertex_bill(depth, v, spans, tails, edges, room);
    Ok(length as u64)
}

// Prints the bill of a part from the start of the room, and gives its length.
pub fn bill(
    measure: Measure,
    table: &Table,
    entries: &Entries,
    part: Vertex,
    room: &mut [u64],
) -> Result<u64, Refusal>
    ensures { let c = columns_of table.now in
        let a = entries_in entries.now in
        record { result = result; left = room.new } ≡ billed measure c a part.0 room.old }
{
    let Entries { depths, edges, .. } = *entries;
    let Table { spans, tails, .. } = *table;
    check_part(measure, table, entries, part)?;
    let i = part.0 as usize;
    let depth = depths[i];
    print(depth, part, spans, tails, edges, room)
}

// The lines that need a part, as they stand in the text, each behind its number.
//
// Kept: columns and rooms are lent, or arrays of a fixed size: the library and its programs use no heap.

#![tactic(auto)]

ghost use Rattle.std.specs.Prelude.{◌≡◌, [], ◌∷◌, ◌++◌, ◌≤◌, length, Ok};
ghost use Rattle.weights.specs.Choice.{pick};
ghost use Rattle.weights.specs.Lists.{member};
ghost use Rattle.columns.specs.Columns.{columns, tail_at};
ghost use Rattle.columns.specs.Acceptance.{acceptance};
ghost use Rattle.columns.specs.Given.{columns_of};
ghost use Rattle.text.specs.Tables.{edge};
ghost use Rattle.text.specs.Render.{digits, edge_text};
ghost use Rattle.writing.specs.Written.{Written};
ghost use Rattle.reply.specs.Reply.{most_reply, Replied};
ghost use Rattle.whereused.specs.WhereUsed.{use_row, uses_said, most_use, RowIn};

use columns::Table;
use refusal::Refusal;
use reply::{Reply, Status, put_refusal};
use weights::{Hyperedge, Mark, Vertex, Weight};
use writing::{put_edge, put_number};

// A line of the text behind a space.
fn put_spaced_edge(room: &mut [u8], head: Vertex, own: Weight, mark: Mark, tail: &[u64]) -> usize
    requires { length (32 ∷ (edge_text (edge head.0 own.0 mark.0 tail.now) ++ 10 ∷ [])) ≤ length room.old }
    ensures { let line = edge_text (edge head.0 own.0 mark.0 tail.now) ++ 10 ∷ [] in
        Written (32 ∷ line) room.old result room.new }
{
    room[0] = b' ';
    let at: usize = 1;
    let width = put_edge(&mut room[at..], head, own, mark, tail);
    at + width
}

// A line of the text behind its number.
fn put_row(
    room: &mut [u8],
    e: Hyperedge,
    head: Vertex,
    own: Weight,
    mark: Mark,
    tail: &[u64],
) -> usize
    requires { length (digits e.0 ++ (32 ∷ (edge_text (edge head.0 own.0 mark.0 tail.now) ++ 10 ∷ []))) ≤ length room.old }
    ensures { let line = edge_text (edge head.0 own.0 mark.0 tail.now) ++ 10 ∷ [] in
        Written (digits e.0 ++ (32 ∷ line)) room.old result room.new }
{
    let at = put_number(room, e.0);
    let width = put_spaced_edge(&mut room[at..], head, own, mark, tail);
    at + width
}

// The row of a line if it needs the part, and nothing if it does not.
fn put_use(room: &mut [u8], table: &Table, e: Hyperedge, part: Vertex) -> usize
    requires { RowIn (columns 0 table.now.heads.now table.now.own.now table.now.strikes.now table.now.spans.now table.now.tails.now) e.0 (length room.old) }
    ensures fact { let c = columns 0 table.now.heads.now table.now.own.now table.now.strikes.now table.now.spans.now table.now.tails.now in
        Written (pick (member part.0 (tail_at c e.0)) (use_row c e.0) []) room.old result room.new }
    ensures upper_bound { result ≤ most_use }
{
    let Table {
        heads,
        own,
        strikes,
        spans,
        tails,
        ..
    } = *table;
    let tail = columns::tail_of(e, spans, tails);
    if !uses::stands_in(tail, part) {
        return 0;
    }
    let i = e.0 as usize;
    let head = heads[i];
    let weight = own[i];
    let mark = strikes[i];
    put_row(room, e, Vertex(head), Weight(weight), Mark(mark), tail)
}

// The lines of an accepted table that need a part.
pub fn put_uses(room: &mut [u8], table: &Table, part: Vertex) -> Reply
    requires tails_value { acceptance (columns_of table.now) ≡ (Ok tt) }
    requires most_reply_in_bounds { most_reply ≤ length room.old }
    ensures { let c = columns_of table.now in
        Replied (uses_said c part.0) room.old result room.new }
{
    let Table {
        vertices: n,
        heads,
        ..
    } = *table;
    if part.0 >= n {
        return put_refusal(room, Refusal::NoSuchVertex);
    }
    let mut at: usize = 0;
    for i in 0..heads.len() {
        let e = Hyperedge(i as u64);
        at += put_use(&mut room[at..], table, e, part);
    }
    Reply {
        width: at,
        status: Status::Answered,
    }
}

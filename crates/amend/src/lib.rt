// The commands that change a table and print its text as it then is.
//
// Kept: columns and rooms are lent, or arrays of a fixed size: the library and its programs use no heap.

#![tactic(auto)]

ghost use Rattle.std.specs.Prelude.{◌≤◌, length};
ghost use Rattle.weights.specs.Figures.{standing};
ghost use Rattle.columns.specs.Columns.{columns, entries};
ghost use Rattle.columns.specs.Longer.{new_line, in_use_of};
ghost use Rattle.columns.specs.Given.{columns_of};
ghost use Rattle.reply.specs.Reply.{most_reply, on_acceptance, Replied};
ghost use Rattle.amend.specs.Amend.{Placed, text_said, repriced_said, stricken_said, restored_said, appended_said};

use append::NewLine;
use columns::Table;
use refusal::{Counts, Refusal};
use reply::{Reply, Status, put_refusal};
use weights::{Hyperedge, Mark, Measure, Vertex, Weight};

// The text of a table. One that would be longer than an input may be is refused: it could not be
// read back.
pub fn put_text(room: &mut [u8], measure: Measure, table: &Table) -> Reply
    requires { most_reply ≤ length room.old }
    ensures { let c = columns_of table.now in
        Replied (text_said measure c) room.old result room.new }
{
    let extent = writetable::write_table(measure, table, &mut room[..report::MOST_INPUT]);
    match extent {
        Err(r) => return put_refusal(room, r),
        Ok(width) => {
            return Reply {
                width: width as usize,
                status: Status::Answered,
            };
        }
    }
}

// The text of a table that was changed, or by what the change is refused.
fn put_changed(
    room: &mut [u8],
    answer: Result<(), Refusal>,
    measure: Measure,
    table: &Table,
) -> Reply
    requires { most_reply ≤ length room.old }
    ensures { let c = columns_of table.now in
        Replied (on_acceptance answer (text_said measure c)) room.old result room.new }
{
    match answer {
        Err(r) => put_refusal(room, r),
        Ok(()) => put_text(room, measure, table),
    }
}

// A line is repriced.
pub fn put_repriced<'a>(
    room: &mut [u8],
    measure: Measure,
    n: u64,
    heads: &'a [u64],
    own: &'a mut [u64],
    strikes: &'a [u64],
    spans: &'a [u64],
    tails: &'a [u64],
    weights: &mut [u64],
    depths: &mut [u64],
    edges: &mut [u64],
    pieces: &mut [u64],
    line: Hyperedge,
    figure: Weight,
) -> Reply
    requires { most_reply ≤ length room.old }
    ensures { let c = columns n heads.now own.old strikes.now spans.now tails.now in
        let a = entries weights.old depths.old edges.old pieces.old in
        Replied (repriced_said measure c a line.0 figure.0) room.old result room.new }
{
    let answer = reprice::reprice(
        measure, n, heads, own, strikes, spans, tails, weights, depths, edges, pieces, line, figure,
    );
    put_changed(
        room,
        answer,
        measure,
        &Table {
            vertices: n,
            heads,
            own,
            strikes,
            spans,
            tails,
        },
    )
}

// A line is struck.
pub fn put_stricken<'a>(
    room: &mut [u8],
    measure: Measure,
    n: u64,
    heads: &'a [u64],
    own: &'a [u64],
    strikes: &'a mut [u64],
    spans: &'a [u64],
    tails: &'a [u64],
    weights: &mut [u64],
    depths: &mut [u64],
    edges: &mut [u64],
    pieces: &mut [u64],
    line: Hyperedge,
) -> Reply
    requires { most_reply ≤ length room.old }
    ensures { let c = columns n heads.now own.now strikes.old spans.now tails.now in
        let a = entries weights.old depths.old edges.old pieces.old in
        Replied (stricken_said measure c a line.0) room.old result room.new }
{
    let answer = reprice::strike(
        measure, n, heads, own, strikes, spans, tails, weights, depths, edges, pieces, line,
    );
    put_changed(
        room,
        answer,
        measure,
        &Table {
            vertices: n,
            heads,
            own,
            strikes,
            spans,
            tails,
        },
    )
}

// A struck line stands again.
pub fn put_restored<'a>(
    room: &mut [u8],
    measure: Measure,
    n: u64,
    heads: &'a [u64],
    own: &'a [u64],
    strikes: &'a mut [u64],
    spans: &'a [u64],
    tails: &'a [u64],
    weights: &mut [u64],
    depths: &mut [u64],
    edges: &mut [u64],
    pieces: &mut [u64],
    line: Hyperedge,
) -> Reply
    requires { most_reply ≤ length room.old }
    ensures { let c = columns n heads.now own.now strikes.old spans.now tails.now in
        let a = entries weights.old depths.old edges.old pieces.old in
        Replied (restored_said measure c a line.0) room.old result room.new }
{
    let answer = reprice::restore(
        measure, n, heads, own, strikes, spans, tails, weights, depths, edges, pieces, line,
    );
    put_changed(
        room,
        answer,
        measure,
        &Table {
            vertices: n,
            heads,
            own,
            strikes,
            spans,
            tails,
        },
    )
}

// The text of the table of the counts in use.
fn put_in_use(room: &mut [u8], measure: Measure, table: &Table, in_use: Counts) -> Reply
    requires most_reply_in_bounds { most_reply ≤ length room.old }
    requires placed { Placed (columns_of table.now) in_use }
    ensures { let c = columns_of table.now in
        Replied (text_said measure (in_use_of c in_use)) room.old result room.new }
{
    let Table {
        vertices: n,
        heads,
        own,
        strikes,
        spans,
        tails,
    } = *table;
    let lines = in_use.edges as usize;
    let places = 2 * lines;
    let listed = in_use.listed as usize;
    put_text(
        room,
        measure,
        &Table {
            vertices: n,
            heads: &heads[..lines],
            own: &own[..lines],
            strikes: &strikes[..lines],
            spans: &spans[..places],
            tails: &tails[..listed],
        },
    )
}

// A standing line is appended. The text is that of the places then in use.
pub fn put_appended<'a>(
    room: &mut [u8],
    measure: Measure,
    n: u64,
    heads: &'a mut [u64],
    own: &'a mut [u64],
    strikes: &'a mut [u64],
    spans: &'a mut [u64],
    tails: &'a mut [u64],
    in_use: Counts,
    weights: &mut [u64],
    depths: &mut [u64],
    edges: &mut [u64],
    pieces: &mut [u64],
    index: &mut [u64],
    list: &mut [u64],
    head: Vertex,
    figure: Weight,
    needed: &[u64],
) -> Reply
    requires { most_reply ≤ length room.old }
    ensures { let c = columns n heads.old own.old strikes.old spans.old tails.old in
        let a = entries weights.old depths.old edges.old pieces.old in
        let l = new_line head.0 figure.0 standing needed.now in
        Replied (appended_said measure c in_use a index.old list.old l) room.old result room.new }
{
    let answer = append::append(
        measure,
        n,
        heads,
        own,
        strikes,
        spans,
        tails,
        in_use,
        weights,
        depths,
        edges,
        pieces,
        index,
        list,
        &NewLine {
            head,
            own: figure,
            mark: Mark::STANDS,
            tail: needed,
        },
    );
    match answer {
        Err(r) => return put_refusal(room, r),
        Ok(counts) => {
            return put_in_use(
                room,
                measure,
                &Table {
                    vertices: n,
                    heads,
                    own,
                    strikes,
                    spans,
                    tails,
                },
                counts,
            );
        }
    }
}

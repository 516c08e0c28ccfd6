// Writing a table that is lent as columns into lent room.

#![tactic(auto)]

ghost use Rattle.std.specs.Prelude.{◌≡◌, length, Ok};
ghost use Rattle.columns.specs.Acceptance.{acceptance};
ghost use Rattle.columns.specs.Given.{columns_of};
ghost use Rattle.text.specs.Render.{render};
ghost use Rattle.writing.specs.Written.{Written};
ghost use Rattle.writetable.specs.Write.{write_outcome, write_table, Writable};

use columns::{Table, check_table};
use refusal::Refusal;
use weights::{Hyperedge, Mark, Measure, Vertex, Weight};
use writing::{edge_width, header_width, put_edge, put_header};

// How many bytes the text of an accepted table has.
fn text_width(measure: Measure, table: &Table) -> usize
    requires { acceptance (columns_of table.now) ≡ (Ok tt) }
    ensures { result ≡ length (render measure (columns_of table.now)) }
{
    let Table {
        vertices: n,
        heads,
        own,
        strikes,
        spans,
        tails,
    } = *table;
    let mut width = header_width(n, measure);
    for (i, head) in heads.iter().enumerate() {
        let tail = columns::tail_of(Hyperedge(i as u64), spans, tails);
        width += edge_width(Vertex(*head), Weight(own[i]), Mark(strikes[i]), tail);
    }
    width
}

// The text of an accepted table is written from the room's start.
fn put_text(measure: Measure, table: &Table, room: &mut [u8])
    requires { Writable measure (columns_of table.now) (length room.old) }
    ensures { let c = columns_of table.now in
        Written (render measure c) room.old (length (render measure c)) room.new }
{
    let Table {
        vertices: n,
        heads,
        own,
        strikes,
        spans,
        tails,
    } = *table;
    let mut at = put_header(room, n, measure);
    for (i, head) in heads.iter().enumerate() {
        let tail = columns::tail_of(Hyperedge(i as u64), spans, tails);
        at += put_edge(
            &mut room[at..],
            Vertex(*head),
            Weight(own[i]),
            Mark(strikes[i]),
            tail,
        );
    }
}

// A table is written, or refused: by 1 to 6 and 21 where its columns are not accepted, or where the
// room is too short. The text is measured before a byte is written.
pub fn write_table(measure: Measure, table: &Table, room: &mut [u8]) -> Result<u64, Refusal>
    ensures { let c = columns_of table.now in
        write_outcome result room.new ≡ write_table measure c room.old }
{
    check_table(table)?;
    let width = text_width(measure, table);
    if width > room.len() {
        return Err(Refusal::TextRoom);
    }
    put_text(measure, table, room);
    Ok(width as u64)
}

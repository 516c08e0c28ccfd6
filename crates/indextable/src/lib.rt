// The index of a table that is lent as columns: which lines need a part.
//
// Kept: columns and rooms are lent, or arrays of a fixed size: the library and its programs use no heap.

#![tactic(auto)]

ghost use Rattle.std.specs.Prelude.{◌≡◌, length};
ghost use Rattle.columns.specs.Columns.{tail_of};
ghost use Rattle.columns.specs.Given.{columns_of};
ghost use Rattle.uses.specs.Uses.{pairs_in};
ghost use Rattle.uses.specs.Indexable.{Measurable};
ghost use Rattle.indextable.specs.Index.{index_by, index_room, index_outcome, held_acceptance, table_indexed};
ghost use Rattle.indextable.specs.Checkable.{Checkable, Held};

use columns::Table;
use refusal::Refusal;

// The index at the start of the two columns, and its list's length; or 18, and they are as they were.
// It is worked out in `pairs`, two places for each part, so that the list's length is known before a
// place is written.
fn index_with(
    spans: &[u64],
    tails: &[u64],
    pairs: &mut [u64],
    index: &mut [u64],
    list: &mut [u64],
) -> Result<u64, Refusal>
    requires { Measurable spans.now tails.now pairs.old }
    ensures { let n = pairs_in pairs.old in
        let x = index_by (tail_of spans.now tails.now) (pairs_in spans.now) n in
        let i = index.old in
        let l = list.old in
        record { result = result; index = index.new; list = list.new } ≡ index_outcome x i l (index_room n (length x.list) i l) }
{
    if index.len() < pairs.len() {
        return Err(Refusal::ColumnRoom);
    }
    let total = uses::offsets(spans, tails, pairs);
    if (list.len() as u64) < total {
        return Err(Refusal::ColumnRoom);
    }
    uses::fill(spans, tails, pairs, list);
    columns::put(pairs, index);
    Ok(total)
}

// Leaves the index of a table at the start of the two columns, a pair of offset and length for each
// part and the list, and returns the list's length; or refuses and leaves the columns as they are.
pub fn index_table(table: &Table, index: &mut [u64], list: &mut [u64]) -> Result<u64, Refusal>
    ensures { let c = columns_of table.now in
        record { result = result; index = index.new; list = list.new } ≡ table_indexed c index.old list.old }
{
    let Table {
        vertices: n,
        spans,
        tails,
        ..
    } = *table;
    columns::check_table(table)?;
    let mut room = [0u64; 2048];
    let places = 2 * n as usize;
    index_with(spans, tails, &mut room[..places], index, list)
}

// 18 and 19: whether the two columns have room for an index with so many lines more in its list, and
// begin with the index as it is, which is built in `pairs` and `lines`.
fn held_with(
    spans: &[u64],
    tails: &[u64],
    more: u64,
    pairs: &mut [u64],
    lines: &mut [u64],
    index: &[u64],
    list: &[u64],
) -> Result<(), Refusal>
    requires { Held spans.now tails.now more pairs.old lines.old }
    ensures { let n = pairs_in pairs.old in
        let x = index_by (tail_of spans.now tails.now) (pairs_in spans.now) n in
        result ≡ held_acceptance n more x index.now list.now }
{
    let places = pairs.len();
    if index.len() < places {
        return Err(Refusal::ColumnRoom);
    }
    let total = uses::index_uses(spans, tails, pairs, lines);
    if (list.len() as u64) < total + more {
        return Err(Refusal::ColumnRoom);
    }
    if !columns::equal(&index[..places], pairs) {
        return Err(Refusal::WrongIndex);
    }
    let size = total as usize;
    if !columns::equal(&list[..size], &lines[..size]) {
        return Err(Refusal::WrongIndex);
    }
    Ok(())
}

// Whether the two columns hold the index of an accepted table, with room for a line that lists so
// many different parts.
pub fn check_index(
    n: u64,
    spans: &[u64],
    tails: &[u64],
    more: u64,
    index: &[u64],
    list: &[u64],
) -> Result<(), Refusal>
    requires { Checkable n spans.now tails.now more }
    ensures { let x = index_by (tail_of spans.now tails.now) (pairs_in spans.now) n in
        result ≡ held_acceptance n more x index.now list.now }
{
    let mut room = [0u64; 2048];
    let mut lines = [0u64; 16384];
    let places = 2 * n as usize;
    held_with(
        spans,
        tails,
        more,
        &mut room[..places],
        &mut lines,
        index,
        list,
    )
}

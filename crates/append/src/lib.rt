// Appending a line to a table whose columns are lent with places to spare, together with the counts
// in use. Everything is checked before anything lent is written; then the line is stored, and index
// and answers are those of the longer table.

#![tactic(auto)]

ghost use Rattle.std.specs.Prelude.{◌≡◌, ◌++◌, ◌+◌, ◌*◌, ◌≤◌, length, set, take, drop, leb};
ghost use Rattle.columns.specs.Columns.{columns, entries};
ghost use Rattle.columns.specs.Acceptance.{most_listed, and_then};
ghost use Rattle.columns.specs.Filled.{filled};
ghost use Rattle.columns.specs.Longer.{end_in, in_use_of};
ghost use Rattle.columns.specs.Given.{columns_of, entries_in};
ghost use Rattle.uses.specs.Uses.{distinct_in};
ghost use Rattle.settle.specs.Settling.{entries_of};
ghost use Rattle.settle.specs.Checking.{answers_acceptance};
ghost use Rattle.indextable.specs.Index.{index_of, held_acceptance};
ghost use Rattle.append.specs.Appending.{counts_acceptance, new_line_acceptance, sized_acceptance, room_acceptance, lines_acceptance, columns_acceptance, append_acceptance, leaves, appended};
ghost use Rattle.append.specs.Growing.{Spanned, Storable, Holding, Renewable};
ghost use Rattle.append.specs.Given.{new_line_of};

use columns::{Entries, Table};
use refusal::{Counts, Refusal};
use weights::{Hyperedge, Mark, Measure, Vertex, Weight};

// A line that is to be appended, with the needed parts that are its tail.
#[derive(Clone, Copy)]
pub struct NewLine<'a> {
    pub head: Vertex,
    pub own: Weight,
    pub mark: Mark,
    pub tail: &'a [u64],
}

// Whether so many needed parts behind the last of the spans are within the limit. The spans are not
// checked yet, so the sums saturate and do not wrap.
fn end_fits(lines: u64, spans: &[u64], size: usize) -> bool
    requires { 2 * lines ≤ length spans.now }
    ensures { result ≡ leb (end_in spans.now lines + size) most_listed }
{
    let most = columns::MOST_LISTED as u64;
    if lines == 0 {
        return size as u64 <= most;
    }
    let last = lines as usize - 1;
    let end = spans[2 * last].saturating_add(spans[2 * last + 1]);
    end.saturating_add(size as u64) <= most
}

// Where the last of the spans ends, which is within the limit.
fn end_of(lines: u64, spans: &[u64]) -> u64
    requires { (2 * lines ≤ length spans.now) × (end_in spans.now lines ≤ most_listed) }
    ensures { result ≡ end_in spans.now lines }
{
    if lines == 0 {
        return 0;
    }
    let last = lines as usize - 1;
    let offset = spans[2 * last];
    let length = spans[2 * last + 1];
    offset + length
}

// 1; and 2 by the counts in use, of which the lengths of the columns may be more.
fn check_counts(table: &Table, in_use: Counts, size: usize) -> Result<(), Refusal>
    ensures { let c = columns_of table.now in
        result ≡ counts_acceptance c in_use size }
{
    let Table {
        vertices: n,
        heads,
        own,
        strikes,
        spans,
        tails,
    } = *table;
    if n > columns::MOST_VERTICES {
        return Err(Refusal::TooManyVertices);
    }
    let lines = in_use.edges;
    if lines > heads.len() as u64 {
        return Err(Refusal::Lengths);
    }
    if lines > own.len() as u64 {
        return Err(Refusal::Lengths);
    }
    if lines > strikes.len() as u64 {
        return Err(Refusal::Lengths);
    }
    if lines >= columns::MOST_EDGES as u64 {
        return Err(Refusal::Lengths);
    }
    if 2 * lines > spans.len() as u64 {
        return Err(Refusal::Lengths);
    }
    let listed = in_use.listed;
    if listed > tails.len() as u64 {
        return Err(Refusal::Lengths);
    }
    if listed > columns::MOST_LISTED as u64 {
        return Err(Refusal::Lengths);
    }
    if end_fits(lines, spans, size) {
        return Ok(());
    }
    Err(Refusal::Lengths)
}

// 3, 4, 21, 5 and 6 of the new line, which is to have this number.
fn check_line(n: u64, number: Hyperedge, line: &NewLine) -> Result<(), Refusal>
    ensures { result ≡ new_line_acceptance n number (new_line_of line.now) }
{
    let NewLine {
        head,
        own,
        mark,
        tail,
    } = *line;
    if head.0 >= n {
        return Err(Refusal::Head(number));
    }
    // Kept: numbers are compared, as in `columns::check_fields`.
    if own.0 > Weight::GREATEST.0 {
        return Err(Refusal::Own(number));
    }
    if mark.0 > Mark::STRUCK.0 {
        return Err(Refusal::StrikeMark(number));
    }
    if tail.len() as u64 > columns::LONGEST_TAIL {
        return Err(Refusal::Span(number));
    }
    if columns::all_below(n, tail) {
        return Ok(());
    }
    Err(Refusal::Tail(number))
}

// 7: whether the answer columns are n long.
fn check_sizes(n: u64, entries: &Entries) -> Result<(), Refusal>
    ensures { result ≡ sized_acceptance n (entries_in entries.now) }
{
    let Entries {
        weights,
        depths,
        edges,
        pieces,
    } = *entries;
    if weights.len() as u64 != n {
        return Err(Refusal::AnswerLength);
    }
    if depths.len() as u64 != n {
        return Err(Refusal::AnswerLength);
    }
    if edges.len() as u64 != n {
        return Err(Refusal::AnswerLength);
    }
    if pieces.len() as u64 != n {
        return Err(Refusal::AnswerLength);
    }
    Ok(())
}

// 18: whether the columns of the table have places for the new line and its needed parts.
fn check_room(table: &Table, lines: u64, size: usize) -> Result<(), Refusal>
    requires { Spanned table.now.spans.now lines size }
    ensures { result ≡ room_acceptance table.now.heads.now table.now.own.now table.now.strikes.now table.now.spans.now table.now.tails.now lines size }
{
    let Table {
        heads,
        own,
        strikes,
        spans,
        tails,
        ..
    } = *table;
    if lines >= heads.len() as u64 {
        return Err(Refusal::ColumnRoom);
    }
    if lines >= own.len() as u64 {
        return Err(Refusal::ColumnRoom);
    }
    if lines >= strikes.len() as u64 {
        return Err(Refusal::ColumnRoom);
    }
    if 2 * lines + 2 > spans.len() as u64 {
        return Err(Refusal::ColumnRoom);
    }
    let end = end_of(lines, spans);
    if end + size as u64 > tails.len() as u64 {
        return Err(Refusal::ColumnRoom);
    }
    Ok(())
}

// 1, 2, the lines that stand, and the new line.
fn check_lines(table: &Table, in_use: Counts, line: &NewLine) -> Result<(), Refusal>
    ensures { let c = columns_of table.now in
        result ≡ lines_acceptance c in_use (new_line_of line.now) }
{
    let Table {
        vertices: n,
        heads,
        own,
        strikes,
        spans,
        tails,
    } = *table;
    check_counts(table, in_use, line.tail.len())?;
    let edges = in_use.edges;
    let lines = edges as usize;
    let places = 2 * lines;
    let listed = in_use.listed as usize;
    columns::check_table(&Table {
        vertices: n,
        heads: &heads[..lines],
        own: &own[..lines],
        strikes: &strikes[..lines],
        spans: &spans[..places],
        tails: &tails[..listed],
    })?;
    check_line(n, Hyperedge(edges), line)
}

// The same, then 7, and 18 of the table's columns.
fn check_columns(
    table: &Table,
    in_use: Counts,
    entries: &Entries,
    line: &NewLine,
) -> Result<(), Refusal>
    ensures { let c = columns_of table.now in
        let a = entries_in entries.now in
        result ≡ columns_acceptance c in_use a (new_line_of line.now) }
{
    let Table { vertices: n, .. } = *table;
    check_lines(table, in_use, line)?;
    check_sizes(n, entries)?;
    let lines = in_use.edges;
    check_room(table, lines, line.tail.len())
}

// 18 of the index with a line more, 19 and 8, of an accepted table.
fn check_held(
    measure: Measure,
    table: &Table,
    entries: &Entries,
    index: &[u64],
    list: &[u64],
    needed: &[u64],
) -> Result<(), Refusal>
    requires { let c = columns_of table.now in
        let a = entries_in entries.now in
        Holding c a needed.now }
    ensures { let c = columns_of table.now in
        let a = entries_in entries.now in
        let more = distinct_in needed.now (length needed.now) in
        result ≡ and_then (held_acceptance table.now.vertices more (index_of c) index.now list.now) (answers_acceptance measure c a) }
{
    let Table {
        vertices: n,
        spans,
        tails,
        ..
    } = *table;
    let more = uses::distinct(needed);
    indextable::check_index(n, spans, tails, more, index, list)?;
    if settle::answers_right(measure, table, entries) {
        return Ok(());
    }
    Err(Refusal::WrongAnswers)
}

// Every check, in the order of the refusals.
fn check<'a>(
    measure: Measure,
    n: u64,
    heads: &'a [u64],
    own: &'a [u64],
    strikes: &'a [u64],
    spans: &'a [u64],
    tails: &'a [u64],
    in_use: Counts,
    weights: &'a [u64],
    depths: &'a [u64],
    edges: &'a [u64],
    pieces: &'a [u64],
    index: &[u64],
    list: &[u64],
    line: &NewLine,
) -> Result<(), Refusal>
    ensures { let c = columns n heads.now own.now strikes.now spans.now tails.now in
        let a = entries weights.now depths.now edges.now pieces.now in
        let l = new_line_of line.now in
        result ≡ append_acceptance measure c in_use a index.now list.now l }
{
    let table = Table {
        vertices: n,
        heads,
        own,
        strikes,
        spans,
        tails,
    };
    let entries = Entries {
        weights,
        depths,
        edges,
        pieces,
    };
    check_columns(&table, in_use, &entries, line)?;
    let lines = in_use.edges as usize;
    let places = 2 * lines;
    let listed = in_use.listed as usize;
    check_held(
        measure,
        &Table {
            vertices: n,
            heads: &heads[..lines],
            own: &own[..lines],
            strikes: &strikes[..lines],
            spans: &spans[..places],
            tails: &tails[..listed],
        },
        &entries,
        index,
        list,
        line.tail,
    )
}

// The line goes into its places, its needed parts to where the last span ends.
fn store_line(
    heads: &mut [u64],
    own: &mut [u64],
    strikes: &mut [u64],
    spans: &mut [u64],
    tails: &mut [u64],
    number: Hyperedge,
    end: u64,
    line: &NewLine,
)
    requires { Storable heads.old own.old strikes.old spans.old tails.old number.0 end (length line.now.tail.now) }
    ensures { let m = number.0 in
        let h = heads.new ≡ set heads.old m line.now.head.0 in
        let o = own.new ≡ set own.old m line.now.own.0 in
        let k = strikes.new ≡ set strikes.old m line.now.mark.0 in
        let s = spans.new ≡ set (set spans.old (2 * m) end) (2 * m + 1) (length line.now.tail.now) in
        let t = tails.new ≡ take end tails.old ++ filled line.now.tail.now (drop end tails.old) in
        h × (o × (k × (s × t))) }
{
    let i = number.0 as usize;
    heads[i] = line.head.0;
    own[i] = line.own.0;
    strikes[i] = line.mark.0;
    spans[2 * i] = end;
    spans[2 * i + 1] = line.tail.len() as u64;
    let from = end as usize;
    // Kept: by `columns::put`, that is std's `copy_from_slice`, the archive for C would ask for `memmove`.
    for (k, v) in line.tail.iter().enumerate() {
        tails[from + k] = *v;
    }
}

// Index and answers become those of the table in use, whatever the columns held.
fn renew<'a>(
    measure: Measure,
    n: u64,
    heads: &'a [u64],
    own: &'a [u64],
    strikes: &'a [u64],
    spans: &'a [u64],
    tails: &'a [u64],
    in_use: Counts,
    weights: &mut [u64],
    depths: &mut [u64],
    edges: &mut [u64],
    pieces: &mut [u64],
    index: &mut [u64],
    list: &mut [u64],
)
    requires { let c = columns n heads.now own.now strikes.now spans.now tails.now in
        let a = entries weights.old depths.old edges.old pieces.old in
        Renewable c in_use a index.old list.old }
    ensures { let t = in_use_of (columns n heads.now own.now strikes.now spans.now tails.now) in_use in
        let a' = entries weights.new depths.new edges.new pieces.new in
        let i = index.new ≡ filled (index_of t).pairs index.old in
        let l = list.new ≡ filled (index_of t).list list.old in
        (a' ≡ entries_of measure t) × (i × l) }
{
    let lines = in_use.edges as usize;
    let places = 2 * lines;
    let listed = in_use.listed as usize;
    let pairs = 2 * n as usize;
    uses::index_uses(
        &spans[..places],
        &tails[..listed],
        &mut index[..pairs],
        list,
    );
    settle::label(
        measure,
        &Table {
            vertices: n,
            heads: &heads[..lines],
            own: &own[..lines],
            strikes: &strikes[..lines],
            spans: &spans[..places],
            tails: &tails[..listed],
        },
        weights,
        depths,
        edges,
        pieces,
    );
}

// The line is appended behind the lines in use, and table, index and answers are those of the longer
// table, whose counts are returned; or a refusal, and nothing has changed.
pub fn append(
    measure: Measure,
    n: u64,
    heads: &mut [u64],
    own: &mut [u64],
    strikes: &mut [u64],
    spans: &mut [u64],
    tails: &mut [u64],
    in_use: Counts,
    weights: &mut [u64],
    depths: &mut [u64],
    edges: &mut [u64],
    pieces: &mut [u64],
    index: &mut [u64],
    list: &mut [u64],
    line: &NewLine,
) -> Result<Counts, Refusal>
    ensures { let c = columns n heads.old own.old strikes.old spans.old tails.old in
        let c' = columns n heads.new own.new strikes.new spans.new tails.new in
        let a = entries weights.old depths.old edges.old pieces.old in
        let a' = entries weights.new depths.new edges.new pieces.new in
        let l = new_line_of line.now in
        let o = leaves result c' a' index.new list.new in
        o ≡ appended measure c in_use a index.old list.old l }
{
    check(
        measure, n, heads, own, strikes, spans, tails, in_use, weights, depths, edges, pieces,
        index, list, line,
    )?;
    let lines = in_use.edges;
    let end = end_of(lines, spans);
    let number = Hyperedge(lines);
    store_line(heads, own, strikes, spans, tails, number, end, line);
    let counts = Counts {
        edges: lines + 1,
        listed: end + line.tail.len() as u64,
    };
    renew(
        measure, n, heads, own, strikes, spans, tails, counts, weights, depths, edges, pieces,
        index, list,
    );
    Ok(counts)
}

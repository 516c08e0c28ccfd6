// The check of a table that is lent as columns of numbers, which may have any lengths and hold any
// numbers.

#![tactic(auto)]

ghost use Rattle.std.specs.Prelude.{◌≡◌, ◌*◌, ◌≤◌, length, replicate};
ghost use Rattle.columns.specs.Columns.{tail_of};
ghost use Rattle.columns.specs.Filled.{filled};
ghost use Rattle.columns.specs.Lent.{Placed};
ghost use Rattle.columns.specs.Same.{equal};
ghost use Rattle.columns.specs.Acceptance.{all_below, fields_acceptance, edge_acceptance, edges_acceptance, sizes_acceptance, acceptance, lent_acceptance};
ghost use Rattle.columns.specs.Given.{columns_of, entries_in};

use refusal::Refusal;
use weights::{Hyperedge, Mark, Vertex, Weight};

// The greatest numbers of vertices, of hyperedges, of listed vertices in all and of one hyperedge.
pub const MOST_VERTICES: u64 = 1024;

pub const MOST_EDGES: usize = 4096;

pub const MOST_LISTED: usize = 16384;

pub const LONGEST_TAIL: u64 = 16;

// A table that is lent as columns, for a call to read: hyperedge e has the head heads[e], the own weight
// own[e], the strike mark strikes[e], and the tail of spans[2 * e + 1] vertices that starts at
// spans[2 * e] in tails.
#[derive(Clone, Copy)]
pub struct Table<'a> {
    pub vertices: u64,
    pub heads: &'a [u64],
    pub own: &'a [u64],
    pub strikes: &'a [u64],
    pub spans: &'a [u64],
    pub tails: &'a [u64],
}

// Kept: columns that a call writes are parameters of their own. After a call, a clause could name the
// columns of a struct of `&mut` slices only by their places in nested pairs, which says less.
//
// A table's answers that are lent to be read: vertex v has the weight weights[v], the depth depths[v],
// the hyperedge edges[v] and the piece count pieces[v].
#[derive(Clone, Copy)]
pub struct Entries<'a> {
    pub weights: &'a [u64],
    pub depths: &'a [u64],
    pub edges: &'a [u64],
    pub pieces: &'a [u64],
}

// Whether each number of a list is below n. The list is looked through to its end, without a branch
// for each number: long columns are nearly always right.
pub fn all_below(n: u64, list: &[u64]) -> bool
    ensures { result ≡ all_below n list.now }
{
    list.iter().fold(true, |below, v| below & (*v < n))
}

// What is wrong with hyperedge e, its tail apart: that is `size` vertices from `offset` on in the column
// of tails, where the tail before it ends at `end`. `offset + size` could wrap, so it is not computed
// before the offset is known to be within the column.
pub fn check_fields(
    n: u64,
    e: Hyperedge,
    head: Vertex,
    own: Weight,
    mark: Mark,
    offset: u64,
    size: u64,
    end: u64,
    tails: &[u64],
) -> Result<(), Refusal>
    ensures { result ≡ fields_acceptance n e head.0 own.0 mark.0 offset size end (length tails.now) }
{
    if head.0 >= n {
        return Err(Refusal::Head(e));
    }
    // Kept: numbers are compared. The derived order of `Weight` and `Mark` tells the proof of an `Ordering`,
    // from which its search does not find the number's bound; that was tried.
    if own.0 > Weight::GREATEST.0 {
        return Err(Refusal::Own(e));
    }
    if mark.0 > Mark::STRUCK.0 {
        return Err(Refusal::StrikeMark(e));
    }
    if offset < end {
        return Err(Refusal::Span(e));
    }
    if size > LONGEST_TAIL {
        return Err(Refusal::Span(e));
    }
    let all = tails.len() as u64;
    if offset > all {
        return Err(Refusal::Span(e));
    }
    if offset + size > all {
        return Err(Refusal::Span(e));
    }
    Ok(())
}

// What is wrong with hyperedge e, its tail too. Where the column of tails is below n throughout,
// `clean`, no tail is read.
pub fn check_edge(
    n: u64,
    e: Hyperedge,
    head: Vertex,
    own: Weight,
    mark: Mark,
    offset: u64,
    size: u64,
    end: u64,
    tails: &[u64],
    clean: bool,
) -> Result<(), Refusal>
    requires { clean ≡ all_below n tails.now }
    ensures { result ≡ edge_acceptance n e head.0 own.0 mark.0 offset size end tails.now }
{
    check_fields(n, e, head, own, mark, offset, size, end, tails)?;
    if clean {
        return Ok(());
    }
    let from = offset as usize;
    let to = from + size as usize;
    if all_below(n, &tails[from..to]) {
        Ok(())
    } else {
        Err(Refusal::Tail(e))
    }
}

// Whether every hyperedge is accepted, or the first refusal. The column of tails is looked through
// once; a number in a gap may be n or more, and then the tails are read one by one.
fn check_edges(table: &Table) -> Result<(), Refusal>
    requires { (length table.now.own.now ≡ length table.now.heads.now) × (length table.now.strikes.now ≡ length table.now.heads.now) × (length table.now.spans.now ≡ 2 * length table.now.heads.now) }
    ensures { let c = columns_of table.now in
        result ≡ edges_acceptance c (length table.now.heads.now) 0 0 }
{
    let Table {
        vertices: n,
        heads,
        own,
        strikes,
        spans,
        tails,
    } = *table;
    let clean = all_below(n, tails);
    let mut end: u64 = 0;
    for (i, h) in heads.iter().enumerate() {
        let head = Vertex(*h);
        let weight = Weight(own[i]);
        let mark = Mark(strikes[i]);
        let offset = spans[2 * i];
        let size = spans[2 * i + 1];
        check_edge(
            n,
            Hyperedge(i as u64),
            head,
            weight,
            mark,
            offset,
            size,
            end,
            tails,
            clean,
        )?;
        end = offset + size;
    }
    Ok(())
}

// Whether there are not too many vertices, and the columns agree in length and are not too long.
pub fn check_sizes(table: &Table) -> Result<(), Refusal>
    ensures { result ≡ sizes_acceptance (columns_of table.now) }
{
    let Table {
        vertices: n,
        heads,
        own,
        strikes,
        spans,
        tails,
    } = *table;
    if n > MOST_VERTICES {
        return Err(Refusal::TooManyVertices);
    }
    if own.len() != heads.len() {
        return Err(Refusal::Lengths);
    }
    if strikes.len() != heads.len() {
        return Err(Refusal::Lengths);
    }
    if heads.len() > MOST_EDGES {
        return Err(Refusal::Lengths);
    }
    if spans.len() != 2 * heads.len() {
        return Err(Refusal::Lengths);
    }
    if tails.len() > MOST_LISTED {
        return Err(Refusal::Lengths);
    }
    Ok(())
}

// Whether the table of n vertices is accepted, or the first refusal.
pub fn check_table(table: &Table) -> Result<(), Refusal>
    ensures { result ≡ acceptance (columns_of table.now) }
{
    check_sizes(table)?;
    check_edges(table)
}

// The same with four answer columns, each of which must be n long.
pub fn check_lent(table: &Table, entries: &Entries) -> Result<(), Refusal>
    ensures { let c = columns_of table.now in
        let a = entries_in entries.now in
        result ≡ lent_acceptance c a }
{
    let Entries {
        weights,
        depths,
        edges,
        pieces,
    } = *entries;
    let Table { vertices: n, .. } = *table;
    check_table(table)?;
    if weights.len() as u64 != n {
        return Err(Refusal::AnswerLength);
    }
    if depths.len() as u64 != n {
        return Err(Refusal::AnswerLength);
    }
    if edges.len() as u64 != n {
        return Err(Refusal::AnswerLength);
    }
    if pieces.len() as u64 != n {
        return Err(Refusal::AnswerLength);
    }
    Ok(())
}

// The tail of a hyperedge.
pub fn tail_of<'a>(e: Hyperedge, spans: &[u64], tails: &'a [u64]) -> &'a [u64]
    requires { Placed spans.now tails.now e.0 }
    ensures { result.now ≡ tail_of spans.now tails.now e.0 }
{
    let i = e.0 as usize;
    let from = spans[2 * i] as usize;
    let to = from + spans[2 * i + 1] as usize;
    &tails[from..to]
}

// Every place of a lent column becomes x.
pub fn set_all(column: &mut [u64], x: u64)
    ensures { column.new ≡ replicate (length column.old) x }
{
    column.fill(x);
}

// These numbers become the start of a lent column; what stands behind them stays.
pub fn put(new: &[u64], column: &mut [u64])
    requires { length new.now ≤ length column.old }
    ensures { column.new ≡ filled new.now column.old }
{
    column[..new.len()].copy_from_slice(new);
}

// Whether two columns are the same.
pub fn equal(xs: &[u64], ys: &[u64]) -> bool
    ensures { result ≡ equal xs.now ys.now }
{
    xs == ys
}

// Tables in topological order: every hyperedge lists only vertices below its head. Their check, and
// their settling by one walk up the vertices, which needs no queue: when a vertex is visited, all that
// its hyperedges list has its label.
//
// Kept: columns and rooms are lent, or arrays of a fixed size: the library and its programs use no heap.

#![tactic(auto)]

ghost use Rattle.std.specs.Prelude.{◌≡◌, true, ◌*◌, ◌<◌, length};
ghost use Rattle.weights.specs.Measures.{algebra};
ghost use Rattle.provenance.specs.Labelling.{offer_of};
ghost use Rattle.provenance.specs.InOrder.{in_order};
ghost use Rattle.columns.specs.Columns.{answers, tail_of, cell, entries};
ghost use Rattle.columns.specs.Acceptance.{most_edges, all_below};
ghost use Rattle.columns.specs.Given.{columns_of, lent_of, entries_in};
ghost use Rattle.columns.proofs.Accepted.{AcceptedLabels};
ghost use Rattle.tables.specs.Table.{hypergraph};
ghost use Rattle.pieces.specs.Counting.{counted, Countable};
ghost use Rattle.queue.specs.Keys.{key_of};
ghost use Rattle.offers.specs.Passing.{Passable};
ghost use Rattle.topological.specs.Ordering.{ordered_edge, ordered_edges_acceptance, ordered_acceptance, ordered_lent_acceptance, settled_in_order};
ghost use Rattle.topological.specs.Walking.{Linkable, Linked, Weighable, visited, Visitable, Walkable, put_at, Storable, Upward};

use columns::{Entries, Table};
use offers::{deeper, joining};
use refusal::Refusal;
use weights::{Hyperedge, Label, Mark, Measure, Vertex, Weight};

// In place of a hyperedge, at the end of a list.
// Kept: the definition `Least` ends a list with this number.
const END: u16 = 65535;

// Whether each vertex of a tail is below n. A tail is short, so it is left at the first that is not: a
// loop that goes to the end, as `columns::all_below`, is unrolled, which takes longer here.
// Kept: with `all` in its place, settling a table whose lines list nothing takes 5 % more instructions.
fn tail_below(n: u64, tail: &[u64]) -> bool
    ensures { result ≡ all_below n tail.now }
{
    for v in tail {
        if *v >= n {
            return false;
        }
    }
    true
}

// What is wrong with hyperedge e, whose tail must be below its head. A tail that is so is below n too,
// so only of another it is asked which of the two fails.
fn check_line(
    n: u64,
    e: Hyperedge,
    head: Vertex,
    own: Weight,
    mark: Mark,
    offset: u64,
    size: u64,
    end: u64,
    tails: &[u64],
) -> Result<(), Refusal>
    ensures { result ≡ ordered_edge n e head.0 own.0 mark.0 offset size end tails.now }
{
    let h = head.0;
    columns::check_fields(n, e, head, own, mark, offset, size, end, tails)?;
    let from = offset as usize;
    let to = from + size as usize;
    if tail_below(h, &tails[from..to]) {
        return Ok(());
    }
    if tail_below(n, &tails[from..to]) {
        return Err(Refusal::Order(e));
    }
    Err(Refusal::Tail(e))
}

// Whether every hyperedge is accepted and in order, or the first refusal.
fn check_lines(table: &Table) -> Result<(), Refusal>
    requires { (length table.now.own.now ≡ length table.now.heads.now) × (length table.now.strikes.now ≡ length table.now.heads.now) × (length table.now.spans.now ≡ 2 * length table.now.heads.now) }
    ensures { let c = columns_of table.now in
        result ≡ ordered_edges_acceptance c (length table.now.heads.now) 0 0 }
{
    let Table {
        vertices: n,
        heads,
        own,
        strikes,
        spans,
        tails,
    } = *table;
    let mut end: u64 = 0;
    for i in 0..heads.len() {
        let head = Vertex(heads[i]);
        let weight = Weight(own[i]);
        let mark = Mark(strikes[i]);
        let offset = spans[2 * i];
        let size = spans[2 * i + 1];
        check_line(
            n,
            Hyperedge(i as u64),
            head,
            weight,
            mark,
            offset,
            size,
            end,
            tails,
        )?;
        end = offset + size;
    }
    Ok(())
}

// Whether the table of n vertices is accepted and in order, or the first refusal.
pub fn check_order(table: &Table) -> Result<(), Refusal>
    ensures { result ≡ ordered_acceptance (columns_of table.now) }
{
    columns::check_sizes(table)?;
    check_lines(table)
}

// The same with four answer columns, each of which must be n long.
fn check_lent(table: &Table, entries: &Entries) -> Result<(), Refusal>
    ensures { let c = columns_of table.now in
        let a = entries_in entries.now in
        result ≡ ordered_lent_acceptance c a }
{
    let Entries {
        weights,
        depths,
        edges,
        pieces,
    } = *entries;
    let Table { vertices: n, .. } = *table;
    check_order(table)?;
    if weights.len() as u64 != n {
        return Err(Refusal::AnswerLength);
    }
    if depths.len() as u64 != n {
        return Err(Refusal::AnswerLength);
    }
    if edges.len() as u64 != n {
        return Err(Refusal::AnswerLength);
    }
    if pieces.len() as u64 != n {
        return Err(Refusal::AnswerLength);
    }
    Ok(())
}

// The hyperedges of each head that are not struck are linked, from the last one down, so that a list
// goes up.
fn link(heads: &[u64], strikes: &[u64], first: &mut [u16], next: &mut [u16])
    requires { Linkable heads.now strikes.now first.old next.old }
    ensures { Linked heads.now strikes.now first.new next.new 0 }
{
    for e in (0..heads.len()).rev() {
        let mark = strikes[e];
        let struck = Mark(mark).is_struck();
        if !struck {
            let h = heads[e] as usize;
            let later = first[h];
            next[e] = later;
            first[h] = e as u16;
        }
    }
}

// The key of what hyperedge e of this own weight and tail gives from the labels in the columns; none
// where a vertex of its tail is unmade. The weights are the walk's own, so a sum of at most 16 of them
// does not wrap, and it is capped once, at the end. The loop is that of `offers::candidate`, which with
// a second caller would be inlined in neither.
fn candidate(
    measure: Measure,
    e: Hyperedge,
    own: Weight,
    tail: &[u64],
    weights: &[u64],
    depths: &[u64],
) -> u64
    requires { (Passable tail.now weights.now depths.now) × (e.0 < most_edges) }
    ensures { let o = offer_of (algebra measure) true own.0 tail.now (cell weights.now) (cell depths.now) e.0 in
        result ≡ key_of measure o }
{
    let unit = Weight::unit(measure);
    let mut joined = unit.0;
    let mut deepest: u64 = 0;
    for listed in tail {
        let v = *listed as usize;
        let depth = depths[v];
        if depth == 0 {
            return minima::NONE;
        }
        let weight = weights[v];
        joined = joining(measure, joined, weight);
        deepest = deeper(deepest, depth);
    }
    let weight = own.finish(measure, Weight(joined));
    let depth = deepest + 1;
    let l = Label {
        weight,
        depth,
        edge: e,
    };
    queue::pack(measure, l)
}

// The key of what hyperedge e of a table offers where it is not struck. With an empty tail that is its
// own weight in every measure, so nothing is joined.
fn key_in_order(
    measure: Measure,
    e: Hyperedge,
    own: &[u64],
    spans: &[u64],
    tails: &[u64],
    weights: &[u64],
    depths: &[u64],
) -> u64
    requires { Weighable e.0 own.now spans.now tails.now weights.now depths.now }
    ensures { let tail = tail_of spans.now tails.now e.0 in
        let o = offer_of (algebra measure) true (cell own.now e.0) tail (cell weights.now) (cell depths.now) e.0 in
        result ≡ key_of measure o }
{
    let i = e.0 as usize;
    let weight = own[i];
    let size = spans[2 * i + 1];
    if size == 0 {
        let l = Label {
            weight: Weight(weight),
            depth: 1,
            edge: e,
        };
        return queue::pack(measure, l);
    }
    let tail = columns::tail_of(e, spans, tails);
    candidate(measure, e, Weight(weight), tail, weights, depths)
}

// The first of what the hyperedges of v offer it. Of two offers the one with the lesser key is first.
fn visit(
    measure: Measure,
    v: Vertex,
    table: &Table,
    weights: &[u64],
    depths: &[u64],
    first: &[u16],
    next: &[u16],
) -> Option<Label>
    requires { let c = lent_of table.now depths.now in
        Visitable c weights.now depths.now first.now next.now v.0 }
    ensures { let c = lent_of table.now depths.now in
        result ≡ visited measure c weights.now depths.now v.0 }
{
    let Table {
        own,
        spans,
        tails,
        ..
    } = *table;
    let mut best = minima::NONE;
    let mut l = first[v.0 as usize];
    // Kept: the loop follows a list and counts no index.
    while l != END {
        let number = l as u64;
        let e = Hyperedge(number);
        let later = next[l as usize];
        let key = key_in_order(measure, e, own, spans, tails, weights, depths);
        best = best.min(key);
        l = later;
    }
    if best == minima::NONE {
        return None;
    }
    let x = queue::unpack(measure, best);
    Some(x)
}

// Vertex v gets what is offered to it.
fn store(v: Vertex, o: Option<Label>, weights: &mut [u64], depths: &mut [u64], edges: &mut [u64])
    requires { Storable v.0 (answers weights.old depths.old edges.old) }
    ensures { let a = answers weights.old depths.old edges.old in
        let a' = answers weights.new depths.new edges.new in
        a' ≡ put_at a v.0 o }
{
    let Some(x) = o else {
        return;
    };
    let i = v.0 as usize;
    let weight = x.weight;
    let e = x.edge;
    weights[i] = weight.0;
    depths[i] = x.depth;
    edges[i] = e.0;
}

// The walk up the vertices, which are all unmade at first.
fn walk(
    measure: Measure,
    table: &Table,
    weights: &mut [u64],
    depths: &mut [u64],
    edges: &mut [u64],
    first: &[u16],
    next: &[u16],
)
    requires { let c = lent_of table.now depths.old in
        Walkable c (answers weights.old depths.old edges.old) first.now next.now }
    ensures { let c = lent_of table.now depths.old in
        let a' = answers weights.new depths.new edges.new in
        a' ≡ in_order (algebra measure) (hypergraph c) (cell table.now.own.now) }
{
    for i in 0..depths.len() {
        let v = i as u64;
        let o = visit(measure, Vertex(v), table, weights, depths, first, next);
        store(Vertex(v), o, weights, depths, edges);
    }
}

// The labels of an accepted table go into the three answer columns, whatever they held.
fn label(
    measure: Measure,
    table: &Table,
    weights: &mut [u64],
    depths: &mut [u64],
    edges: &mut [u64],
)
    requires { let c = lent_of table.now depths.old in
        let a = answers weights.old depths.old edges.old in
        AcceptedLabels c a }
    ensures { let c = lent_of table.now depths.old in
        let a' = answers weights.new depths.new edges.new in
        a' ≡ in_order (algebra measure) (hypergraph c) (cell table.now.own.now) }
{
    let Table { heads, strikes, .. } = *table;
    let mut first = [65535u16; 1024];
    let mut next = [0u16; 4096];
    link(heads, strikes, &mut first, &mut next);
    columns::set_all(weights, 0);
    columns::set_all(depths, 0);
    columns::set_all(edges, 0);
    walk(measure, table, weights, depths, edges, &first, &next);
}

// Leaves the piece counts in `pieces`, whatever it held. What a part's line lists is below it, so the
// parts are counted from 0 up, and need not be gathered by depth.
fn count_upward(spans: &[u64], tails: &[u64], depths: &[u64], edges: &[u64], pieces: &mut [u64])
    requires { (Countable spans.now tails.now depths.now edges.now pieces.old) × Upward spans.now tails.now depths.now edges.now }
    ensures { pieces.new ≡ counted spans.now tails.now depths.now edges.now }
{
    columns::set_all(pieces, 0);
    for i in 0..depths.len() {
        let v = Vertex(i as u64);
        let count = pieces::count_vertex(v, spans, tails, depths, edges, pieces);
        pieces[i] = count;
    }
}

// Leaves the entries of a table in order in the four answer columns, or refuses and leaves them as
// they are.
pub fn settle_ordered(
    measure: Measure,
    table: &Table,
    weights: &mut [u64],
    depths: &mut [u64],
    edges: &mut [u64],
    pieces: &mut [u64],
) -> Result<(), Refusal>
    ensures { let c = columns_of table.now in
        let a = entries weights.old depths.old edges.old pieces.old in
        let a' = entries weights.new depths.new edges.new pieces.new in
        record { result = result; left = a' } ≡ settled_in_order measure c a }
{
    let Table { spans, tails, .. } = *table;
    check_lent(
        table,
        &Entries {
            weights,
            depths,
            edges,
            pieces,
        },
    )?;
    label(measure, table, weights, depths, edges);
    count_upward(spans, tails, depths, edges, pieces);
    Ok(())
}

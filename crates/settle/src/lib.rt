// Settling a table that is lent as columns: every vertex gets the label of its chosen derivation,
// found best first, and its piece count. And the check that lent answers are those.
//
// Kept: columns and rooms are lent, or arrays of a fixed size: the library and its programs use no heap.

#![tactic(auto)]

ghost use Rattle.std.specs.Prelude.{◌≡◌, ◌≤◌, ◌<◌, length};
ghost use Rattle.weights.specs.Measures.{algebra};
ghost use Rattle.provenance.specs.BestFirst.{labels};
ghost use Rattle.provenance.specs.Local.{every};
ghost use Rattle.provenance.specs.Values.{keeps_up_at};
ghost use Rattle.columns.specs.Columns.{answers, entries, cell};
ghost use Rattle.columns.proofs.Accepted.{AcceptedLabels, AcceptedColumns};
ghost use Rattle.columns.specs.Same.{same_answers, same_entries};
ghost use Rattle.columns.specs.Acceptance.{most_edges};
ghost use Rattle.columns.specs.Lent.{Turning};
ghost use Rattle.columns.specs.Given.{columns_of, lent_of, entries_in, answers_in};
ghost use Rattle.settle.specs.Settling.{answers_of, entries_of, entry_at, settled};
ghost use Rattle.settle.specs.Checking.{checked};
ghost use Rattle.settle.specs.Resting.{rests};
ghost use Rattle.settle.specs.Comparing.{vertex_fits, edge_fits, Comparable, Weighable, all_right};

use columns::{Entries, Table};
use refusal::Refusal;
use weights::{Entry, Hyperedge, Label, Measure, Vertex, Weight};

// The labels of an accepted table go into three of the answer columns, whatever they held.
fn label_vertices(
    measure: Measure,
    table: &Table,
    weights: &mut [u64],
    depths: &mut [u64],
    edges: &mut [u64],
)
    requires { let c = lent_of table.now depths.old in
        let a = answers weights.old depths.old edges.old in
        AcceptedLabels c a }
    ensures { let c = lent_of table.now depths.old in
        let a' = answers weights.new depths.new edges.new in
        a' ≡ answers_of measure c }
{
    columns::set_all(weights, 0);
    columns::set_all(depths, 0);
    columns::set_all(edges, 0);
    bestfirst::label_all(measure, table, weights, depths, edges);
}

// The entries of an accepted table go into the four answer columns, whatever they held: the labels,
// and then the piece counts, which the labels tell.
pub fn label(
    measure: Measure,
    table: &Table,
    weights: &mut [u64],
    depths: &mut [u64],
    edges: &mut [u64],
    pieces: &mut [u64],
)
    requires { let c = lent_of table.now depths.old in
        let a = entries weights.old depths.old edges.old pieces.old in
        AcceptedColumns c a }
    ensures { let c = lent_of table.now depths.old in
        let a' = entries weights.new depths.new edges.new pieces.new in
        a' ≡ entries_of measure c }
{
    let Table { spans, tails, .. } = *table;
    label_vertices(measure, table, weights, depths, edges);
    pieces::count_pieces(spans, tails, depths, edges, pieces);
}

// Leaves the table's entries in the four answer columns, or refuses and leaves them as they are.
pub fn settle(
    measure: Measure,
    table: &Table,
    weights: &mut [u64],
    depths: &mut [u64],
    edges: &mut [u64],
    pieces: &mut [u64],
) -> Result<(), Refusal>
    ensures { let c = columns_of table.now in
        let a = entries weights.old depths.old edges.old pieces.old in
        let a' = entries weights.new depths.new edges.new pieces.new in
        record { result = result; left = a' } ≡ settled measure c a }
{
    columns::check_lent(
        table,
        &Entries {
            weights,
            depths,
            edges,
            pieces,
        },
    )?;
    label(measure, table, weights, depths, edges, pieces);
    Ok(())
}

// Whether the label of v is blank, or the value and the height of its own hyperedge. A hyperedge that
// has no value has height 0, which is not the depth of a part that is made.
fn vertex_right(
    v: Vertex,
    heads: &[u64],
    values: &[u64],
    heights: &[u16],
    entries: &Entries,
) -> bool
    requires { (Comparable heads.now values.now heights.now (answers_in entries.now)) × (v.0 < length entries.now.depths.now) }
    ensures { let a = answers_in entries.now in
        result ≡ vertex_fits heads.now values.now heights.now (labels a) v.0 }
{
    let Entries {
        weights,
        depths,
        edges,
        ..
    } = *entries;
    let i = v.0 as usize;
    let w = weights[i];
    let d = depths[i];
    let e = edges[i];
    if d == 0 {
        if w != 0 {
            return false;
        }
        return e == 0;
    }
    if e >= heads.len() as u64 {
        return false;
    }
    let j = e as usize;
    if heads[j] != v.0 {
        return false;
    }
    if values[j] != w {
        return false;
    }
    let height = heights[j] as u64;
    height == d
}

// Whether a head with this label does not come after what its hyperedge e of this value and height
// offers: nothing, at height 0.
fn keeps_up(measure: Measure, l: Label, value: u64, height: u64, e: Hyperedge) -> bool
    ensures { result ≡ keeps_up_at (algebra measure) l value height e.0 }
{
    if height == 0 {
        return true;
    }
    if l.depth == 0 {
        return false;
    }
    let x = Label {
        weight: Weight(value),
        depth: height,
        edge: e,
    };
    weights::ahead(measure, l, x)
}

// Whether the label of e's head does not come after the value and the height of e.
fn edge_right(
    measure: Measure,
    e: Hyperedge,
    heads: &[u64],
    values: &[u64],
    heights: &[u16],
    entries: &Entries,
) -> bool
    requires { (Comparable heads.now values.now heights.now (answers_in entries.now)) × (e.0 < length heads.now) }
    ensures { let a = answers_in entries.now in
        result ≡ edge_fits heads.now values.now heights.now (labels a) (algebra measure) e.0 }
{
    let Entries {
        weights,
        depths,
        edges,
        ..
    } = *entries;
    let i = e.0 as usize;
    let v = heads[i] as usize;
    let weight = weights[v];
    let depth = depths[v];
    let root = edges[v];
    let l = Label {
        weight: Weight(weight),
        depth,
        edge: Hyperedge(root),
    };
    let value = values[i];
    let height = heights[i] as u64;
    keeps_up(measure, l, value, height, e)
}

// Whether hyperedge e leaves the labels as they are: it is not its head's own, and the label of its
// head does not come after what it offers. Its value and height are worked out as those of a table of
// one line.
pub fn line_rests(measure: Measure, e: Hyperedge, table: &Table, entries: &Entries) -> bool
    requires { let c = lent_of table.now entries.now.depths.now in
        let a = answers_in entries.now in
        (Turning c a) × (e.0 < length table.now.heads.now) }
    ensures { let c = lent_of table.now entries.now.depths.now in
        let a = answers_in entries.now in
        result ≡ rests measure c a e.0 }
{
    let Entries {
        weights,
        depths,
        edges,
        ..
    } = *entries;
    let Table {
        heads,
        own,
        strikes,
        spans,
        tails,
        ..
    } = *table;
    let i = e.0 as usize;
    let v = heads[i] as usize;
    let weight = weights[v];
    let depth = depths[v];
    let root = edges[v];
    if root == e.0 {
        return false;
    }
    let l = Label {
        weight: Weight(weight),
        depth,
        edge: Hyperedge(root),
    };
    let next = i + 1;
    let from = 2 * i;
    let to = from + 2;
    let mut values = [0u64; 1];
    let mut heights = [0u16; 1];
    offers::line_values(
        measure,
        &own[i..next],
        &strikes[i..next],
        &spans[from..to],
        tails,
        weights,
        depths,
        &mut values,
        &mut heights,
    );
    let value = values[0];
    let height = heights[0] as u64;
    keeps_up(measure, l, value, height, e)
}

// The same of every vertex.
fn vertices_right(heads: &[u64], values: &[u64], heights: &[u16], entries: &Entries) -> bool
    requires { Comparable heads.now values.now heights.now (answers_in entries.now) }
    ensures { let a = answers_in entries.now in
        result ≡ every (vertex_fits heads.now values.now heights.now (labels a)) (length entries.now.depths.now) }
{
    let Entries { depths, .. } = *entries;
    for i in 0..depths.len() {
        let v = Vertex(i as u64);
        if !vertex_right(v, heads, values, heights, entries) {
            return false;
        }
    }
    true
}

// The same of every hyperedge.
fn edges_right(
    measure: Measure,
    heads: &[u64],
    values: &[u64],
    heights: &[u16],
    entries: &Entries,
) -> bool
    requires { Comparable heads.now values.now heights.now (answers_in entries.now) }
    ensures { let a = answers_in entries.now in
        result ≡ every (edge_fits heads.now values.now heights.now (labels a) (algebra measure)) (length heads.now) }
{
    for i in 0..heads.len() {
        let e = Hyperedge(i as u64);
        if !edge_right(measure, e, heads, values, heights, entries) {
            return false;
        }
    }
    true
}

// Whether every vertex and every hyperedge is right: each line's value and height is worked out once,
// into two columns, and compared from there.
fn right_in(
    measure: Measure,
    table: &Table,
    entries: &Entries,
    values: &mut [u64],
    heights: &mut [u16],
) -> bool
    requires { let c = lent_of table.now entries.now.depths.now in
        let a = answers_in entries.now in
        Weighable c a values.old heights.old }
    ensures { let c = lent_of table.now entries.now.depths.now in
        let a = answers_in entries.now in
        result ≡ all_right measure c a }
{
    let Entries {
        weights,
        depths,
        ..
    } = *entries;
    let Table {
        heads,
        own,
        strikes,
        spans,
        tails,
        ..
    } = *table;
    offers::line_values(
        measure, own, strikes, spans, tails, weights, depths, values, heights,
    );
    if !vertices_right(heads, values, heights, entries) {
        return false;
    }
    edges_right(measure, heads, values, heights, entries)
}

// The same with columns of its own, of N places: as few as will do, as every place has to be cleared.
fn right_with<const N: usize>(measure: Measure, table: &Table, entries: &Entries) -> bool
    requires { let c = lent_of table.now entries.now.depths.now in
        let a = answers_in entries.now in
        (Turning c a) × ((length table.now.heads.now ≤ N) × (N ≤ most_edges)) }
    ensures { let c = lent_of table.now entries.now.depths.now in
        let a = answers_in entries.now in
        result ≡ all_right measure c a }
{
    let mut values = [0u64; N];
    let mut heights = [0u16; N];
    right_in(measure, table, entries, &mut values, &mut heights)
}

// Whether three of the answer columns hold the labels of an accepted table, whoever wrote them. A depth
// above n is none of them, so no height wraps.
fn labels_right(measure: Measure, table: &Table, entries: &Entries) -> bool
    requires { AcceptedLabels (columns_of table.now) (answers_in entries.now) }
    ensures { let c = columns_of table.now in
        let a = answers_in entries.now in
        result ≡ same_answers a (answers_of measure c) }
{
    let Entries { depths, .. } = *entries;
    if !columns::all_below(table.vertices + 1, depths) {
        return false;
    }
    if table.heads.len() <= 256 {
        return right_with::<256>(measure, table, entries);
    }
    right_with::<4096>(measure, table, entries)
}

// Whether the answer columns hold the entries of an accepted table, whoever wrote them. The piece
// counts are looked at once the labels are right.
pub fn answers_right(measure: Measure, table: &Table, entries: &Entries) -> bool
    requires { AcceptedColumns (columns_of table.now) (entries_in entries.now) }
    ensures { let c = columns_of table.now in
        let a = entries_in entries.now in
        result ≡ same_entries a (entries_of measure c) }
{
    let Entries {
        weights,
        depths,
        edges,
        pieces,
    } = *entries;
    let Table { spans, tails, .. } = *table;
    if !labels_right(measure, table, entries) {
        return false;
    }
    pieces::pieces_right(spans, tails, depths, edges, pieces)
}

// The same of any table, or why it is refused: yes or no, and never 8.
pub fn check_answers(measure: Measure, table: &Table, entries: &Entries) -> Result<bool, Refusal>
    ensures { let c = columns_of table.now in
        let a = entries_in entries.now in
        result ≡ checked measure c a }
{
    columns::check_lent(table, entries)?;
    Ok(answers_right(measure, table, entries))
}

// What a column holds for a vertex, and 0 for a vertex beyond its end.
fn cell(column: &[u64], v: Vertex) -> u64
    ensures { result ≡ cell column.now v.0 }
{
    column.get(v.0 as usize).copied().unwrap_or(0)
}

// The entry of a vertex, with its state. A vertex beyond the columns is unmade.
pub fn entry(entries: &Entries, v: Vertex) -> Entry
    ensures { let a = entries_in entries.now in
        result ≡ entry_at a v.0 }
{
    let Entries {
        weights,
        depths,
        edges,
        pieces,
    } = *entries;
    let weight = cell(weights, v);
    let depth = cell(depths, v);
    let root = cell(edges, v);
    let count = cell(pieces, v);
    let label = Label {
        weight: Weight(weight),
        depth,
        edge: Hyperedge(root),
    };
    Entry::of(label, count)
}

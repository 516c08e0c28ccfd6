// Best-first over a table in columns: a turn labels the head of the least key in the queue, what
// waited for that head goes on, and the key is taken out.
//
// Kept: columns and rooms are lent, or arrays of a fixed size: the library and its programs use no heap.

#![tactic(auto)]

ghost use Rattle.std.specs.Prelude.{◌≡◌, ◌*◌, ◌≤◌};
ghost use Rattle.weights.specs.Measures.{algebra};
ghost use Rattle.provenance.specs.BestFirst.{put, turn, best_first};
ghost use Rattle.columns.specs.Columns.{answers, cell};
ghost use Rattle.tables.specs.Table.{hypergraph};
ghost use Rattle.columns.specs.Acceptance.{most_vertices, most_edges};
ghost use Rattle.columns.specs.Given.{lent_of};
ghost use Rattle.waiting.specs.Lines.{lines, holds, room_of};
ghost use Rattle.bestfirst.specs.Turns.{Placeable, Waits, Underway, Blank, Begun, Cleared};

use columns::Table;
use weights::{Label, Measure, Vertex, Weight};

// The head of a label's hyperedge gets the label; gives that head.
fn store(
    l: Label,
    heads: &[u64],
    weights: &mut [u64],
    depths: &mut [u64],
    edges: &mut [u64],
) -> Vertex
    requires { Placeable l heads.now (answers weights.old depths.old edges.old) }
    ensures head { result.0 ≡ cell heads.now l.edge.0 }
    ensures stored { let a = answers weights.old depths.old edges.old in
        let a' = answers weights.new depths.new edges.new in
        a' ≡ put a (cell heads.now l.edge.0) l }
{
    let weight = l.weight;
    let e = l.edge;
    let i = e.0 as usize;
    let head = Vertex(heads[i]);
    let v = head.0 as usize;
    weights[v] = weight.0;
    depths[v] = l.depth;
    edges[v] = e.0;
    head
}

// A turn: the head of the next hyperedge gets its candidate as label, what waited for that head goes
// on, and its key is taken out.
fn turn(
    measure: Measure,
    table: &Table,
    weights: &mut [u64],
    depths: &mut [u64],
    edges: &mut [u64],
    first: &mut [u16],
    next: &mut [u16],
    at: &mut [u8],
    joined: &mut [u64],
    deepest: &mut [u16],
    queue: &mut [u64],
)
    requires { let c = lent_of table.now depths.old in
        let a = answers weights.old depths.old edges.old in
        let s = lines first.old next.old at.old joined.old deepest.old in
        Underway measure c a s queue.old }
    ensures { let c = lent_of table.now depths.old in
        let a = answers weights.old depths.old edges.old in
        let a' = answers weights.new depths.new edges.new in
        let s' = lines first.new next.new at.new joined.new deepest.new in
        (a' ≡ turn (algebra measure) (hypergraph c) (cell table.now.own.now) a) × Waits measure c weights.new depths.new s' queue.new }
{
    let Table { heads, .. } = *table;
    let key = minima::least(queue);
    if key == minima::NONE {
        return;
    }
    let l = queue::unpack(measure, key);
    let v = store(l, heads, weights, depths, edges);
    waiting::wake_all(
        measure, v, table, weights, depths, first, next, at, joined, deepest, queue,
    );
    minima::raise(queue, v.0 as usize);
}

// A turn for each vertex.
fn turns(
    measure: Measure,
    table: &Table,
    weights: &mut [u64],
    depths: &mut [u64],
    edges: &mut [u64],
    first: &mut [u16],
    next: &mut [u16],
    at: &mut [u8],
    joined: &mut [u64],
    deepest: &mut [u16],
    queue: &mut [u64],
)
    requires { let c = lent_of table.now depths.old in
        let a = answers weights.old depths.old edges.old in
        let s = lines first.old next.old at.old joined.old deepest.old in
        Begun measure c a s queue.old }
    ensures { let c = lent_of table.now depths.old in
        let a' = answers weights.new depths.new edges.new in
        a' ≡ best_first (algebra measure) (hypergraph c) (cell table.now.own.now) }
{
    for _ in 0..depths.len() {
        turn(
            measure, table, weights, depths, edges, first, next, at, joined, deepest, queue,
        );
    }
}

// Best-first in columns to work in, which are clear: the lists of what waits, and a queue.
fn label_in(
    measure: Measure,
    table: &Table,
    weights: &mut [u64],
    depths: &mut [u64],
    edges: &mut [u64],
    first: &mut [u16],
    next: &mut [u16],
    at: &mut [u8],
    joined: &mut [u64],
    deepest: &mut [u16],
    queue: &mut [u64],
)
    requires { let c = lent_of table.now depths.old in
        let a = answers weights.old depths.old edges.old in
        let s = lines first.old next.old at.old joined.old deepest.old in
        (Blank measure c a) × Cleared measure (room_of c) s queue.old }
    ensures { let c = lent_of table.now depths.old in
        let a' = answers weights.new depths.new edges.new in
        a' ≡ best_first (algebra measure) (hypergraph c) (cell table.now.own.now) }
{
    waiting::start(
        measure, table, weights, depths, first, next, at, joined, deepest, queue,
    );
    turns(
        measure, table, weights, depths, edges, first, next, at, joined, deepest, queue,
    );
}

// The same in columns of its own, with the places of the table's room. A small table is given few
// places, as every place has to be cleared. KEYS is twice VERTICES.
fn label_with<const VERTICES: usize, const EDGES: usize, const KEYS: usize>(
    measure: Measure,
    table: &Table,
    weights: &mut [u64],
    depths: &mut [u64],
    edges: &mut [u64],
)
    requires { let c = lent_of table.now depths.old in
        let a = answers weights.old depths.old edges.old in
        (Blank measure c a) × (room_of c ≡ record { vertices = VERTICES; edges = EDGES }) × (VERTICES ≤ most_vertices) × (EDGES ≤ most_edges) × (KEYS ≡ 2 * VERTICES) }
    ensures { let c = lent_of table.now depths.old in
        let a' = answers weights.new depths.new edges.new in
        a' ≡ best_first (algebra measure) (hypergraph c) (cell table.now.own.now) }
{
    let unit = Weight::unit(measure);
    let mut first = [65535u16; VERTICES];
    let mut next = [0u16; EDGES];
    let mut at = [0u8; EDGES];
    let mut joined = [unit.0; EDGES];
    let mut deepest = [0u16; EDGES];
    let mut queue = [minima::NONE; KEYS];
    label_in(
        measure,
        table,
        weights,
        depths,
        edges,
        &mut first,
        &mut next,
        &mut at,
        &mut joined,
        &mut deepest,
        &mut queue,
    );
}

// Whether so many vertices have their keys, and so many hyperedges their places in the lists.
fn holds(keys: usize, places: usize, vertices: usize, edges: usize) -> bool
    ensures { result ≡ holds (record { vertices = keys; edges = places }) vertices edges }
{
    vertices <= keys && edges <= places
}

// Leaves the table's answers in the answer columns, which are all unmade at first.
pub fn label_all(
    measure: Measure,
    table: &Table,
    weights: &mut [u64],
    depths: &mut [u64],
    edges: &mut [u64],
)
    requires { Blank measure (lent_of table.now depths.old) (answers weights.old depths.old edges.old) }
    ensures { let c = lent_of table.now depths.old in
        let a' = answers weights.new depths.new edges.new in
        a' ≡ best_first (algebra measure) (hypergraph c) (cell table.now.own.now) }
{
    let lines = table.heads.len();
    if holds(64, 256, depths.len(), lines) {
        label_with::<64, 256, 128>(measure, table, weights, depths, edges);
        return;
    }
    if holds(256, 1024, depths.len(), lines) {
        label_with::<256, 1024, 512>(measure, table, weights, depths, edges);
        return;
    }
    label_with::<1024, 4096, 2048>(measure, table, weights, depths, edges);
}

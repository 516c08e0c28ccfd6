// Hyperedges that wait: each that is not struck waits for one vertex of its tail, the first that is
// not made, in a list kept with that vertex, and carries what the vertices before it join to. When
// the vertex is made, what waited for it goes on: it reaches its end and is offered to its head, or
// waits again. So each place of a tail is read once.
//
// Kept: the lists, what lines carry and the queue are columns that every step writes, so they are
// parameters of their own, as `columns::Entries` says.

#![tactic(auto)]

ghost use Rattle.std.specs.Prelude.{◌≡◌, ◌+◌, ◌<◌, length, Some};
ghost use Rattle.weights.specs.Labels.{label};
ghost use Rattle.weights.specs.Measures.{algebra};
ghost use Rattle.columns.specs.Columns.{cell};
ghost use Rattle.columns.specs.Given.{lent_of};
ghost use Rattle.queue.specs.Queue.{offered};
ghost use Rattle.offers.specs.Passing.{Passable, Carried};
ghost use Rattle.waiting.specs.Lines.{lines, pushed, Gone, Linkable, Linked, Pushable, Queueable, Arriving, Offerable, Going, Went, Wakeful, Starting, Waking, Woken, Rested, Empty};

use columns::Table;
use offers::{deeper, finishing, joining};
use weights::{Hyperedge, Label, Mark, Measure, Vertex, Weight};

// In place of a hyperedge, at the end of a list.
const END: u16 = 65535;

// How far a hyperedge has come: the next place of its tail, and what the places before it join to.
#[derive(Clone, Copy)]
struct Reached {
    at: usize,
    joined: Weight,
    deepest: u64,
}

// From a place of a tail on to the first vertex that is not made, or to the end.
fn go_on(measure: Measure, from: Reached, tail: &[u64], weights: &[u64], depths: &[u64]) -> Reached
    requires { (Passable tail.now weights.now depths.now) × Carried (algebra measure) (cell weights.now) (cell depths.now) tail.now from.at from.joined.0 from.deepest }
    ensures { Gone (algebra measure) (cell weights.now) (cell depths.now) tail.now result.at result.joined.0 result.deepest }
{
    let mut joined = from.joined;
    let mut deepest = from.deepest;
    for at in from.at..tail.len() {
        let v = tail[at] as usize;
        let depth = depths[v];
        if depth == 0 {
            return Reached {
                at,
                joined,
                deepest,
            };
        }
        let weight = weights[v];
        let sum = joining(measure, joined.0, weight);
        joined = Weight(sum);
        deepest = deeper(deepest, depth);
    }
    Reached {
        at: tail.len(),
        joined,
        deepest,
    }
}

// Hyperedge e is put first in the list of vertex v.
fn link(e: Hyperedge, v: Vertex, first: &mut [u16], next: &mut [u16])
    requires { Linkable first.old next.old v.0 e.0 }
    ensures { Linked first.old next.old v.0 e.0 first.new next.new }
{
    let i = e.0 as usize;
    let place = v.0 as usize;
    let before = first[place];
    next[i] = before;
    first[place] = i as u16;
}

// Hyperedge e waits for vertex v, having come so far.
fn wait(
    e: Hyperedge,
    v: Vertex,
    to: Reached,
    first: &mut [u16],
    next: &mut [u16],
    at: &mut [u8],
    joined: &mut [u64],
    deepest: &mut [u16],
)
    requires { Pushable (lines first.old next.old at.old joined.old deepest.old) v.0 e.0 to.at to.deepest }
    ensures { let s = lines first.old next.old at.old joined.old deepest.old in
        let s' = lines first.new next.new at.new joined.new deepest.new in
        s' ≡ pushed s v.0 e.0 to.at to.joined.0 to.deepest }
{
    let i = e.0 as usize;
    let weight = to.joined;
    at[i] = to.at as u8;
    joined[i] = weight.0;
    deepest[i] = to.deepest as u16;
    link(e, v, first, next);
}

// The head of a label's hyperedge is offered the label.
fn offer(measure: Measure, l: Label, heads: &[u64], queue: &mut [u64])
    requires { Queueable l heads.now queue.old }
    ensures { queue.new ≡ offered measure queue.old (cell heads.now l.edge.0) (Some l) }
{
    let key = queue::pack(measure, l);
    let e = l.edge;
    let i = e.0 as usize;
    let h = heads[i] as usize;
    minima::lower(queue, h, key);
}

// Hyperedge e, whose tail is passed, is offered to its head.
fn arrive(
    measure: Measure,
    e: Hyperedge,
    to: Reached,
    heads: &[u64],
    own: &[u64],
    queue: &mut [u64],
)
    requires { Arriving measure heads.now own.now queue.old e.0 to.joined.0 to.deepest }
    ensures { let o = Some (label ((algebra measure).finish (cell own.now e.0) to.joined.0) (to.deepest + 1) e.0) in
        queue.new ≡ offered measure queue.old (cell heads.now e.0) o }
{
    let i = e.0 as usize;
    let figure = own[i];
    let sum = to.joined;
    let weight = finishing(measure, figure, sum.0);
    let depth = to.deepest + 1;
    let l = Label {
        weight: Weight(weight),
        depth,
        edge: e,
    };
    offer(measure, l, heads, queue);
}

// Hyperedge e, whose head is unmade, goes on from where it is: it waits again, or is offered.
fn advance(
    measure: Measure,
    e: Hyperedge,
    from: Reached,
    table: &Table,
    weights: &[u64],
    depths: &[u64],
    first: &mut [u16],
    next: &mut [u16],
    at: &mut [u8],
    joined: &mut [u64],
    deepest: &mut [u16],
    queue: &mut [u64],
)
    requires { let c = lent_of table.now depths.now in
        let s = lines first.old next.old at.old joined.old deepest.old in
        (Offerable c weights.now depths.now queue.old) × Going measure c weights.now depths.now s e.0 from.at from.joined.0 from.deepest }
    ensures { let c = lent_of table.now depths.now in
        let s = lines first.old next.old at.old joined.old deepest.old in
        let s' = lines first.new next.new at.new joined.new deepest.new in
        Went measure c (cell weights.now) (cell depths.now) e.0 s s' queue.old queue.new }
{
    let Table {
        heads,
        own,
        spans,
        tails,
        ..
    } = *table;
    let i = e.0 as usize;
    let offset = spans[2 * i] as usize;
    let size = spans[2 * i + 1] as usize;
    let stop = offset + size;
    let to = go_on(measure, from, &tails[offset..stop], weights, depths);
    let k = to.at;
    if k < size {
        let v = tails[offset + k];
        wait(e, Vertex(v), to, first, next, at, joined, deepest);
        return;
    }
    arrive(measure, e, to, heads, own, queue);
}

// Hyperedge e waited for a vertex that is made now: it goes on, unless its head is made too.
fn wake(
    measure: Measure,
    e: Hyperedge,
    table: &Table,
    weights: &[u64],
    depths: &[u64],
    first: &mut [u16],
    next: &mut [u16],
    at: &mut [u8],
    joined: &mut [u64],
    deepest: &mut [u16],
    queue: &mut [u64],
)
    requires { let c = lent_of table.now depths.now in
        let s = lines first.old next.old at.old joined.old deepest.old in
        (Offerable c weights.now depths.now queue.old) × Wakeful measure c weights.now depths.now s e.0 }
    ensures { let c = lent_of table.now depths.now in
        let s = lines first.old next.old at.old joined.old deepest.old in
        let s' = lines first.new next.new at.new joined.new deepest.new in
        Went measure c (cell weights.now) (cell depths.now) e.0 s s' queue.old queue.new }
{
    let Table { heads, .. } = *table;
    let i = e.0 as usize;
    let h = heads[i] as usize;
    if depths[h] != 0 {
        return;
    }
    let place = at[i] as usize;
    let weight = joined[i];
    let depth = deepest[i] as u64;
    let from = Reached {
        at: place,
        joined: Weight(weight),
        deepest: depth,
    };
    advance(
        measure, e, from, table, weights, depths, first, next, at, joined, deepest, queue,
    );
}

// Vertex v is made: what waited for it goes on. The key of v is still in the queue, the least of all:
// a key that is lowered meanwhile goes up only to where the ways of the two meet.
pub fn wake_all(
    measure: Measure,
    v: Vertex,
    table: &Table,
    weights: &[u64],
    depths: &[u64],
    first: &mut [u16],
    next: &mut [u16],
    at: &mut [u8],
    joined: &mut [u64],
    deepest: &mut [u16],
    queue: &mut [u64],
)
    requires { let c = lent_of table.now depths.now in
        let s = lines first.old next.old at.old joined.old deepest.old in
        (Offerable c weights.now depths.now queue.old) × ((v.0 < length depths.now) × Waking measure c weights.now depths.now s queue.old v.0 (cell first.old v.0)) }
    ensures { let c = lent_of table.now depths.now in
        let s' = lines first.new next.new at.new joined.new deepest.new in
        Woken measure c weights.now depths.now s' queue.new v.0 }
{
    let place = v.0 as usize;
    let mut l = first[place];
    // Kept: the loop follows a list and counts no index.
    while l != END {
        let i = l as usize;
        let after = next[i];
        let number = l as u64;
        let e = Hyperedge(number);
        wake(
            measure, e, table, weights, depths, first, next, at, joined, deepest, queue,
        );
        l = after;
    }
}

// Hyperedge e, unless it is struck, waits for the first vertex of its tail or is offered. To wait it
// is linked alone: the columns start with what it has passed, which is nothing. One with an empty tail
// offers its own weight, which nothing is joined to.
fn begin(
    measure: Measure,
    e: Hyperedge,
    table: &Table,
    weights: &[u64],
    depths: &[u64],
    first: &mut [u16],
    next: &mut [u16],
    at: &mut [u8],
    joined: &mut [u64],
    deepest: &mut [u16],
    queue: &mut [u64],
)
    requires { let c = lent_of table.now depths.now in
        let s = lines first.old next.old at.old joined.old deepest.old in
        (Offerable c weights.now depths.now queue.old) × ((e.0 < length table.now.heads.now) × Starting measure c weights.now depths.now s queue.old e.0) }
    ensures { let c = lent_of table.now depths.now in
        let s' = lines first.new next.new at.new joined.new deepest.new in
        Starting measure c weights.now depths.now s' queue.new (e.0 + 1) }
{
    let Table {
        heads,
        own,
        strikes,
        spans,
        tails,
        ..
    } = *table;
    let i = e.0 as usize;
    let mark = strikes[i];
    let struck = Mark(mark).is_struck();
    if struck {
        return;
    }
    let offset = spans[2 * i] as usize;
    let size = spans[2 * i + 1];
    if size != 0 {
        let v = tails[offset];
        link(e, Vertex(v), first, next);
        return;
    }
    let figure = own[i];
    let l = Label {
        weight: Weight(figure),
        depth: 1,
        edge: e,
    };
    offer(measure, l, heads, queue);
}

// Every hyperedge that is not struck waits or is offered.
pub fn start(
    measure: Measure,
    table: &Table,
    weights: &[u64],
    depths: &[u64],
    first: &mut [u16],
    next: &mut [u16],
    at: &mut [u8],
    joined: &mut [u64],
    deepest: &mut [u16],
    queue: &mut [u64],
)
    requires { let c = lent_of table.now depths.now in
        let s = lines first.old next.old at.old joined.old deepest.old in
        (Offerable c weights.now depths.now queue.old) × Empty measure c depths.now s queue.old }
    ensures { let c = lent_of table.now depths.now in
        let s' = lines first.new next.new at.new joined.new deepest.new in
        Rested measure c weights.now depths.now s' queue.new }
{
    // A copy, since columns behind a reference are looked up anew for each line, after the stores of the one before.
    let table = *table;
    for i in 0..table.heads.len() {
        let e = Hyperedge(i as u64);
        begin(
            measure, e, &table, weights, depths, first, next, at, joined, deepest, queue,
        );
    }
}

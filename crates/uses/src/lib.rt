// The index of uses: which hyperedges list a vertex. Two passes over the tails, counting and then
// filling; no tail is searched for a vertex that it lists twice.

#![tactic(auto)]

ghost use Rattle.std.specs.Prelude.{◌≡◌, ◌+◌, ◌*◌, ◌≤◌, length};
ghost use Rattle.columns.specs.Columns.{tail_of};
ghost use Rattle.weights.specs.Lists.{member};
ghost use Rattle.uses.specs.Uses.{use_list, pairs, pairs_in, use_offset, indexed, distinct_in};
ghost use Rattle.uses.specs.Indexable.{Readable, Measurable, Indexable, counted, Counting, running, Placeable, placed, ends_in, FilledTo, Filling, Offset};

use weights::{Hyperedge, Vertex};

// Counts hyperedge e as a use of each vertex that it lists. The first place of a vertex is a mark
// meanwhile: the last hyperedge counted there, and 1 more.
fn count_edge(e: Hyperedge, spans: &[u64], tails: &[u64], index: &mut [u64])
    requires { Counting e.0 spans.now tails.now index.old }
    ensures { index.new ≡ counted (tail_of spans.now tails.now) (e.0 + 1) (pairs_in index.old) }
{
    let number = e.0;
    let line = number as usize;
    let from = spans[2 * line] as usize;
    let size = spans[2 * line + 1] as usize;
    for part in &tails[from..from + size] {
        let v = *part as usize;
        if index[2 * v] != number + 1 {
            index[2 * v] = number + 1;
            index[2 * v + 1] += 1;
        }
    }
}

// Counts the uses of every vertex, whatever stood in the index.
fn count(spans: &[u64], tails: &[u64], index: &mut [u64])
    requires { (Readable (pairs_in index.old) spans.now tails.now) × (length index.old ≡ 2 * pairs_in index.old) }
    ensures { index.new ≡ counted (tail_of spans.now tails.now) (pairs_in spans.now) (pairs_in index.old) }
{
    columns::set_all(index, 0);
    for e in 0..spans.len() / 2 {
        count_edge(Hyperedge(e as u64), spans, tails, index);
    }
}

// Turns the counts into offsets, with lengths of 0; returns the sum of the counts.
fn place(index: &mut [u64]) -> u64
    requires { Placeable index.old }
    ensures { (result ≡ running index.old (pairs_in index.old)) × (index.new ≡ placed index.old (pairs_in index.old)) }
{
    let mut sum: u64 = 0;
    for v in 0..index.len() / 2 {
        let count = index[2 * v + 1];
        index[2 * v] = sum;
        index[2 * v + 1] = 0;
        sum += count;
    }
    sum
}

// Whether e is the last of the k hyperedges from a place on.
fn ends_in(list: &[u64], from: usize, k: usize, e: Hyperedge) -> bool
    requires { from + k ≤ length list.now }
    ensures { result ≡ ends_in list.now from k e.0 }
{
    if k == 0 {
        return false;
    }
    let last = list[from + k - 1];
    last == e.0
}

// Puts hyperedge e behind the uses of each vertex that it lists, once.
fn fill_edge(e: Hyperedge, spans: &[u64], tails: &[u64], index: &mut [u64], list: &mut [u64])
    requires { Filling e.0 spans.now tails.now index.old list.old }
    ensures { FilledTo (tail_of spans.now tails.now) (pairs_in spans.now) (pairs_in index.old) (e.0 + 1) index.new list.new list.old }
{
    let number = e.0;
    let line = number as usize;
    let from = spans[2 * line] as usize;
    let size = spans[2 * line + 1] as usize;
    for part in &tails[from..from + size] {
        let v = *part as usize;
        let start = index[2 * v] as usize;
        let k = index[2 * v + 1] as usize;
        if !ends_in(list, start, k, e) {
            list[start + k] = number;
            index[2 * v + 1] += 1;
        }
    }
}

// Leaves where the uses of each vertex will start, with lengths of 0; returns how many uses there are.
pub fn offsets(spans: &[u64], tails: &[u64], index: &mut [u64]) -> u64
    requires { Measurable spans.now tails.now index.old }
    ensures { let tail = tail_of spans.now tails.now in
        let m = pairs_in spans.now in
        let n = pairs_in index.old in
        (result ≡ length (use_list tail m n)) × (index.new ≡ pairs (use_offset tail m) (λ v. 0) n) }
{
    count(spans, tails, index);
    place(index)
}

// Fills the list, each vertex's uses from its offset on; the lengths then stand in the index.
pub fn fill(spans: &[u64], tails: &[u64], index: &mut [u64], list: &mut [u64])
    requires { Offset spans.now tails.now index.old list.old }
    ensures { FilledTo (tail_of spans.now tails.now) (pairs_in spans.now) (pairs_in index.old) (pairs_in spans.now) index.new list.new list.old }
{
    let edges = spans.len() / 2;
    for e in 0..edges {
        fill_edge(Hyperedge(e as u64), spans, tails, index, list);
    }
}

// Leaves the index of uses in `index`, an offset and a length for each vertex, and in `list`, which
// keeps what stands behind it; returns the length of the list.
pub fn index_uses(spans: &[u64], tails: &[u64], index: &mut [u64], list: &mut [u64]) -> u64
    requires { Indexable spans.now tails.now index.old list.old }
    ensures { record { total = result; index = index.new; list = list.new } ≡ indexed (tail_of spans.now tails.now) (pairs_in spans.now) (pairs_in index.old) list.old }
{
    let total = offsets(spans, tails, index);
    fill(spans, tails, index, list);
    total
}

// Whether v stands in a list.
pub fn stands_in(list: &[u64], v: Vertex) -> bool
    ensures { result ≡ member v.0 list.now }
{
    list.contains(&v.0)
}

// How many different vertices a list has: those that do not stand before their place.
pub fn distinct(list: &[u64]) -> u64
    ensures { result ≡ distinct_in list.now (length list.now) }
{
    let mut k: u64 = 0;
    for (i, v) in list.iter().enumerate() {
        if !stands_in(&list[..i], Vertex(*v)) {
            k += 1;
        }
    }
    k
}

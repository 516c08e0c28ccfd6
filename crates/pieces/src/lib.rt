// The piece counts of a table's parts, from the lists of its lines and the depth and chosen line of
// each part: how many lines without parts a chosen make-up holds, and at most so many. Parts are
// counted by depth, so that what a line lists is counted before it.
//
// Kept: columns and rooms are lent, or arrays of a fixed size: the library and its programs use no heap.

#![tactic(auto)]

ghost use Rattle.std.specs.Prelude.{◌≡◌, ◌≤◌, ◌<◌, length};
ghost use Rattle.provenance.specs.Pieces.{piece_count, piece_local};
ghost use Rattle.columns.specs.Columns.{cell, tail_of};
ghost use Rattle.columns.specs.Same.{equal};
ghost use Rattle.pieces.specs.Counting.{counted, count_of, low, Low, Summable, Countable, Linkable, Linked, Deepest, Staged, Layer};

use weights::{Hyperedge, Vertex};

// The greatest count; more are counted as so many.
pub const MOST_PIECES: u64 = 1000000000;

// What a tail counts by the counts in a column: 1 where it lists nothing. The sum of so few counts
// does not wrap, and is capped at the end.
fn count_tail(tail: &[u64], pieces: &[u64]) -> u64
    requires { Summable tail.now pieces.now }
    ensures { result ≡ piece_count (cell pieces.now) tail.now }
{
    if tail.is_empty() {
        return 1;
    }
    let mut sum: u64 = 0;
    for part in tail {
        let v = *part as usize;
        sum += pieces[v];
    }
    sum.min(MOST_PIECES)
}

// What vertex v counts by the counts in a column: 0 where it is unmade.
pub fn count_vertex(
    v: Vertex,
    spans: &[u64],
    tails: &[u64],
    depths: &[u64],
    edges: &[u64],
    pieces: &[u64],
) -> u64
    requires { (Countable spans.now tails.now depths.now edges.now pieces.now) × (Low pieces.now) × (v.0 < length depths.now) }
    ensures { result ≡ piece_local (tail_of spans.now tails.now) (cell depths.now) (cell edges.now) (cell pieces.now) v.0 }
{
    let i = v.0 as usize;
    let depth = depths[i];
    if depth == 0 {
        return 0;
    }
    let root = edges[i];
    let tail = columns::tail_of(Hyperedge(root), spans, tails);
    count_tail(tail, pieces)
}

// Links the vertices of each depth from the last on, in the places where their counts will stand:
// each place holds the vertex before it of its depth, and 1 more, or 0. `last`, all 0 at first, gets
// the last vertex of each depth, and 1 more. Gives the greatest depth.
fn link(depths: &[u64], last: &mut [u64], pieces: &mut [u64]) -> usize
    requires { Linkable depths.now last.old pieces.old }
    ensures linked { Linked depths.now (length last.old) (length depths.now) last.new pieces.new }
    ensures deepest { Deepest depths.now (length last.old) (length depths.now) result }
{
    let mut deepest: usize = 0;
    for (i, depth) in depths.iter().enumerate() {
        let d = *depth as usize;
        pieces[i] = last[d];
        last[d] = i as u64 + 1;
        deepest = deepest.max(d);
    }
    deepest
}

// Counts the vertices of depth d, where those of lower depth are counted.
fn count_layer(
    d: usize,
    last: &[u64],
    spans: &[u64],
    tails: &[u64],
    depths: &[u64],
    edges: &[u64],
    pieces: &mut [u64],
)
    requires { Layer d last.now spans.now tails.now depths.now edges.now pieces.old }
    ensures { Staged depths.now (count_of spans.now tails.now depths.now edges.now) d 0 pieces.new }
{
    let mut next = last[d];
    // Kept: a `while`, since it follows links until one is 0 and counts nothing.
    while next != 0 {
        let i = next as usize - 1;
        next = pieces[i];
        let v = Vertex(i as u64);
        let count = count_vertex(v, spans, tails, depths, edges, pieces);
        pieces[i] = count;
    }
}

// Counts depth by depth, with a column that is all 0 for the last vertex of each depth.
fn count_in(
    spans: &[u64],
    tails: &[u64],
    depths: &[u64],
    edges: &[u64],
    pieces: &mut [u64],
    last: &mut [u64],
)
    requires { (Countable spans.now tails.now depths.now edges.now pieces.old) × Linkable depths.now last.old pieces.old }
    ensures { pieces.new ≡ counted spans.now tails.now depths.now edges.now }
{
    let deepest = link(depths, last, pieces);
    for d in 0..=deepest {
        count_layer(d, last, spans, tails, depths, edges, pieces);
    }
}

// The same with a column of its own, of N places, one for each depth and one for 0.
fn count_with<const N: usize>(
    spans: &[u64],
    tails: &[u64],
    depths: &[u64],
    edges: &[u64],
    pieces: &mut [u64],
)
    requires { (Countable spans.now tails.now depths.now edges.now pieces.old) × (length depths.now < N) × (N ≤ 1025) }
    ensures { pieces.new ≡ counted spans.now tails.now depths.now edges.now }
{
    let mut last = [0u64; N];
    count_in(spans, tails, depths, edges, pieces, &mut last);
}

// Leaves the piece counts in `pieces`, whatever it held. A few vertices are given few places, as
// every place has to be cleared.
pub fn count_pieces(spans: &[u64], tails: &[u64], depths: &[u64], edges: &[u64], pieces: &mut [u64])
    requires { Countable spans.now tails.now depths.now edges.now pieces.old }
    ensures { pieces.new ≡ counted spans.now tails.now depths.now edges.now }
{
    if depths.len() <= 64 {
        count_with::<65>(spans, tails, depths, edges, pieces);
    } else {
        count_with::<1025>(spans, tails, depths, edges, pieces);
    }
}

// Whether no count of a column is above the greatest.
fn low(pieces: &[u64]) -> bool
    ensures { result ≡ low pieces.now }
{
    pieces.iter().all(|count| *count <= MOST_PIECES)
}

// Whether `pieces` holds the piece counts, whoever wrote it.
pub fn pieces_right(
    spans: &[u64],
    tails: &[u64],
    depths: &[u64],
    edges: &[u64],
    pieces: &[u64],
) -> bool
    requires { Countable spans.now tails.now depths.now edges.now pieces.now }
    ensures { result ≡ equal pieces.now (counted spans.now tails.now depths.now edges.now) }
{
    if !low(pieces) {
        return false;
    }
    for (i, lent) in pieces.iter().enumerate() {
        let v = Vertex(i as u64);
        let count = count_vertex(v, spans, tails, depths, edges, pieces);
        if *lent != count {
            return false;
        }
    }
    true
}

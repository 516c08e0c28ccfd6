// What a hyperedge offers its head: the candidate that it gives from the labels in the columns. And
// columns of what all hyperedges of a table offer.
//
// Kept: columns and rooms are lent, or arrays of a fixed size: the library and its programs use no heap.
//
// Kept: own weights, marks, spans and tails are taken apart from heads, since the values of one line are
// asked of slices that begin at it (`settle::line_rests`).

#![tactic(auto)]

ghost use Rattle.std.specs.Prelude.{◌≡◌, not, ◌+◌, ◌/◌, ◌≤◌, ◌<◌, max, length, set};
ghost use Rattle.weights.specs.Figures.{greatest, is_struck_mark, capped};
ghost use Rattle.weights.specs.Measures.{algebra};
ghost use Rattle.provenance.specs.Labelling.{offer_of};
ghost use Rattle.columns.specs.Columns.{tail_of, cell};
ghost use Rattle.columns.specs.Filled.{filled};
ghost use Rattle.columns.specs.Acceptance.{most_vertices, all_below};
ghost use Rattle.columns.specs.Lent.{EdgeIn};
ghost use Rattle.queue.specs.Keys.{heavy};
ghost use Rattle.offers.specs.Passing.{plain, Light, Passable};
ghost use Rattle.offers.specs.Values.{value_in, height_in, values_of, heights_of, capped_column, Notable, Valuable};

use weights::{Hyperedge, Label, Mark, Measure, Weight};

// Weights below it are light: a tail of them can be summed.
const HEAVY: u64 = 1099511627776;

// The greater of two depths.
pub fn deeper(a: u64, b: u64) -> u64
    ensures { result ≡ max a b }
{
    a.max(b)
}

// Two weights of a tail, joined. A sum is capped only at the end of the tail, where it has no more
// than 16 weights.
pub fn joining(measure: Measure, a: u64, b: u64) -> u64
    requires { a + b < 18446744073709551616 }
    ensures { result ≡ plain measure a b }
{
    match measure {
        Measure::Cost => a + b,
        Measure::Days => deeper(a, b),
        Measure::Grade => a.min(b),
    }
}

// A lent weight, or a sum that did not wrap, capped. The mark over is 1 more than the ceiling.
fn cap(sum: u64) -> u64
    ensures { result ≡ capped sum }
{
    sum.min(Weight::OVER.0)
}

// An own weight with the joined weights of its tail: here a sum is capped.
pub fn finishing(measure: Measure, own: u64, joined: u64) -> u64
    requires { own + joined < 18446744073709551616 }
    ensures { result ≡ (algebra measure).finish own joined }
{
    match measure {
        Measure::Cost => cap(own + joined),
        Measure::Days => cap(own + joined),
        Measure::Grade => own.min(joined),
    }
}

// How many times HEAVY goes into a weight: not once into a light one.
fn share(weight: u64) -> u64
    ensures { (result ≡ weight / heavy) × (result < 16777216) }
{
    weight / HEAVY
}

// Whether every weight of a column is light, so that those of a tail can be summed. Dividing and
// adding takes fewer instructions than as many comparisons of 64 bits.
fn all_light(weights: &[u64]) -> bool
    requires { length weights.now ≤ most_vertices }
    ensures { result ≡ all_below heavy weights.now }
{
    let mut shares: u64 = 0;
    for weight in weights {
        shares += share(*weight);
    }
    shares == 0
}

// What hyperedge e of this own weight, mark and tail gives from the labels in the columns; nothing
// where it is struck or a vertex of its tail is unmade. The weights are light, so a sum of at most 17
// of them does not wrap, and it is capped once, at the end. With an empty tail that is its own weight
// in every measure, so nothing is joined.
fn candidate(
    measure: Measure,
    e: Hyperedge,
    own: Weight,
    mark: Mark,
    tail: &[u64],
    weights: &[u64],
    depths: &[u64],
) -> Option<Label>
    requires { (Passable tail.now weights.now depths.now) × (own.0 ≤ greatest) }
    ensures { result ≡ offer_of (algebra measure) (not (is_struck_mark mark.0)) own.0 tail.now (cell weights.now) (cell depths.now) e.0 }
{
    if mark.is_struck() {
        return None;
    }
    if tail.is_empty() {
        return Some(Label {
            weight: own,
            depth: 1,
            edge: e,
        });
    }
    let unit = Weight::unit(measure);
    let mut joined = unit.0;
    let mut deepest: u64 = 0;
    for part in tail {
        let v = *part as usize;
        let depth = depths[v];
        if depth == 0 {
            return None;
        }
        let weight = weights[v];
        joined = joining(measure, joined, weight);
        deepest = deeper(deepest, depth);
    }
    let weight = finishing(measure, own.0, joined);
    let depth = deepest + 1;
    Some(Label {
        weight: Weight(weight),
        depth,
        edge: e,
    })
}

// The same for hyperedge e of a table.
pub fn offer(
    measure: Measure,
    e: Hyperedge,
    own: &[u64],
    strikes: &[u64],
    spans: &[u64],
    tails: &[u64],
    weights: &[u64],
    depths: &[u64],
) -> Option<Label>
    requires { (EdgeIn e.0 own.now strikes.now spans.now tails.now weights.now depths.now) × (cell own.now e.0 ≤ greatest) × Light weights.now }
    ensures { let live = not (is_struck_mark (cell strikes.now e.0)) in
        let tail = tail_of spans.now tails.now e.0 in
        result ≡ offer_of (algebra measure) live (cell own.now e.0) tail (cell weights.now) (cell depths.now) e.0 }
{
    let i = e.0 as usize;
    let weight = own[i];
    let mark = strikes[i];
    let tail = columns::tail_of(e, spans, tails);
    candidate(
        measure,
        e,
        Weight(weight),
        Mark(mark),
        tail,
        weights,
        depths,
    )
}

// What an offer comes to goes into place i of two columns: its weight and its depth, or none and 0.
fn note(i: usize, o: Option<Label>, values: &mut [u64], heights: &mut [u16])
    requires { Notable i o values.old heights.old }
    ensures { let v = values.new ≡ set values.old i (value_in o) in
        let h = heights.new ≡ set heights.old i (height_in o) in
        v × h }
{
    let Some(x) = o else {
        values[i] = Weight::NONE.0;
        heights[i] = 0;
        return;
    };
    let weight = x.weight;
    values[i] = weight.0;
    heights[i] = x.depth as u16;
}

// The value and the height of every hyperedge of a table, from the labels in the columns, whose weights
// are light; what stands behind them stays. Each tail is read once.
fn light_values(
    measure: Measure,
    own: &[u64],
    strikes: &[u64],
    spans: &[u64],
    tails: &[u64],
    weights: &[u64],
    depths: &[u64],
    values: &mut [u64],
    heights: &mut [u16],
)
    requires { (Valuable own.now strikes.now spans.now tails.now weights.now depths.now values.old heights.old) × Light weights.now }
    ensures { let n = length own.now in
        let vs = values_of measure own.now strikes.now spans.now tails.now weights.now depths.now n in
        let hs = heights_of measure own.now strikes.now spans.now tails.now weights.now depths.now n in
        (values.new ≡ filled vs values.old) × (heights.new ≡ filled hs heights.old) }
{
    for i in 0..own.len() {
        let e = Hyperedge(i as u64);
        let o = offer(measure, e, own, strikes, spans, tails, weights, depths);
        note(i, o, values, heights);
    }
}

// Every weight of a column, capped, goes into another from its start.
fn cap_all(weights: &[u64], column: &mut [u64])
    requires { length weights.now ≤ length column.old }
    ensures { column.new ≡ filled (capped_column weights.now) column.old }
{
    for (i, weight) in weights.iter().enumerate() {
        column[i] = cap(*weight);
    }
}

// The value and the height of every hyperedge, from any weights, by way of a column of these, capped:
// a weight above the ceiling gives what the mark over gives, and that is light.
fn heavy_values(
    measure: Measure,
    own: &[u64],
    strikes: &[u64],
    spans: &[u64],
    tails: &[u64],
    weights: &[u64],
    depths: &[u64],
    values: &mut [u64],
    heights: &mut [u16],
)
    requires { Valuable own.now strikes.now spans.now tails.now weights.now depths.now values.old heights.old }
    ensures { let n = length own.now in
        let vs = values_of measure own.now strikes.now spans.now tails.now weights.now depths.now n in
        let hs = heights_of measure own.now strikes.now spans.now tails.now weights.now depths.now n in
        (values.new ≡ filled vs values.old) × (heights.new ≡ filled hs heights.old) }
{
    let mut column = [0u64; 1024];
    cap_all(weights, &mut column);
    let n = weights.len();
    light_values(
        measure,
        own,
        strikes,
        spans,
        tails,
        &column[0..n],
        depths,
        values,
        heights,
    );
}

// The value and the height of every hyperedge of a table, from the labels in the columns, whatever
// their weights are; what stands behind them stays. Each tail is read once.
pub fn line_values(
    measure: Measure,
    own: &[u64],
    strikes: &[u64],
    spans: &[u64],
    tails: &[u64],
    weights: &[u64],
    depths: &[u64],
    values: &mut [u64],
    heights: &mut [u16],
)
    requires { Valuable own.now strikes.now spans.now tails.now weights.now depths.now values.old heights.old }
    ensures { let n = length own.now in
        let vs = values_of measure own.now strikes.now spans.now tails.now weights.now depths.now n in
        let hs = heights_of measure own.now strikes.now spans.now tails.now weights.now depths.now n in
        (values.new ≡ filled vs values.old) × (heights.new ≡ filled hs heights.old) }
{
    if all_light(weights) {
        light_values(
            measure, own, strikes, spans, tails, weights, depths, values, heights,
        );
        return;
    }
    heavy_values(
        measure, own, strikes, spans, tails, weights, depths, values, heights,
    );
}

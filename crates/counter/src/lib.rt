// The calls of a counter program that is written in C, whose archive the crate `counter_c` builds. The
// measure comes as a number and is checked before everything; each call gives one number.

#![tactic(auto)]

ghost use Rattle.std.specs.Prelude.{◌≡◌, min};
ghost use Rattle.refusal.specs.Refusals.{measure_of};
ghost use Rattle.columns.specs.Columns.{columns, entries};
ghost use Rattle.counter.specs.Results.{settled_result, repriced_result, most_room, billed_result};

use columns::{Entries, Table};
use weights::{Hyperedge, Vertex, Weight};

#[unsafe(no_mangle)]
pub extern "C" fn settle(
    measure: u64,
    n: u64,
    heads: &[u64],
    own: &[u64],
    strikes: &[u64],
    spans: &[u64],
    tails: &[u64],
    weights: &mut [u64],
    depths: &mut [u64],
    edges: &mut [u64],
    pieces: &mut [u64],
) -> u64
    ensures { let c = columns n heads.now own.now strikes.now spans.now tails.now in
        let a = entries weights.old depths.old edges.old pieces.old in
        let a' = entries weights.new depths.new edges.new pieces.new in
        record { result = result; left = a' } ≡ settled_result (measure_of measure) c a }
{
    let choice = refusal::measure_numbered(measure);
    match choice {
        Err(r) => return r.result(),
        Ok(m) => {
            let a = settle::settle(
                m,
                &Table {
                    vertices: n,
                    heads,
                    own,
                    strikes,
                    spans,
                    tails,
                },
                weights,
                depths,
                edges,
                pieces,
            );
            return refusal::result(a);
        }
    }
}

#[unsafe(no_mangle)]
pub extern "C" fn reprice(
    measure: u64,
    n: u64,
    heads: &[u64],
    own: &mut [u64],
    strikes: &[u64],
    spans: &[u64],
    tails: &[u64],
    weights: &mut [u64],
    depths: &mut [u64],
    edges: &mut [u64],
    pieces: &mut [u64],
    line: u64,
    figure: u64,
) -> u64
    ensures { let c = columns n heads.now own.old strikes.now spans.now tails.now in
        let a = entries weights.old depths.old edges.old pieces.old in
        let a' = entries weights.new depths.new edges.new pieces.new in
        record { result = result; own = own.new; left = a' } ≡ repriced_result (measure_of measure) c a line figure }
{
    let choice = refusal::measure_numbered(measure);
    match choice {
        Err(r) => return r.result(),
        Ok(m) => {
            let a = reprice::reprice(
                m,
                n,
                heads,
                own,
                strikes,
                spans,
                tails,
                weights,
                depths,
                edges,
                pieces,
                Hyperedge(line),
                Weight(figure),
            );
            return refusal::result(a);
        }
    }
}

// The most places of a room that a bill is given: with more, its length could be taken for a
// refusal.
const MOST_ROOM: usize = 4294967295;

// How many of the room's places count.
fn counted(places: usize) -> usize
    ensures { result ≡ min most_room places }
{
    places.min(MOST_ROOM)
}

#[unsafe(no_mangle)]
pub extern "C" fn bill(
    measure: u64,
    n: u64,
    heads: &[u64],
    own: &[u64],
    strikes: &[u64],
    spans: &[u64],
    tails: &[u64],
    weights: &[u64],
    depths: &[u64],
    edges: &[u64],
    pieces: &[u64],
    part: u64,
    room: &mut [u64],
) -> u64
    ensures { let c = columns n heads.now own.now strikes.now spans.now tails.now in
        let a = entries weights.now depths.now edges.now pieces.now in
        record { result = result; left = room.new } ≡ billed_result (measure_of measure) c a part room.old }
{
    let choice = refusal::measure_numbered(measure);
    match choice {
        Err(r) => return r.result(),
        Ok(m) => {
            let places = counted(room.len());
            let x = bill::bill(
                m,
                &Table {
                    vertices: n,
                    heads,
                    own,
                    strikes,
                    spans,
                    tails,
                },
                &Entries {
                    weights,
                    depths,
                    edges,
                    pieces,
                },
                Vertex(part),
                &mut room[..places],
            );
            return refusal::result(x);
        }
    }
}

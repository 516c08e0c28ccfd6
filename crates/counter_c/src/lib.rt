// The archive of a counter program that is written in C: each call of the crate `counter`, under its
// own name. Nothing is done here.

#![tactic(auto)]

ghost use Rattle.std.specs.Prelude.{◌≡◌};
ghost use Rattle.refusal.specs.Refusals.{measure_of};
ghost use Rattle.columns.specs.Columns.{columns, entries};
ghost use Rattle.counter.specs.Results.{settled_result, repriced_result, billed_result};

#[unsafe(no_mangle)]
pub extern "C" fn settle(
    measure: u64,
    n: u64,
    heads: &[u64],
    own: &[u64],
    strikes: &[u64],
    spans: &[u64],
    tails: &[u64],
    weights: &mut [u64],
    depths: &mut [u64],
    edges: &mut [u64],
    pieces: &mut [u64],
) -> u64
    ensures { let c = columns n heads.now own.now strikes.now spans.now tails.now in
        let a = entries weights.old depths.old edges.old pieces.old in
        let a' = entries weights.new depths.new edges.new pieces.new in
        record { result = result; left = a' } ≡ settled_result (measure_of measure) c a }
{
    counter::settle(
        measure, n, heads, own, strikes, spans, tails, weights, depths, edges, pieces,
    )
}

#[unsafe(no_mangle)]
pub extern "C" fn reprice(
    measure: u64,
    n: u64,
    heads: &[u64],
    own: &mut [u64],
    strikes: &[u64],
    spans: &[u64],
    tails: &[u64],
    weights: &mut [u64],
    depths: &mut [u64],
    edges: &mut [u64],
    pieces: &mut [u64],
    line: u64,
    figure: u64,
) -> u64
    ensures { let c = columns n heads.now own.old strikes.now spans.now tails.now in
        let a = entries weights.old depths.old edges.old pieces.old in
        let a' = entries weights.new depths.new edges.new pieces.new in
        record { result = result; own = own.new; left = a' } ≡ repriced_result (measure_of measure) c a line figure }
{
    counter::reprice(
        measure, n, heads, own, strikes, spans, tails, weights, depths, edges, pieces, line, figure,
    )
}

#[unsafe(no_mangle)]
pub extern "C" fn bill(
    measure: u64,
    n: u64,
    heads: &[u64],
    own: &[u64],
    strikes: &[u64],
    spans: &[u64],
    tails: &[u64],
    weights: &[u64],
    depths: &[u64],
    edges: &[u64],
    pieces: &[u64],
    part: u64,
    room: &mut [u64],
) -> u64
    ensures { let c = columns n heads.now own.now strikes.now spans.now tails.now in
        let a = entries weights.now depths.now edges.now pieces.now in
        record { result = result; left = room.new } ≡ billed_result (measure_of measure) c a part room.old }
{
    counter::bill(
        measure, n, heads, own, strikes, spans, tails, weights, depths, edges, pieces, part, room,
    )
}

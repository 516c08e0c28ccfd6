// The archive for programs in C: each call of the crate `tozbierdu`, under its own name. Nothing is
// done here.

#![tactic(auto)]

ghost use Rattle.std.specs.Prelude.{◌≡◌};
ghost use Rattle.refusal.specs.Refusals.{acceptance_result, measure_of};
ghost use Rattle.columns.specs.Columns.{columns, entries};
ghost use Rattle.columns.specs.Acceptance.{acceptance};
ghost use Rattle.columns.specs.Longer.{new_line};
ghost use Rattle.settle.specs.Settling.{entry_at};
ghost use Rattle.counter.specs.Results.{settled_result, repriced_result, billed_result};
ghost use Rattle.indextable.specs.Index.{table_indexed};
ghost use Rattle.text.specs.Machine.{parse};
ghost use Rattle.reading.specs.Lines.{reading_of};
ghost use Rattle.readtable.specs.Read.{read_table};
ghost use Rattle.statistics.specs.Summaries.{summary_of};
ghost use Rattle.shuffle.specs.Shuffled.{shuffle_outcome, unshuffle_outcome};
ghost use Rattle.topological.specs.Ordering.{ordered_acceptance};
ghost use Rattle.tozbierdu.specs.Results.{checked_result, stricken_result, restored_result, state_number, entry_written, read_left, read_result, written_result, indexed_result, used_counts, left_grown, appended_result, summary_left, text_column, ordered_result, replayed_result, laid_result};

#[unsafe(no_mangle)]
pub extern "C" fn tozbierdu_check_table(
    n: u64,
    heads: &[u64],
    own: &[u64],
    strikes: &[u64],
    spans: &[u64],
    tails: &[u64],
) -> u64
    ensures { let c = columns n heads.now own.now strikes.now spans.now tails.now in
        result ≡ acceptance_result (acceptance c) }
{
    tozbierdu::tozbierdu_check_table(n, heads, own, strikes, spans, tails)
}

#[unsafe(no_mangle)]
pub extern "C" fn tozbierdu_check_answers(
    measure: u64,
    n: u64,
    heads: &[u64],
    own: &[u64],
    strikes: &[u64],
    spans: &[u64],
    tails: &[u64],
    weights: &[u64],
    depths: &[u64],
    edges: &[u64],
    pieces: &[u64],
) -> u64
    ensures { let c = columns n heads.now own.now strikes.now spans.now tails.now in
        let a = entries weights.now depths.now edges.now pieces.now in
        result ≡ checked_result (measure_of measure) c a }
{
    tozbierdu::tozbierdu_check_answers(
        measure, n, heads, own, strikes, spans, tails, weights, depths, edges, pieces,
    )
}

#[unsafe(no_mangle)]
pub extern "C" fn tozbierdu_settle(
    measure: u64,
    n: u64,
    heads: &[u64],
    own: &[u64],
    strikes: &[u64],
    spans: &[u64],
    tails: &[u64],
    weights: &mut [u64],
    depths: &mut [u64],
    edges: &mut [u64],
    pieces: &mut [u64],
) -> u64
    ensures { let c = columns n heads.now own.now strikes.now spans.now tails.now in
        let a = entries weights.old depths.old edges.old pieces.old in
        let a' = entries weights.new depths.new edges.new pieces.new in
        record { result = result; left = a' } ≡ settled_result (measure_of measure) c a }
{
    tozbierdu::tozbierdu_settle(
        measure, n, heads, own, strikes, spans, tails, weights, depths, edges, pieces,
    )
}

#[unsafe(no_mangle)]
pub extern "C" fn tozbierdu_reprice(
    measure: u64,
    n: u64,
    heads: &[u64],
    own: &mut [u64],
    strikes: &[u64],
    spans: &[u64],
    tails: &[u64],
    weights: &mut [u64],
    depths: &mut [u64],
    edges: &mut [u64],
    pieces: &mut [u64],
    line: u64,
    figure: u64,
) -> u64
    ensures { let c = columns n heads.now own.old strikes.now spans.now tails.now in
        let a = entries weights.old depths.old edges.old pieces.old in
        let a' = entries weights.new depths.new edges.new pieces.new in
        record { result = result; own = own.new; left = a' } ≡ repriced_result (measure_of measure) c a line figure }
{
    tozbierdu::tozbierdu_reprice(
        measure, n, heads, own, strikes, spans, tails, weights, depths, edges, pieces, line, figure,
    )
}

#[unsafe(no_mangle)]
pub extern "C" fn tozbierdu_bill(
    measure: u64,
    n: u64,
    heads: &[u64],
    own: &[u64],
    strikes: &[u64],
    spans: &[u64],
    tails: &[u64],
    weights: &[u64],
    depths: &[u64],
    edges: &[u64],
    pieces: &[u64],
    part: u64,
    room: &mut [u64],
) -> u64
    ensures { let c = columns n heads.now own.now strikes.now spans.now tails.now in
        let a = entries weights.now depths.now edges.now pieces.now in
        record { result = result; left = room.new } ≡ billed_result (measure_of measure) c a part room.old }
{
    tozbierdu::tozbierdu_bill(
        measure, n, heads, own, strikes, spans, tails, weights, depths, edges, pieces, part, room,
    )
}

#[unsafe(no_mangle)]
pub extern "C" fn tozbierdu_strike(
    measure: u64,
    n: u64,
    heads: &[u64],
    own: &[u64],
    strikes: &mut [u64],
    spans: &[u64],
    tails: &[u64],
    weights: &mut [u64],
    depths: &mut [u64],
    edges: &mut [u64],
    pieces: &mut [u64],
    line: u64,
) -> u64
    ensures { let c = columns n heads.now own.now strikes.old spans.now tails.now in
        let a = entries weights.old depths.old edges.old pieces.old in
        let a' = entries weights.new depths.new edges.new pieces.new in
        record { result = result; strikes = strikes.new; left = a' } ≡ stricken_result (measure_of measure) c a line }
{
    tozbierdu::tozbierdu_strike(
        measure, n, heads, own, strikes, spans, tails, weights, depths, edges, pieces, line,
    )
}

#[unsafe(no_mangle)]
pub extern "C" fn tozbierdu_restore(
    measure: u64,
    n: u64,
    heads: &[u64],
    own: &[u64],
    strikes: &mut [u64],
    spans: &[u64],
    tails: &[u64],
    weights: &mut [u64],
    depths: &mut [u64],
    edges: &mut [u64],
    pieces: &mut [u64],
    line: u64,
) -> u64
    ensures { let c = columns n heads.now own.now strikes.old spans.now tails.now in
        let a = entries weights.old depths.old edges.old pieces.old in
        let a' = entries weights.new depths.new edges.new pieces.new in
        record { result = result; strikes = strikes.new; left = a' } ≡ restored_result (measure_of measure) c a line }
{
    tozbierdu::tozbierdu_restore(
        measure, n, heads, own, strikes, spans, tails, weights, depths, edges, pieces, line,
    )
}

// The state of a vertex's entry, with its figure, depth, line and piece count in the room if four
// places are lent.
#[unsafe(no_mangle)]
pub extern "C" fn tozbierdu_entry(
    weights: &[u64],
    depths: &[u64],
    edges: &[u64],
    pieces: &[u64],
    vertex: u64,
    room: &mut [u64],
) -> u64
    ensures number { let a = entries weights.now depths.now edges.now pieces.now in
        result ≡ state_number (entry_at a vertex).state }
    ensures written { let a = entries weights.now depths.now edges.now pieces.now in
        room.new ≡ entry_written (entry_at a vertex) room.old }
{
    tozbierdu::tozbierdu_entry(weights, depths, edges, pieces, vertex, room)
}

#[unsafe(no_mangle)]
pub extern "C" fn tozbierdu_read_table(
    text: &[u8],
    heads: &mut [u64],
    own: &mut [u64],
    strikes: &mut [u64],
    spans: &mut [u64],
    tails: &mut [u64],
    header: &mut [u64],
) -> u64
    ensures { let read = read_table text.now heads.old own.old strikes.old spans.old tails.old in
        let left = read_left result heads.new own.new strikes.new spans.new tails.new header.new in
        left ≡ read_result read header.old }
{
    tozbierdu::tozbierdu_read_table(text, heads, own, strikes, spans, tails, header)
}

#[unsafe(no_mangle)]
pub extern "C" fn tozbierdu_write_table(
    measure: u64,
    n: u64,
    heads: &[u64],
    own: &[u64],
    strikes: &[u64],
    spans: &[u64],
    tails: &[u64],
    room: &mut [u8],
) -> u64
    ensures { let c = columns n heads.now own.now strikes.now spans.now tails.now in
        record { result = result; left = room.new } ≡ written_result (measure_of measure) c room.old }
{
    tozbierdu::tozbierdu_write_table(measure, n, heads, own, strikes, spans, tails, room)
}

#[unsafe(no_mangle)]
pub extern "C" fn tozbierdu_index_table(
    n: u64,
    heads: &[u64],
    own: &[u64],
    strikes: &[u64],
    spans: &[u64],
    tails: &[u64],
    index: &mut [u64],
    list: &mut [u64],
) -> u64
    ensures { let c = columns n heads.now own.now strikes.now spans.now tails.now in
        let x = table_indexed c index.old list.old in
        record { result = result; index = index.new; list = list.new } ≡ indexed_result x }
{
    tozbierdu::tozbierdu_index_table(n, heads, own, strikes, spans, tails, index, list)
}

#[unsafe(no_mangle)]
pub extern "C" fn tozbierdu_append(
    measure: u64,
    n: u64,
    heads: &mut [u64],
    own: &mut [u64],
    strikes: &mut [u64],
    spans: &mut [u64],
    tails: &mut [u64],
    lines: u64,
    listed: u64,
    weights: &mut [u64],
    depths: &mut [u64],
    edges: &mut [u64],
    pieces: &mut [u64],
    index: &mut [u64],
    list: &mut [u64],
    head: u64,
    figure: u64,
    mark: u64,
    needed: &[u64],
    counts: &mut [u64],
) -> u64
    ensures { let c = columns n heads.old own.old strikes.old spans.old tails.old in
        let c' = columns n heads.new own.new strikes.new spans.new tails.new in
        let a = entries weights.old depths.old edges.old pieces.old in
        let a' = entries weights.new depths.new edges.new pieces.new in
        let k = used_counts lines listed in
        let l = new_line head figure mark needed.now in
        let o = left_grown result c' a' index.new list.new counts.new in
        o ≡ appended_result (measure_of measure) c k a index.old list.old l counts.old }
{
    tozbierdu::tozbierdu_append(
        measure, n, heads, own, strikes, spans, tails, lines, listed, weights, depths, edges,
        pieces, index, list, head, figure, mark, needed, counts,
    )
}

#[unsafe(no_mangle)]
pub extern "C" fn tozbierdu_summarize(results: &[u64], room: &mut [u64]) -> u64
    ensures { record { result = result; left = room.new } ≡ summary_left (summary_of results.now) room.old }
{
    tozbierdu::tozbierdu_summarize(results, room)
}

// The column at which a text is refused; 0 where it is permitted.
#[unsafe(no_mangle)]
pub extern "C" fn tozbierdu_text_column(text: &[u8]) -> u64
    ensures { result ≡ text_column (reading_of text.now (parse text.now)) }
{
    tozbierdu::tozbierdu_text_column(text)
}

#[unsafe(no_mangle)]
pub extern "C" fn tozbierdu_check_order(
    n: u64,
    heads: &[u64],
    own: &[u64],
    strikes: &[u64],
    spans: &[u64],
    tails: &[u64],
) -> u64
    ensures { let c = columns n heads.now own.now strikes.now spans.now tails.now in
        result ≡ acceptance_result (ordered_acceptance c) }
{
    tozbierdu::tozbierdu_check_order(n, heads, own, strikes, spans, tails)
}

#[unsafe(no_mangle)]
pub extern "C" fn tozbierdu_settle_ordered(
    measure: u64,
    n: u64,
    heads: &[u64],
    own: &[u64],
    strikes: &[u64],
    spans: &[u64],
    tails: &[u64],
    weights: &mut [u64],
    depths: &mut [u64],
    edges: &mut [u64],
    pieces: &mut [u64],
) -> u64
    ensures { let c = columns n heads.now own.now strikes.now spans.now tails.now in
        let a = entries weights.old depths.old edges.old pieces.old in
        let a' = entries weights.new depths.new edges.new pieces.new in
        record { result = result; left = a' } ≡ ordered_result (measure_of measure) c a }
{
    tozbierdu::tozbierdu_settle_ordered(
        measure, n, heads, own, strikes, spans, tails, weights, depths, edges, pieces,
    )
}

#[unsafe(no_mangle)]
pub extern "C" fn tozbierdu_replay(
    measure: u64,
    n: u64,
    heads: &[u64],
    own: &[u64],
    strikes: &[u64],
    spans: &[u64],
    tails: &[u64],
    weights: &[u64],
    depths: &[u64],
    edges: &[u64],
    pieces: &[u64],
    parts: &[u64],
    received: &[u64],
    stock: &mut [u64],
    outcomes: &mut [u64],
) -> u64
    ensures { let c = columns n heads.now own.now strikes.now spans.now tails.now in
        let a = entries weights.now depths.now edges.now pieces.now in
        record { result = result; stock = stock.new; outcomes = outcomes.new } ≡ replayed_result (measure_of measure) c a parts.now received.now stock.old outcomes.old }
{
    tozbierdu::tozbierdu_replay(
        measure, n, heads, own, strikes, spans, tails, weights, depths, edges, pieces, parts,
        received, stock, outcomes,
    )
}

#[unsafe(no_mangle)]
pub extern "C" fn tozbierdu_shuffle(own: &[u64], room: &mut [u8]) -> u64
    ensures { record { result = result; left = room.new } ≡ laid_result (shuffle_outcome own.now room.old) }
{
    tozbierdu::tozbierdu_shuffle(own, room)
}

#[unsafe(no_mangle)]
pub extern "C" fn tozbierdu_unshuffle(bytes: &[u8], own: &mut [u64]) -> u64
    ensures { record { result = result; left = own.new } ≡ laid_result (unshuffle_outcome bytes.now own.old) }
{
    tozbierdu::tozbierdu_unshuffle(bytes, own)
}

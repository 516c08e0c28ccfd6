// The calls of the archive for programs in C, which the crate `tozbierdu_c` builds: every call, under
// a name that begins with `tozbierdu_`. A measure comes as a number and is checked before everything;
// each call gives one number.

#![tactic(auto)]

ghost use Rattle.std.specs.Prelude.{◌≡◌};
ghost use Rattle.refusal.specs.Refusals.{acceptance_result, measure_of};
ghost use Rattle.columns.specs.Columns.{columns, entries};
ghost use Rattle.columns.specs.Acceptance.{acceptance};
ghost use Rattle.columns.specs.Longer.{new_line};
ghost use Rattle.settle.specs.Settling.{entry_at};
ghost use Rattle.counter.specs.Results.{settled_result, repriced_result, billed_result};
ghost use Rattle.indextable.specs.Index.{table_indexed};
ghost use Rattle.text.specs.Machine.{parse};
ghost use Rattle.reading.specs.Lines.{reading_of};
ghost use Rattle.readtable.specs.Read.{read_table};
ghost use Rattle.statistics.specs.Summaries.{summary_of};
ghost use Rattle.shuffle.specs.Shuffled.{shuffle_outcome, unshuffle_outcome};
ghost use Rattle.topological.specs.Ordering.{ordered_acceptance};
ghost use Rattle.tozbierdu.specs.Results.{checked_result, stricken_result, restored_result, state_number, entry_written, measure_number, header_written, read_left, read_result, written_result, indexed_result, counts_written, used_counts, left_grown, appended_result, moments_written, summary_left, text_column, ordered_result, replayed_result, laid_result};

use append::NewLine;
use columns::{Entries, Table};
use refusal::{Counts, Header};
use statistics::Moments;
use weights::{Hyperedge, Mark, Measure, State, Vertex, Weight};

#[unsafe(no_mangle)]
pub extern "C" fn tozbierdu_check_table(
    n: u64,
    heads: &[u64],
    own: &[u64],
    strikes: &[u64],
    spans: &[u64],
    tails: &[u64],
) -> u64
    ensures { let c = columns n heads.now own.now strikes.now spans.now tails.now in
        result ≡ acceptance_result (acceptance c) }
{
    let a = columns::check_table(&Table {
        vertices: n,
        heads,
        own,
        strikes,
        spans,
        tails,
    });
    refusal::result(a)
}

#[unsafe(no_mangle)]
pub extern "C" fn tozbierdu_check_answers(
    measure: u64,
    n: u64,
    heads: &[u64],
    own: &[u64],
    strikes: &[u64],
    spans: &[u64],
    tails: &[u64],
    weights: &[u64],
    depths: &[u64],
    edges: &[u64],
    pieces: &[u64],
) -> u64
    ensures { let c = columns n heads.now own.now strikes.now spans.now tails.now in
        let a = entries weights.now depths.now edges.now pieces.now in
        result ≡ checked_result (measure_of measure) c a }
{
    let choice = refusal::measure_numbered(measure);
    match choice {
        Err(r) => return r.result(),
        Ok(m) => {
            let v = settle::check_answers(
                m,
                &Table {
                    vertices: n,
                    heads,
                    own,
                    strikes,
                    spans,
                    tails,
                },
                &Entries {
                    weights,
                    depths,
                    edges,
                    pieces,
                },
            );
            return refusal::result(v);
        }
    }
}

#[unsafe(no_mangle)]
pub extern "C" fn tozbierdu_settle(
    measure: u64,
    n: u64,
    heads: &[u64],
    own: &[u64],
    strikes: &[u64],
    spans: &[u64],
    tails: &[u64],
    weights: &mut [u64],
    depths: &mut [u64],
    edges: &mut [u64],
    pieces: &mut [u64],
) -> u64
    ensures { let c = columns n heads.now own.now strikes.now spans.now tails.now in
        let a = entries weights.old depths.old edges.old pieces.old in
        let a' = entries weights.new depths.new edges.new pieces.new in
        record { result = result; left = a' } ≡ settled_result (measure_of measure) c a }
{
    counter::settle(
        measure, n, heads, own, strikes, spans, tails, weights, depths, edges, pieces,
    )
}

#[unsafe(no_mangle)]
pub extern "C" fn tozbierdu_reprice(
    measure: u64,
    n: u64,
    heads: &[u64],
    own: &mut [u64],
    strikes: &[u64],
    spans: &[u64],
    tails: &[u64],
    weights: &mut [u64],
    depths: &mut [u64],
    edges: &mut [u64],
    pieces: &mut [u64],
    line: u64,
    figure: u64,
) -> u64
    ensures { let c = columns n heads.now own.old strikes.now spans.now tails.now in
        let a = entries weights.old depths.old edges.old pieces.old in
        let a' = entries weights.new depths.new edges.new pieces.new in
        record { result = result; own = own.new; left = a' } ≡ repriced_result (measure_of measure) c a line figure }
{
    counter::reprice(
        measure, n, heads, own, strikes, spans, tails, weights, depths, edges, pieces, line, figure,
    )
}

#[unsafe(no_mangle)]
pub extern "C" fn tozbierdu_bill(
    measure: u64,
    n: u64,
    heads: &[u64],
    own: &[u64],
    strikes: &[u64],
    spans: &[u64],
    tails: &[u64],
    weights: &[u64],
    depths: &[u64],
    edges: &[u64],
    pieces: &[u64],
    part: u64,
    room: &mut [u64],
) -> u64
    ensures { let c = columns n heads.now own.now strikes.now spans.now tails.now in
        let a = entries weights.now depths.now edges.now pieces.now in
        record { result = result; left = room.new } ≡ billed_result (measure_of measure) c a part room.old }
{
    counter::bill(
        measure, n, heads, own, strikes, spans, tails, weights, depths, edges, pieces, part, room,
    )
}

#[unsafe(no_mangle)]
pub extern "C" fn tozbierdu_strike(
    measure: u64,
    n: u64,
    heads: &[u64],
    own: &[u64],
    strikes: &mut [u64],
    spans: &[u64],
    tails: &[u64],
    weights: &mut [u64],
    depths: &mut [u64],
    edges: &mut [u64],
    pieces: &mut [u64],
    line: u64,
) -> u64
    ensures { let c = columns n heads.now own.now strikes.old spans.now tails.now in
        let a = entries weights.old depths.old edges.old pieces.old in
        let a' = entries weights.new depths.new edges.new pieces.new in
        record { result = result; strikes = strikes.new; left = a' } ≡ stricken_result (measure_of measure) c a line }
{
    let choice = refusal::measure_numbered(measure);
    match choice {
        Err(r) => return r.result(),
        Ok(m) => {
            let a = reprice::strike(
                m,
                n,
                heads,
                own,
                strikes,
                spans,
                tails,
                weights,
                depths,
                edges,
                pieces,
                Hyperedge(line),
            );
            return refusal::result(a);
        }
    }
}

#[unsafe(no_mangle)]
pub extern "C" fn tozbierdu_restore(
    measure: u64,
    n: u64,
    heads: &[u64],
    own: &[u64],
    strikes: &mut [u64],
    spans: &[u64],
    tails: &[u64],
    weights: &mut [u64],
    depths: &mut [u64],
    edges: &mut [u64],
    pieces: &mut [u64],
    line: u64,
) -> u64
    ensures { let c = columns n heads.now own.now strikes.old spans.now tails.now in
        let a = entries weights.old depths.old edges.old pieces.old in
        let a' = entries weights.new depths.new edges.new pieces.new in
        record { result = result; strikes = strikes.new; left = a' } ≡ restored_result (measure_of measure) c a line }
{
    let choice = refusal::measure_numbered(measure);
    match choice {
        Err(r) => return r.result(),
        Ok(m) => {
            let a = reprice::restore(
                m,
                n,
                heads,
                own,
                strikes,
                spans,
                tails,
                weights,
                depths,
                edges,
                pieces,
                Hyperedge(line),
            );
            return refusal::result(a);
        }
    }
}

// The number of a state.
fn state_number(state: State) -> u64
    ensures { result ≡ state_number state }
{
    match state {
        State::Made => 0,
        State::Over => 1,
        State::Unmade => 2,
    }
}

// The state of a vertex's entry, with its figure, depth, line and piece count in the room if four
// places are lent.
#[unsafe(no_mangle)]
pub extern "C" fn tozbierdu_entry(
    weights: &[u64],
    depths: &[u64],
    edges: &[u64],
    pieces: &[u64],
    vertex: u64,
    room: &mut [u64],
) -> u64
    ensures number { let a = entries weights.now depths.now edges.now pieces.now in
        result ≡ state_number (entry_at a vertex).state }
    ensures written { let a = entries weights.now depths.now edges.now pieces.now in
        room.new ≡ entry_written (entry_at a vertex) room.old }
{
    let e = settle::entry(
        &Entries {
            weights,
            depths,
            edges,
            pieces,
        },
        Vertex(vertex),
    );
    let state = e.state;
    if room.len() != 4 {
        return state_number(state);
    }
    let weight = e.weight;
    let root = e.edge;
    room[0] = weight.0;
    room[1] = e.depth;
    room[2] = root.0;
    room[3] = e.pieces;
    state_number(state)
}

// The number of a measure.
fn measure_number(measure: Measure) -> u64
    ensures { result ≡ measure_number measure }
{
    match measure {
        Measure::Cost => 0,
        Measure::Days => 1,
        Measure::Grade => 2,
    }
}

// What a text said of its table, in the room if four places are lent.
fn write_header(header: Header, room: &mut [u64])
    ensures { room.new ≡ header_written header room.old }
{
    if room.len() != 4 {
        return;
    }
    let measure = header.measure;
    let number = measure_number(measure);
    room[0] = header.vertices;
    room[1] = number;
    room[2] = header.edges;
    room[3] = header.listed;
}

#[unsafe(no_mangle)]
pub extern "C" fn tozbierdu_read_table(
    text: &[u8],
    heads: &mut [u64],
    own: &mut [u64],
    strikes: &mut [u64],
    spans: &mut [u64],
    tails: &mut [u64],
    header: &mut [u64],
) -> u64
    ensures { let read = read_table text.now heads.old own.old strikes.old spans.old tails.old in
        let left = read_left result heads.new own.new strikes.new spans.new tails.new header.new in
        left ≡ read_result read header.old }
{
    let reading = readtable::read_table(text, heads, own, strikes, spans, tails);
    match reading {
        Err(r) => return r.result(),
        Ok(h) => {
            write_header(h, header);
            return 0;
        }
    }
}

#[unsafe(no_mangle)]
pub extern "C" fn tozbierdu_write_table(
    measure: u64,
    n: u64,
    heads: &[u64],
    own: &[u64],
    strikes: &[u64],
    spans: &[u64],
    tails: &[u64],
    room: &mut [u8],
) -> u64
    ensures { let c = columns n heads.now own.now strikes.now spans.now tails.now in
        record { result = result; left = room.new } ≡ written_result (measure_of measure) c room.old }
{
    let choice = refusal::measure_numbered(measure);
    match choice {
        Err(r) => return r.result(),
        Ok(m) => {
            let x = writetable::write_table(
                m,
                &Table {
                    vertices: n,
                    heads,
                    own,
                    strikes,
                    spans,
                    tails,
                },
                room,
            );
            return refusal::result(x);
        }
    }
}

#[unsafe(no_mangle)]
pub extern "C" fn tozbierdu_index_table(
    n: u64,
    heads: &[u64],
    own: &[u64],
    strikes: &[u64],
    spans: &[u64],
    tails: &[u64],
    index: &mut [u64],
    list: &mut [u64],
) -> u64
    ensures { let c = columns n heads.now own.now strikes.now spans.now tails.now in
        let x = table_indexed c index.old list.old in
        record { result = result; index = index.new; list = list.new } ≡ indexed_result x }
{
    let x = indextable::index_table(
        &Table {
            vertices: n,
            heads,
            own,
            strikes,
            spans,
            tails,
        },
        index,
        list,
    );
    refusal::result(x)
}

// The new counts, in the room if two places are lent.
fn write_counts(counts: Counts, room: &mut [u64])
    ensures { room.new ≡ counts_written counts room.old }
{
    if room.len() != 2 {
        return;
    }
    room[0] = counts.edges;
    room[1] = counts.listed;
}

#[unsafe(no_mangle)]
pub extern "C" fn tozbierdu_append(
    measure: u64,
    n: u64,
    heads: &mut [u64],
    own: &mut [u64],
    strikes: &mut [u64],
    spans: &mut [u64],
    tails: &mut [u64],
    lines: u64,
    listed: u64,
    weights: &mut [u64],
    depths: &mut [u64],
    edges: &mut [u64],
    pieces: &mut [u64],
    index: &mut [u64],
    list: &mut [u64],
    head: u64,
    figure: u64,
    mark: u64,
    needed: &[u64],
    counts: &mut [u64],
) -> u64
    ensures { let c = columns n heads.old own.old strikes.old spans.old tails.old in
        let c' = columns n heads.new own.new strikes.new spans.new tails.new in
        let a = entries weights.old depths.old edges.old pieces.old in
        let a' = entries weights.new depths.new edges.new pieces.new in
        let k = used_counts lines listed in
        let l = new_line head figure mark needed.now in
        let o = left_grown result c' a' index.new list.new counts.new in
        o ≡ appended_result (measure_of measure) c k a index.old list.old l counts.old }
{
    let choice = refusal::measure_numbered(measure);
    match choice {
        Err(r) => return r.result(),
        Ok(m) => {
            let a = append::append(
                m,
                n,
                heads,
                own,
                strikes,
                spans,
                tails,
                Counts {
                    edges: lines,
                    listed,
                },
                weights,
                depths,
                edges,
                pieces,
                index,
                list,
                &NewLine {
                    head: Vertex(head),
                    own: Weight(figure),
                    mark: Mark(mark),
                    tail: needed,
                },
            );
            match a {
                Err(r) => return r.result(),
                Ok(k) => {
                    write_counts(k, counts);
                    return 0;
                }
            }
        }
    }
}

// The mean and the variance, in the room if four places are lent.
fn write_moments(moments: Moments, room: &mut [u64])
    ensures { room.new ≡ moments_written moments room.old }
{
    if room.len() != 4 {
        return;
    }
    let mean = moments.mean;
    let variance = moments.variance;
    room[0] = mean.numerator;
    room[1] = mean.denominator;
    room[2] = variance.numerator;
    room[3] = variance.denominator;
}

#[unsafe(no_mangle)]
pub extern "C" fn tozbierdu_summarize(results: &[u64], room: &mut [u64]) -> u64
    ensures { record { result = result; left = room.new } ≡ summary_left (summary_of results.now) room.old }
{
    let s = statistics::summarize(results);
    match s {
        Err(r) => return r.result(),
        Ok(m) => {
            write_moments(m, room);
            return 0;
        }
    }
}

// The column at which a text is refused; 0 where it is permitted.
#[unsafe(no_mangle)]
pub extern "C" fn tozbierdu_text_column(text: &[u8]) -> u64
    ensures { result ≡ text_column (reading_of text.now (parse text.now)) }
{
    let reading = reading::check_text(text);
    match reading {
        Err(r) => return r.column(),
        Ok(_) => return 0,
    }
}

#[unsafe(no_mangle)]
pub extern "C" fn tozbierdu_check_order(
    n: u64,
    heads: &[u64],
    own: &[u64],
    strikes: &[u64],
    spans: &[u64],
    tails: &[u64],
) -> u64
    ensures { let c = columns n heads.now own.now strikes.now spans.now tails.now in
        result ≡ acceptance_result (ordered_acceptance c) }
{
    let a = topological::check_order(&Table {
        vertices: n,
        heads,
        own,
        strikes,
        spans,
        tails,
    });
    refusal::result(a)
}

#[unsafe(no_mangle)]
pub extern "C" fn tozbierdu_settle_ordered(
    measure: u64,
    n: u64,
    heads: &[u64],
    own: &[u64],
    strikes: &[u64],
    spans: &[u64],
    tails: &[u64],
    weights: &mut [u64],
    depths: &mut [u64],
    edges: &mut [u64],
    pieces: &mut [u64],
) -> u64
    ensures { let c = columns n heads.now own.now strikes.now spans.now tails.now in
        let a = entries weights.old depths.old edges.old pieces.old in
        let a' = entries weights.new depths.new edges.new pieces.new in
        record { result = result; left = a' } ≡ ordered_result (measure_of measure) c a }
{
    let choice = refusal::measure_numbered(measure);
    match choice {
        Err(r) => return r.result(),
        Ok(m) => {
            let a = topological::settle_ordered(
                m,
                &Table {
                    vertices: n,
                    heads,
                    own,
                    strikes,
                    spans,
                    tails,
                },
                weights,
                depths,
                edges,
                pieces,
            );
            return refusal::result(a);
        }
    }
}

#[unsafe(no_mangle)]
pub extern "C" fn tozbierdu_replay(
    measure: u64,
    n: u64,
    heads: &[u64],
    own: &[u64],
    strikes: &[u64],
    spans: &[u64],
    tails: &[u64],
    weights: &[u64],
    depths: &[u64],
    edges: &[u64],
    pieces: &[u64],
    parts: &[u64],
    received: &[u64],
    stock: &mut [u64],
    outcomes: &mut [u64],
) -> u64
    ensures { let c = columns n heads.now own.now strikes.now spans.now tails.now in
        let a = entries weights.now depths.now edges.now pieces.now in
        record { result = result; stock = stock.new; outcomes = outcomes.new } ≡ replayed_result (measure_of measure) c a parts.now received.now stock.old outcomes.old }
{
    let choice = refusal::measure_numbered(measure);
    match choice {
        Err(r) => return r.result(),
        Ok(m) => {
            let a = inventory::replay(
                m,
                &Table {
                    vertices: n,
                    heads,
                    own,
                    strikes,
                    spans,
                    tails,
                },
                &Entries {
                    weights,
                    depths,
                    edges,
                    pieces,
                },
                parts,
                received,
                stock,
                outcomes,
            );
            return refusal::result(a);
        }
    }
}

#[unsafe(no_mangle)]
pub extern "C" fn tozbierdu_shuffle(own: &[u64], room: &mut [u8]) -> u64
    ensures { record { result = result; left = room.new } ≡ laid_result (shuffle_outcome own.now room.old) }
{
    let a = shuffle::shuffle(own, room);
    refusal::result(a)
}

#[unsafe(no_mangle)]
pub extern "C" fn tozbierdu_unshuffle(bytes: &[u8], own: &mut [u64]) -> u64
    ensures { record { result = result; left = own.new } ≡ laid_result (unshuffle_outcome bytes.now own.old) }
{
    let a = shuffle::unshuffle(bytes, own);
    refusal::result(a)
}

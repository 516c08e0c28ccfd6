// Replaying a record of receipts and orders over the counts of a shelf: what became of each event, and
// what is left.
//
// Kept: columns and rooms are lent, or arrays of a fixed size: the library and its programs use no heap.

#![tactic(auto)]

ghost use Rattle.std.specs.Prelude.{◌≡◌, true, ◌≤◌, ◌<◌, length};
ghost use Rattle.columns.specs.Columns.{cell};
ghost use Rattle.columns.specs.Given.{columns_of, entries_in};
ghost use Rattle.provenance.specs.Counting.{count};
ghost use Rattle.inventory.specs.Replaying.{outcome_number, suffices, consumed, build, fulfil, receive, apply_event, ran, replay_from, opening_acceptance, record_acceptance, open_acceptance, concluded, replayed};
ghost use Rattle.inventory.specs.Shelf.{most_stock, chosen_tail, Inside, Low, Buildable, Replayable, Copied};

use columns::{Entries, Table};
use refusal::{Event, Refusal};
use weights::{Hyperedge, Measure, Vertex};

// The most events of a record, and the greatest count of a vertex.
pub const MOST_EVENTS: usize = 4096;

pub const MOST_STOCK: u64 = 1000000;

// What becomes of an event.
#[derive(Clone, Copy, PartialEq, Eq)]
enum Fulfilment {
    // A receipt: its pieces are on the shelf.
    Received,
    // An order that took a piece from the shelf.
    Issued,
    // An order that took what the chosen hyperedge lists.
    Built,
    // An order that took nothing.
    Late,
}

// The number that stands for it in the column of outcomes.
impl From<Fulfilment> for u64 {
    ghost from_gives = { λ f number. number ≡ outcome_number f };

    fn from(f: Fulfilment) -> u64 {
        match f {
            Fulfilment::Received => 0,
            Fulfilment::Issued => 1,
            Fulfilment::Built => 2,
            Fulfilment::Late => 3,
        }
    }
}

// How often v stands in a list.
fn count(v: Vertex, list: &[u64]) -> u64
    ensures { result ≡ count v.0 list.now }
{
    // Kept: `filter(..).count()` branches at each place, which takes up to nine times as long.
    let mut times: u64 = 0;
    for x in list {
        if *x == v.0 {
            times += 1;
        }
    }
    times
}

// Whether the shelf has every vertex of a tail as often as it stands there.
fn suffices(tail: &[u64], stock: &[u64]) -> bool
    requires { Inside tail.now stock.now }
    ensures { result ≡ suffices stock.now tail.now }
{
    for &u in tail {
        if count(Vertex(u), tail) > stock[u as usize] {
            return false;
        }
    }
    true
}

// Each place of a tail takes a piece from a shelf that has enough.
fn consume(tail: &[u64], stock: &mut [u64])
    requires { (Inside tail.now stock.old) × (suffices stock.old tail.now ≡ true) }
    ensures { stock.new ≡ consumed stock.old tail.now }
{
    for &u in tail {
        stock[u as usize] -= 1;
    }
}

// An order of a vertex that is not on the shelf, and whose chosen hyperedge has this tail. What is
// needed is looked at before anything is taken.
fn build(tail: &[u64], stock: &mut [u64]) -> Fulfilment
    requires { Inside tail.now stock.old }
    ensures { record { outcome = result; stock = stock.new } ≡ build stock.old tail.now }
{
    if tail.len() == 0 {
        return Fulfilment::Late;
    }
    if !suffices(tail, stock) {
        return Fulfilment::Late;
    }
    consume(tail, stock);
    Fulfilment::Built
}

// An order of v: a piece from the shelf, or a built one.
fn fulfil(
    v: Vertex,
    spans: &[u64],
    tails: &[u64],
    depths: &[u64],
    edges: &[u64],
    stock: &mut [u64],
) -> Fulfilment
    requires { (Buildable spans.now tails.now depths.now edges.now (length stock.old)) × (v.0 < length stock.old) }
    ensures { let lists = chosen_tail spans.now tails.now depths.now edges.now in
        record { outcome = result; stock = stock.new } ≡ fulfil lists stock.old v.0 }
{
    let i = v.0 as usize;
    let held = stock[i];
    if held > 0 {
        stock[i] = held - 1;
        return Fulfilment::Issued;
    }
    let depth = depths[i];
    if depth == 0 {
        return Fulfilment::Late;
    }
    let root = edges[i];
    let tail = columns::tail_of(Hyperedge(root), spans, tails);
    build(tail, stock)
}

// A receipt of event i. The count is compared with what is left to the greatest, as the sum could
// wrap.
fn receive(i: Event, v: Vertex, pieces: u64, stock: &mut [u64]) -> Result<Fulfilment, Refusal>
    requires { (v.0 < length stock.old) × (cell stock.old v.0 ≤ most_stock) }
    ensures { record { result = result; stock = stock.new } ≡ receive i.0 stock.old v.0 pieces }
{
    let place = v.0 as usize;
    let held = stock[place];
    if pieces > MOST_STOCK - held {
        return Err(Refusal::ReceivedCount(i));
    }
    stock[place] = held + pieces;
    Ok(Fulfilment::Received)
}

// Event i: a receipt of so many pieces of v, or with 0 pieces an order.
fn apply_event(
    i: Event,
    v: Vertex,
    pieces: u64,
    spans: &[u64],
    tails: &[u64],
    depths: &[u64],
    edges: &[u64],
    stock: &mut [u64],
) -> Result<Fulfilment, Refusal>
    requires { (Buildable spans.now tails.now depths.now edges.now (length stock.old)) × (Low stock.old) }
    ensures { let lists = chosen_tail spans.now tails.now depths.now edges.now in
        record { result = result; stock = stock.new } ≡ apply_event lists i.0 v.0 pieces stock.old }
{
    if v.0 >= stock.len() as u64 {
        return Err(Refusal::EventVertex(i));
    }
    if pieces > 0 {
        return receive(i, v, pieces, stock);
    }
    Ok(fulfil(v, spans, tails, depths, edges, stock))
}

// The events in order. Where one is refused, the counts and outcomes so far are of no use.
fn replay_events(
    parts: &[u64],
    received: &[u64],
    spans: &[u64],
    tails: &[u64],
    depths: &[u64],
    edges: &[u64],
    stock: &mut [u64],
    outcomes: &mut [u64],
) -> Result<(), Refusal>
    requires { Replayable spans.now tails.now depths.now edges.now parts.now received.now stock.old outcomes.old }
    ensures { let lists = chosen_tail spans.now tails.now depths.now edges.now in
        ran result stock.new outcomes.new ≡ replay_from lists 0 parts.now received.now stock.old }
{
    for (i, &v) in parts.iter().enumerate() {
        let step = apply_event(
            Event(i as u64),
            Vertex(v),
            received[i],
            spans,
            tails,
            depths,
            edges,
            stock,
        );
        match step {
            Err(r) => return Err(r),
            Ok(f) => outcomes[i] = u64::from(f),
        }
    }
    Ok(())
}

// The same over copies, so that a refused record leaves the lent counts and outcomes as they came.
fn replay_on(
    parts: &[u64],
    received: &[u64],
    spans: &[u64],
    tails: &[u64],
    depths: &[u64],
    edges: &[u64],
    stock: &mut [u64],
    outcomes: &mut [u64],
    counts: &mut [u64],
    numbers: &mut [u64],
) -> Result<(), Refusal>
    requires { (Replayable spans.now tails.now depths.now edges.now parts.now received.now stock.old outcomes.old) × (Copied stock.old outcomes.old counts.old numbers.old) }
    ensures { let lists = chosen_tail spans.now tails.now depths.now edges.now in
        let run = replay_from lists 0 parts.now received.now stock.old in
        record { result = result; stock = stock.new; outcomes = outcomes.new } ≡ concluded run stock.old outcomes.old }
{
    columns::put(stock, counts);
    replay_events(
        parts, received, spans, tails, depths, edges, counts, numbers,
    )?;
    columns::put(counts, stock);
    columns::put(numbers, outcomes);
    Ok(())
}

// Whether every opening count is at most the greatest: 26.
fn check_opening(stock: &[u64]) -> Result<(), Refusal>
    ensures { result ≡ opening_acceptance 0 stock.now }
{
    for (i, &held) in stock.iter().enumerate() {
        if held > MOST_STOCK {
            return Err(Refusal::OpeningCount(Vertex(i as u64)));
        }
    }
    Ok(())
}

// 1, and 2 of the record: it comes before 2 of the table, which has the same number and place.
fn check_record(n: u64, parts: &[u64], received: &[u64], outcomes: &[u64]) -> Result<(), Refusal>
    ensures { result ≡ record_acceptance n parts.now received.now outcomes.now }
{
    if n > columns::MOST_VERTICES {
        return Err(Refusal::TooManyVertices);
    }
    if received.len() != parts.len() {
        return Err(Refusal::Lengths);
    }
    if outcomes.len() != parts.len() {
        return Err(Refusal::Lengths);
    }
    if parts.len() > MOST_EVENTS {
        return Err(Refusal::Lengths);
    }
    Ok(())
}

// Whether the table, its answers, the record's lengths and the opening counts are right: 1 to 8 and
// 21, then 26.
fn check_open(
    measure: Measure,
    table: &Table,
    entries: &Entries,
    parts: &[u64],
    received: &[u64],
    stock: &[u64],
    outcomes: &[u64],
) -> Result<(), Refusal>
    ensures { let c = columns_of table.now in
        let a = entries_in entries.now in
        result ≡ open_acceptance measure c a parts.now received.now stock.now outcomes.now }
{
    let Table { vertices: n, .. } = *table;
    check_record(n, parts, received, outcomes)?;
    columns::check_lent(table, entries)?;
    if stock.len() as u64 != n {
        return Err(Refusal::AnswerLength);
    }
    if !settle::answers_right(measure, table, entries) {
        return Err(Refusal::WrongAnswers);
    }
    check_opening(stock)
}

// Replays the record over the counts of the shelf: the counts become the final ones, and the column of
// outcomes gets what became of each event.
pub fn replay(
    measure: Measure,
    table: &Table,
    entries: &Entries,
    parts: &[u64],
    received: &[u64],
    stock: &mut [u64],
    outcomes: &mut [u64],
) -> Result<(), Refusal>
    ensures { let c = columns_of table.now in
        let a = entries_in entries.now in
        record { result = result; stock = stock.new; outcomes = outcomes.new } ≡ replayed measure c a parts.now received.now stock.old outcomes.old }
{
    let Entries { depths, edges, .. } = *entries;
    let Table { spans, tails, .. } = *table;
    check_open(measure, table, entries, parts, received, stock, outcomes)?;
    let mut counts = [0u64; 1024];
    let mut numbers = [0u64; 4096];
    let vertices = stock.len();
    let events = parts.len();
    replay_on(
        parts,
        received,
        spans,
        tails,
        depths,
        edges,
        stock,
        outcomes,
        &mut counts[..vertices],
        &mut numbers[..events],
    )
}

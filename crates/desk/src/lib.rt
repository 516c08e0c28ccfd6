// The program for the desks: a command over a table's text, and what it prints.
//
// Kept: columns and rooms are lent, or arrays of a fixed size: the library and its programs use no heap.

#![tactic(auto)]

ghost use Rattle.std.specs.Prelude.{◌≡◌, [], ◌≤◌, length, Ok};
ghost use Rattle.columns.specs.Columns.{columns, entries};
ghost use Rattle.columns.specs.Acceptance.{acceptance};
ghost use Rattle.reply.specs.Reply.{most_reply, answered, misused, on_acceptance, Replied};
ghost use Rattle.weights.specs.Figures.{standing};
ghost use Rattle.columns.specs.Longer.{new_line};
ghost use Rattle.columns.specs.Given.{entries_in};
ghost use Rattle.readtable.specs.Read.{read_outcome};
ghost use Rattle.report.specs.Report.{list, blank_entries};
ghost use Rattle.report.specs.Pieces.{lent_columns};
ghost use Rattle.desk.specs.Desk.{answer_said, settled_said, table_said, indexed_said, append_said, read_said, input_said, sample_said, desk_said, Answered, Stands, Takes};

use columns::{Entries, Table};
use command::{Command, MOST_NUMBERS, Query, Question, read_command};
use readtable::read_table;
use refusal::{Counts, Header, Refusal};
use reply::{MOST_REPLY, Reply, Status, put_refusal};
use report::MOST_INPUT;
use weights::{Measure, Vertex, Weight};

// Nothing is printed on acceptance, and on a refusal its line.
fn put_acceptance(room: &mut [u8], answer: Result<(), Refusal>) -> Reply
    requires { most_reply ≤ length room.old }
    ensures { Replied (on_acceptance answer (answered [])) room.old result room.new }
{
    match answer {
        Err(r) => put_refusal(room, r),
        Ok(()) => Reply {
            width: 0,
            status: Status::Answered,
        },
    }
}

// The list of a table's entries.
fn put_entries(room: &mut [u8], entries: &Entries) -> Reply
    requires { length (list (entries_in entries.now) (length entries.now.depths.now)) ≤ length room.old }
    ensures { let a = entries_in entries.now in
        Replied (answered (list a (length entries.now.depths.now))) room.old result room.new }
{
    let width = report::put_list(room, entries);
    Reply {
        width,
        status: Status::Answered,
    }
}

// What is printed of a table and its answers.
fn put_answer<'a>(
    room: &mut [u8],
    question: Question,
    measure: Measure,
    n: u64,
    heads: &'a [u64],
    own: &'a mut [u64],
    strikes: &'a mut [u64],
    spans: &'a [u64],
    tails: &'a [u64],
    weights: &'a mut [u64],
    depths: &'a mut [u64],
    edges: &'a mut [u64],
    pieces: &'a mut [u64],
    second: &[u8],
) -> Reply
    requires { let c = columns n heads.now own.old strikes.old spans.now tails.now in
        let a = entries weights.old depths.old edges.old pieces.old in
        Answered measure c a (length room.old) }
    ensures { let c = columns n heads.now own.old strikes.old spans.now tails.now in
        let a = entries weights.old depths.old edges.old pieces.old in
        Replied (answer_said second.now question measure c a) room.old result room.new }
{
    match question {
        Question::Price => put_entries(
            room,
            &Entries {
                weights,
                depths,
                edges,
                pieces,
            },
        ),
        Question::Bill(v) => quote::put_bill(
            room,
            measure,
            &Table {
                vertices: n,
                heads,
                own,
                strikes,
                spans,
                tails,
            },
            &Entries {
                weights,
                depths,
                edges,
                pieces,
            },
            v,
        ),
        Question::Reprice(e, w) => amend::put_repriced(
            room, measure, n, heads, own, strikes, spans, tails, weights, depths, edges, pieces, e,
            w,
        ),
        Question::Strike(e) => amend::put_stricken(
            room, measure, n, heads, own, strikes, spans, tails, weights, depths, edges, pieces, e,
        ),
        Question::Restore(e) => amend::put_restored(
            room, measure, n, heads, own, strikes, spans, tails, weights, depths, edges, pieces, e,
        ),
        Question::Compare => compare::put_comparison(
            room,
            n,
            &Entries {
                weights,
                depths,
                edges,
                pieces,
            },
            second,
        ),
        Question::Replay => ledger::put_replay(
            room,
            measure,
            &Table {
                vertices: n,
                heads,
                own,
                strikes,
                spans,
                tails,
            },
            &Entries {
                weights,
                depths,
                edges,
                pieces,
            },
            second,
        ),
    }
}

// The table is settled first.
fn put_settled<'a>(
    room: &mut [u8],
    question: Question,
    measure: Measure,
    n: u64,
    heads: &'a [u64],
    own: &'a mut [u64],
    strikes: &'a mut [u64],
    spans: &'a [u64],
    tails: &'a [u64],
    weights: &mut [u64],
    depths: &mut [u64],
    edges: &mut [u64],
    pieces: &mut [u64],
    second: &[u8],
) -> Reply
    requires { most_reply ≤ length room.old }
    ensures { let c = columns n heads.now own.old strikes.old spans.now tails.now in
        let a = entries weights.old depths.old edges.old pieces.old in
        Replied (settled_said measure c a (answer_said second.now question measure c)) room.old result room.new }
{
    let answer = settle::settle(
        measure,
        &Table {
            vertices: n,
            heads,
            own,
            strikes,
            spans,
            tails,
        },
        weights,
        depths,
        edges,
        pieces,
    );
    match answer {
        Err(r) => return put_refusal(room, r),
        Ok(()) => {}
    }
    put_answer(
        room, question, measure, n, heads, own, strikes, spans, tails, weights, depths, edges,
        pieces, second,
    )
}

// What is printed of an accepted table.
fn put_table<'a>(
    room: &mut [u8],
    query: Query,
    measure: Measure,
    n: u64,
    heads: &'a [u64],
    own: &'a mut [u64],
    strikes: &'a mut [u64],
    spans: &'a [u64],
    tails: &'a [u64],
    weights: &mut [u64],
    depths: &mut [u64],
    edges: &mut [u64],
    pieces: &mut [u64],
    second: &[u8],
) -> Reply
    requires tails_value { acceptance (columns n heads.now own.old strikes.old spans.now tails.now) ≡ (Ok tt) }
    requires most_reply_in_bounds { most_reply ≤ length room.old }
    ensures { let c = columns n heads.now own.old strikes.old spans.now tails.now in
        let a = entries weights.old depths.old edges.old pieces.old in
        Replied (table_said second.now query measure c a) room.old result room.new }
{
    match query {
        Query::Uses(v) => {
            whereused::put_uses(
                room,
                &Table {
                    vertices: n,
                    heads,
                    own,
                    strikes,
                    spans,
                    tails,
                },
                v,
            )
        }
        Query::Check => {
            let answer = columns::check_table(&Table {
                vertices: n,
                heads,
                own,
                strikes,
                spans,
                tails,
            });
            put_acceptance(room, answer)
        }
        Query::CheckOrder => {
            let answer = topological::check_order(&Table {
                vertices: n,
                heads,
                own,
                strikes,
                spans,
                tails,
            });
            put_acceptance(room, answer)
        }
        Query::Settled(question) => put_settled(
            room, question, measure, n, heads, own, strikes, spans, tails, weights, depths, edges,
            pieces, second,
        ),
    }
}

// The index of the table is made, and the line appended.
fn put_indexed<'a>(
    room: &mut [u8],
    header: Header,
    heads: &'a mut [u64],
    own: &'a mut [u64],
    strikes: &'a mut [u64],
    spans: &'a mut [u64],
    tails: &'a mut [u64],
    weights: &mut [u64],
    depths: &mut [u64],
    edges: &mut [u64],
    pieces: &mut [u64],
    index: &mut [u64],
    list: &mut [u64],
    head: Vertex,
    figure: Weight,
    needed: &[u64],
) -> Reply
    requires most_reply_in_bounds { most_reply ≤ length room.old }
    requires stands { Stands header heads.old own.old strikes.old spans.old tails.old }
    ensures { let x = read_outcome (Ok header) heads.old own.old strikes.old spans.old tails.old in
        let a = entries weights.old depths.old edges.old pieces.old in
        let l = new_line head.0 figure.0 standing needed.now in
        Replied (indexed_said header x a index.old list.old l) room.old result room.new }
{
    let measure = header.measure;
    let n = header.vertices;
    let count = header.edges;
    let lines = count as usize;
    let places = 2 * lines;
    let listed = header.listed;
    let uses = listed as usize;
    let indexed = indextable::index_table(
        &Table {
            vertices: n,
            heads: &heads[..lines],
            own: &own[..lines],
            strikes: &strikes[..lines],
            spans: &spans[..places],
            tails: &tails[..uses],
        },
        index,
        list,
    );
    match indexed {
        Err(r) => return put_refusal(room, r),
        Ok(_) => {}
    }
    amend::put_appended(
        room,
        measure,
        n,
        heads,
        own,
        strikes,
        spans,
        tails,
        Counts {
            edges: count,
            listed,
        },
        weights,
        depths,
        edges,
        pieces,
        index,
        list,
        head,
        figure,
        needed,
    )
}

// The table that was read is settled, and the line appended.
fn put_append<'a>(
    room: &mut [u8],
    header: Header,
    heads: &'a mut [u64],
    own: &'a mut [u64],
    strikes: &'a mut [u64],
    spans: &'a mut [u64],
    tails: &'a mut [u64],
    head: Vertex,
    figure: Weight,
    needed: &[u64],
) -> Reply
    requires most_reply_in_bounds { most_reply ≤ length room.old }
    requires stands { Stands header heads.old own.old strikes.old spans.old tails.old }
    ensures { let x = read_outcome (Ok header) heads.old own.old strikes.old spans.old tails.old in
        let l = new_line head.0 figure.0 standing needed.now in
        Replied (append_said header x l) room.old result room.new }
{
    let measure = header.measure;
    let n = header.vertices;
    let parts = n as usize;
    let lines = header.edges as usize;
    let places = 2 * lines;
    let listed = header.listed as usize;
    let mut weights = [0u64; 1024];
    let mut depths = [0u64; 1024];
    let mut edges = [0u64; 1024];
    let mut pieces = [0u64; 1024];
    let mut index = [0u64; 2048];
    let mut list = [0u64; 16384];
    let answer = settle::settle(
        measure,
        &Table {
            vertices: n,
            heads: &heads[..lines],
            own: &own[..lines],
            strikes: &strikes[..lines],
            spans: &spans[..places],
            tails: &tails[..listed],
        },
        &mut weights[..parts],
        &mut depths[..parts],
        &mut edges[..parts],
        &mut pieces[..parts],
    );
    match answer {
        Err(r) => return put_refusal(room, r),
        Ok(()) => {}
    }
    put_indexed(
        room,
        header,
        heads,
        own,
        strikes,
        spans,
        tails,
        &mut weights[..parts],
        &mut depths[..parts],
        &mut edges[..parts],
        &mut pieces[..parts],
        &mut index,
        &mut list,
        head,
        figure,
        needed,
    )
}

// Every command but appending sees the table alone, with answer columns of zeros.
fn put_read(
    room: &mut [u8],
    query: Query,
    header: Header,
    heads: &[u64],
    own: &mut [u64],
    strikes: &mut [u64],
    spans: &[u64],
    tails: &[u64],
    second: &[u8],
) -> Reply
    requires most_reply_in_bounds { most_reply ≤ length room.old }
    requires stands { Stands header heads.now own.old strikes.old spans.now tails.now }
    ensures { let c = lent_columns header heads.now own.old strikes.old spans.now tails.now in
        Replied (table_said second.now query header.measure c (blank_entries header.vertices)) room.old result room.new }
{
    let measure = header.measure;
    let n = header.vertices;
    let parts = n as usize;
    let lines = header.edges as usize;
    let places = 2 * lines;
    let listed = header.listed as usize;
    let mut weights = [0u64; 1024];
    let mut depths = [0u64; 1024];
    let mut edges = [0u64; 1024];
    let mut pieces = [0u64; 1024];
    put_table(
        room,
        query,
        measure,
        n,
        &heads[..lines],
        &mut own[..lines],
        &mut strikes[..lines],
        &spans[..places],
        &tails[..listed],
        &mut weights[..parts],
        &mut depths[..parts],
        &mut edges[..parts],
        &mut pieces[..parts],
        second,
    )
}

// By the command: a line is appended behind the lines in use.
fn put_command(
    room: &mut [u8],
    command: Command,
    count: usize,
    numbers: &[u64],
    header: Header,
    heads: &mut [u64],
    own: &mut [u64],
    strikes: &mut [u64],
    spans: &mut [u64],
    tails: &mut [u64],
    second: &[u8],
) -> Reply
    requires most_reply_in_bounds { most_reply ≤ length room.old }
    requires stands { Stands header heads.old own.old strikes.old spans.old tails.old }
    requires takes { Takes command count (length numbers.now) }
    ensures { let x = read_outcome (Ok header) heads.old own.old strikes.old spans.old tails.old in
        Replied (read_said second.now command count numbers.now header x) room.old result room.new }
{
    match command {
        Command::Append(head, figure) => put_append(
            room,
            header,
            heads,
            own,
            strikes,
            spans,
            tails,
            head,
            figure,
            &numbers[2..count],
        ),
        Command::Ask(query) => put_read(
            room, query, header, heads, own, strikes, spans, tails, second,
        ),
        Command::Misuse => Reply {
            width: 0,
            status: Status::Misused,
        },
        Command::Mean => Reply {
            width: 0,
            status: Status::Misused,
        },
    }
}

// The command's reply to an input.
fn put_input(
    room: &mut [u8],
    command: Command,
    count: usize,
    numbers: &[u64],
    input: &[u8],
    second: &[u8],
) -> Reply
    requires most_reply_in_bounds { most_reply ≤ length room.old }
    requires takes { Takes command count (length numbers.now) }
    ensures { Replied (input_said second.now command count numbers.now input.now) room.old result room.new }
{
    if input.len() > MOST_INPUT {
        return put_refusal(room, Refusal::InputLength);
    }
    let mut heads = [0u64; 4096];
    let mut own = [0u64; 4096];
    let mut strikes = [0u64; 4096];
    let mut spans = [0u64; 8192];
    let mut tails = [0u64; 16384];
    let reading = read_table(
        input,
        &mut heads,
        &mut own,
        &mut strikes,
        &mut spans,
        &mut tails,
    );
    match reading {
        Err(r) => put_refusal(room, r),
        Ok(header) => put_command(
            room,
            command,
            count,
            numbers,
            header,
            &mut heads,
            &mut own,
            &mut strikes,
            &mut spans,
            &mut tails,
            second,
        ),
    }
}

// The mean and the variance of an input that is a sample's text.
fn put_sample(room: &mut [u8], input: &[u8]) -> Reply
    requires { most_reply ≤ length room.old }
    ensures { Replied (sample_said input.now) room.old result room.new }
{
    if input.len() <= MOST_INPUT {
        return sample::put_mean(room, input);
    }
    put_refusal(room, Refusal::InputLength)
}

// A room for a reply.
pub fn blank_room() -> [u8; MOST_REPLY]
    ensures { most_reply ≡ length result }
{
    [0; MOST_REPLY]
}

// The reply to a line of words over an input is put at the room's start; `compare` and `replay` look
// at a second input too.
pub fn reply(words: &[u8], input: &[u8], second: &[u8], room: &mut [u8; MOST_REPLY]) -> Reply
    ensures { Replied (desk_said words.now input.now second.now) room.old result room.new }
{
    let mut numbers = [0u64; MOST_NUMBERS];
    let line = read_command(words, &mut numbers);
    let command = line.command;
    let count = line.count;
    match command {
        Command::Misuse => Reply {
            width: 0,
            status: Status::Misused,
        },
        Command::Ask(_) => put_input(room, command, count, &numbers, input, second),
        Command::Append(_, _) => put_input(room, command, count, &numbers, input, second),
        Command::Mean => put_sample(room, input),
    }
}

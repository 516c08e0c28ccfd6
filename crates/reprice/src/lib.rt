// Repricing, striking and restoring a line. Everything is checked before anything lent is written;
// then the figure or the mark is stored, and the answers are renewed.

#![tactic(auto)]

ghost use Rattle.std.specs.Prelude.{◌≡◌};
ghost use Rattle.columns.specs.Columns.{columns, entries};
ghost use Rattle.columns.specs.Given.{columns_of, lent_of, entries_in};
ghost use Rattle.settle.specs.Settling.{entries_of};
ghost use Rattle.settle.specs.Checking.{answers_acceptance};
ghost use Rattle.reprice.specs.Repricing.{numbered_acceptance, line_acceptance, struck_acceptance, changed, marked, Changeable, Markable, Renewable, repriced, stricken, restored};

use columns::{Entries, Table};
use refusal::Refusal;
use weights::{Hyperedge, Mark, Measure, Weight};

// Whether table and answer columns are accepted and the line exists: 1 to 6 and 21, 7, 9.
fn check_numbered(table: &Table, entries: &Entries, line: Hyperedge) -> Result<(), Refusal>
    ensures { let c = columns_of table.now in
        let a = entries_in entries.now in
        result ≡ numbered_acceptance c a line.0 }
{
    let Table { heads, .. } = *table;
    columns::check_lent(table, entries)?;
    if line.0 >= heads.len() as u64 {
        return Err(Refusal::NoSuchEdge);
    }
    Ok(())
}

// The same of a line that stands: 9 if it is struck too.
fn check_line(table: &Table, entries: &Entries, line: Hyperedge) -> Result<(), Refusal>
    ensures { let c = columns_of table.now in
        let a = entries_in entries.now in
        result ≡ line_acceptance c a line.0 }
{
    let Table { strikes, .. } = *table;
    check_numbered(table, entries, line)?;
    let i = line.0 as usize;
    let found = strikes[i];
    let mark = Mark(found);
    if mark.is_struck() {
        return Err(Refusal::NoSuchEdge);
    }
    Ok(())
}

// The same of a line that is struck: 20 if it stands.
// Kept: one function for this and `check_line` would take the test and the refusal as parameters, and its contract would be the two in a case split.
fn check_struck(table: &Table, entries: &Entries, line: Hyperedge) -> Result<(), Refusal>
    ensures { let c = columns_of table.now in
        let a = entries_in entries.now in
        result ≡ struck_acceptance c a line.0 }
{
    let Table { strikes, .. } = *table;
    check_numbered(table, entries, line)?;
    let i = line.0 as usize;
    let found = strikes[i];
    let mark = Mark(found);
    if !mark.is_struck() {
        return Err(Refusal::NotStruck);
    }
    Ok(())
}

// The answers become those of the table as it is after a change of the line. Where the line rests
// they stay, so that most changes look at one line and settle nothing.
fn renew(
    measure: Measure,
    table: &Table,
    weights: &mut [u64],
    depths: &mut [u64],
    edges: &mut [u64],
    pieces: &mut [u64],
    line: Hyperedge,
)
    requires { let c = lent_of table.now depths.old in
        let a = entries weights.old depths.old edges.old pieces.old in
        Renewable measure c a line.0 }
    ensures { let c = lent_of table.now depths.old in
        let a' = entries weights.new depths.new edges.new pieces.new in
        a' ≡ entries_of measure c }
{
    if settle::line_rests(
        measure,
        line,
        table,
        &Entries {
            weights,
            depths,
            edges,
            pieces,
        },
    ) {
        return;
    }
    settle::label(measure, table, weights, depths, edges, pieces);
}

// The line's own figure becomes this one, and the answers those of the table as it then is, which is
// accepted as it was; or 8, where the lent answers are not this table's, and nothing has changed.
fn change<'a>(
    measure: Measure,
    n: u64,
    heads: &'a [u64],
    own: &'a mut [u64],
    strikes: &'a [u64],
    spans: &'a [u64],
    tails: &'a [u64],
    weights: &mut [u64],
    depths: &mut [u64],
    edges: &mut [u64],
    pieces: &mut [u64],
    line: Hyperedge,
    figure: Weight,
) -> Result<(), Refusal>
    requires { let c = columns n heads.now own.old strikes.now spans.now tails.now in
        let a = entries weights.old depths.old edges.old pieces.old in
        Changeable c a line.0 figure.0 }
    ensures { let c = columns n heads.now own.old strikes.now spans.now tails.now in
        let a = entries weights.old depths.old edges.old pieces.old in
        let a' = entries weights.new depths.new edges.new pieces.new in
        record { result = result; own = own.new; left = a' } ≡ changed measure c a line.0 figure.0 (answers_acceptance measure c a) }
{
    if !settle::answers_right(
        measure,
        &Table {
            vertices: n,
            heads,
            own,
            strikes,
            spans,
            tails,
        },
        &Entries {
            weights,
            depths,
            edges,
            pieces,
        },
    ) {
        return Err(Refusal::WrongAnswers);
    }
    let i = line.0 as usize;
    own[i] = figure.0;
    renew(
        measure,
        &Table {
            vertices: n,
            heads,
            own,
            strikes,
            spans,
            tails,
        },
        weights,
        depths,
        edges,
        pieces,
        line,
    );
    Ok(())
}

// The same of the line's strike mark; the own figure keeps every byte.
// Kept: apart from `change`, as the column that each writes is one that the other may only read.
fn put_mark<'a>(
    measure: Measure,
    n: u64,
    heads: &'a [u64],
    own: &'a [u64],
    strikes: &'a mut [u64],
    spans: &'a [u64],
    tails: &'a [u64],
    weights: &mut [u64],
    depths: &mut [u64],
    edges: &mut [u64],
    pieces: &mut [u64],
    line: Hyperedge,
    mark: Mark,
) -> Result<(), Refusal>
    requires { let c = columns n heads.now own.now strikes.old spans.now tails.now in
        let a = entries weights.old depths.old edges.old pieces.old in
        Markable c a line.0 mark.0 }
    ensures { let c = columns n heads.now own.now strikes.old spans.now tails.now in
        let a = entries weights.old depths.old edges.old pieces.old in
        let a' = entries weights.new depths.new edges.new pieces.new in
        record { result = result; strikes = strikes.new; left = a' } ≡ marked measure c a line.0 mark.0 (answers_acceptance measure c a) }
{
    if !settle::answers_right(
        measure,
        &Table {
            vertices: n,
            heads,
            own,
            strikes,
            spans,
            tails,
        },
        &Entries {
            weights,
            depths,
            edges,
            pieces,
        },
    ) {
        return Err(Refusal::WrongAnswers);
    }
    let i = line.0 as usize;
    strikes[i] = mark.0;
    renew(
        measure,
        &Table {
            vertices: n,
            heads,
            own,
            strikes,
            spans,
            tails,
        },
        weights,
        depths,
        edges,
        pieces,
        line,
    );
    Ok(())
}

// The line's own figure becomes this one, and the answers those of the table as it then is; or a
// refusal, and nothing has changed.
pub fn reprice(
    measure: Measure,
    n: u64,
    heads: &[u64],
    own: &mut [u64],
    strikes: &[u64],
    spans: &[u64],
    tails: &[u64],
    weights: &mut [u64],
    depths: &mut [u64],
    edges: &mut [u64],
    pieces: &mut [u64],
    line: Hyperedge,
    figure: Weight,
) -> Result<(), Refusal>
    ensures { let c = columns n heads.now own.old strikes.now spans.now tails.now in
        let a = entries weights.old depths.old edges.old pieces.old in
        let a' = entries weights.new depths.new edges.new pieces.new in
        record { result = result; own = own.new; left = a' } ≡ repriced measure c a line.0 figure.0 }
{
    check_line(
        &Table {
            vertices: n,
            heads,
            own,
            strikes,
            spans,
            tails,
        },
        &Entries {
            weights,
            depths,
            edges,
            pieces,
        },
        line,
    )?;
    // Kept: numbers are compared, as in `columns::check_fields`.
    if figure.0 > Weight::GREATEST.0 {
        return Err(Refusal::NewWeight);
    }
    change(
        measure, n, heads, own, strikes, spans, tails, weights, depths, edges, pieces, line, figure,
    )
}

// The line is struck and keeps its figure, and the answers become those of the table as it then is;
// or a refusal, and nothing has changed.
pub fn strike(
    measure: Measure,
    n: u64,
    heads: &[u64],
    own: &[u64],
    strikes: &mut [u64],
    spans: &[u64],
    tails: &[u64],
    weights: &mut [u64],
    depths: &mut [u64],
    edges: &mut [u64],
    pieces: &mut [u64],
    line: Hyperedge,
) -> Result<(), Refusal>
    ensures { let c = columns n heads.now own.now strikes.old spans.now tails.now in
        let a = entries weights.old depths.old edges.old pieces.old in
        let a' = entries weights.new depths.new edges.new pieces.new in
        record { result = result; strikes = strikes.new; left = a' } ≡ stricken measure c a line.0 }
{
    check_line(
        &Table {
            vertices: n,
            heads,
            own,
            strikes,
            spans,
            tails,
        },
        &Entries {
            weights,
            depths,
            edges,
            pieces,
        },
        line,
    )?;
    put_mark(
        measure,
        n,
        heads,
        own,
        strikes,
        spans,
        tails,
        weights,
        depths,
        edges,
        pieces,
        line,
        Mark::STRUCK,
    )
}

// The struck line stands again at the figure that it kept, and the answers become those of the table
// as it then is; or a refusal, and nothing has changed.
pub fn restore(
    measure: Measure,
    n: u64,
    heads: &[u64],
    own: &[u64],
    strikes: &mut [u64],
    spans: &[u64],
    tails: &[u64],
    weights: &mut [u64],
    depths: &mut [u64],
    edges: &mut [u64],
    pieces: &mut [u64],
    line: Hyperedge,
) -> Result<(), Refusal>
    ensures { let c = columns n heads.now own.now strikes.old spans.now tails.now in
        let a = entries weights.old depths.old edges.old pieces.old in
        let a' = entries weights.new depths.new edges.new pieces.new in
        record { result = result; strikes = strikes.new; left = a' } ≡ restored measure c a line.0 }
{
    check_struck(
        &Table {
            vertices: n,
            heads,
            own,
            strikes,
            spans,
            tails,
        },
        &Entries {
            weights,
            depths,
            edges,
            pieces,
        },
        line,
    )?;
    put_mark(
        measure,
        n,
        heads,
        own,
        strikes,
        spans,
        tails,
        weights,
        depths,
        edges,
        pieces,
        line,
        Mark::STANDS,
    )
}

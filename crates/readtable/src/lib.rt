// Reading the text of a table into lent columns.

#![tactic(auto)]

ghost use Rattle.std.specs.Prelude.{◌≡◌, length};
ghost use Rattle.text.specs.Machine.{parse};
ghost use Rattle.readtable.specs.Read.{room_for, read_outcome, read_table, edges_in, Roomy, Fills};

use columns::LONGEST_TAIL;
use reading::{check_text, first_line, line_at};
use refusal::{Header, Refusal, TextLine};

// Whether columns of these lengths have room for the table of a header.
#[tactic(auto, using(crate::proofs::Laws::tests), unfolding(crate::specs::Read::room_for))]
fn room_for(
    header: Header,
    heads: usize,
    own: usize,
    strikes: usize,
    spans: usize,
    tails: usize,
) -> bool
    ensures { result ≡ room_for header heads own strikes spans tails }
{
    let edges = header.edges;
    let lines = edges <= heads as u64 && edges <= own as u64 && edges <= strikes as u64;
    lines && edges <= spans as u64 / 2 && header.listed <= tails as u64
}

// The columns are filled from a text that was found correct, so every line is one.
fn fill(
    text: &[u8],
    heads: &mut [u64],
    own: &mut [u64],
    strikes: &mut [u64],
    spans: &mut [u64],
    tails: &mut [u64],
)
    requires { Roomy text.now (length heads.old) (length own.old) (length strikes.old) (length spans.old) (length tails.old) }
    ensures { let fills = Fills (edges_in (parse text.now)) heads.old own.old strikes.old spans.old tails.old in
        fills heads.new own.new strikes.new spans.new tails.new }
{
    let Ok(first) = first_line(text) else {
        return;
    };
    let n = first.vertices;
    let mut at = first.next;
    let mut i: usize = 0;
    let mut k: usize = 0;
    // Kept: the text's end ends the loop. A `for` over a column would test it too, and each index.
    while at < text.len() {
        let here = TextLine(i as u64 + 2);
        let Ok(line) = line_at(text, here, at, n, LONGEST_TAIL as usize, &mut tails[k..]) else {
            return;
        };
        heads[i] = line.head.0;
        own[i] = line.own.0;
        strikes[i] = line.mark.0;
        spans[2 * i] = k as u64;
        spans[2 * i + 1] = line.listed as u64;
        i += 1;
        k += line.listed;
        at = line.next;
    }
}

// A text is read into the columns, or refused: at the first text line that breaks a rule, or where a
// column is too short. The whole text is checked before a place is written.
pub fn read_table(
    text: &[u8],
    heads: &mut [u64],
    own: &mut [u64],
    strikes: &mut [u64],
    spans: &mut [u64],
    tails: &mut [u64],
) -> Result<Header, Refusal>
    ensures { let done = read_outcome result heads.new own.new strikes.new spans.new tails.new in
        done ≡ read_table text.now heads.old own.old strikes.old spans.old tails.old }
{
    let reading = check_text(text);
    let Ok(header) = reading else {
        return reading;
    };
    if !room_for(
        header,
        heads.len(),
        own.len(),
        strikes.len(),
        spans.len(),
        tails.len(),
    ) {
        return Err(Refusal::TextRoom);
    }
    fill(text, heads, own, strikes, spans, tails);
    reading
}

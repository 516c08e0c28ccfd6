// The validating pass over the text of a table: the first line, then one line for each hyperedge.
//
// Kept: columns and rooms are lent, or arrays of a fixed size: the library and its programs use no heap.

#![tactic(auto)]

ghost use Rattle.std.specs.Prelude.{◌≡◌, [], ◌≤◌, min, length, drop};
ghost use Rattle.text.specs.Machine.{parse};
ghost use Rattle.reading.specs.Lines.{agreeing, Opens, on_word, first_line, first_of, stem_at, stem_of, listed_from, ReadsTail, row_at, ReadsLine, reading_of, refused_at, InLine};

use columns::{MOST_EDGES, MOST_LISTED, MOST_VERTICES};
use cursor::{byte_at, number_at, weight_at};
use refusal::{Header, Refusal, TextColumn, TextLine};
use text::{COST, GRADE};
use weights::{Mark, Measure, Vertex, Weight};

// What a part of a text holds, and the place behind it. Where one can't be read, the refusal stands in
// its place: at the first byte that can't stand there.

// The first line: how many vertices there are, and the measure.
#[derive(Clone, Copy)]
pub struct FirstLine {
    pub vertices: u64,
    pub measure: Measure,
    pub next: usize,
}

// A hyperedge's head, own weight and strike mark.
#[derive(Clone, Copy)]
pub struct Stem {
    pub head: Vertex,
    pub own: Weight,
    pub mark: Mark,
    pub next: usize,
}

// The listed vertices: how many.
#[derive(Clone, Copy)]
pub struct Tail {
    pub listed: usize,
    pub next: usize,
}

// A whole line: head, own weight, strike mark, and how many vertices it lists.
#[derive(Clone, Copy)]
pub struct Line {
    pub head: Vertex,
    pub own: Weight,
    pub mark: Mark,
    pub listed: usize,
    pub next: usize,
}

// The refusal at a byte of a text line that starts at `start`: 14, with line and column.
fn refused_at(line: TextLine, start: usize, place: usize) -> Refusal
    requires { InLine start place }
    ensures { result ≡ refused_at line.0 start place }
{
    let column = (place - start) as u64 + 1;
    Refusal::Text(line, TextColumn(column))
}

// With how many bytes of a word a text starts.
#[tactic(auto, using(crate::proofs::Laws::agree_steps))]
pub fn agree(text: &[u8], word: &[u8]) -> usize
    ensures { result ≡ agreeing word.now text.now }
{
    for (i, b) in word.iter().enumerate() {
        if i >= text.len() || text[i] != *b {
            return i;
        }
    }
    word.len()
}

// The end of a first line that names its measure: the word, with the space before it and the LF
// behind it.
fn named(
    text: &[u8],
    at: usize,
    n: u64,
    measure: Measure,
    word: &[u8],
) -> Result<FirstLine, Refusal>
    requires { at ≤ length text.now }
    ensures { result ≡ first_of (on_word n measure at word.now (agreeing word.now (drop at text.now))) }
{
    let same = agree(&text[at..], word);
    if same < word.len() {
        let place = at + same;
        return Err(refused_at(TextLine(1), 0, place));
    }
    let start = at + word.len();
    Ok(FirstLine {
        vertices: n,
        measure,
        next: start,
    })
}

// `parts N` means days; behind a space the first letter of a word decides which measure it names.
pub fn first_line(text: &[u8]) -> Result<FirstLine, Refusal>
    ensures { result ≡ first_of (first_line text.now) }
{
    let line = TextLine(1);
    let same = agree(text, b"parts ");
    if same < 6 {
        return Err(refused_at(line, 0, same));
    }
    let count = number_at(text, 6, MOST_VERTICES + 1);
    let next = count.stop;
    let found = count.found;
    let Some(n) = found else {
        return Err(refused_at(line, 0, next));
    };
    let behind = byte_at(text, next);
    if behind == b'\n' {
        let start = next + 1;
        return Ok(FirstLine {
            vertices: n,
            measure: Measure::Days,
            next: start,
        });
    }
    if behind != b' ' {
        return Err(refused_at(line, 0, next));
    }
    let letter = byte_at(text, next + 1);
    if letter == b'c' {
        return named(text, next, n, Measure::Cost, &COST);
    }
    named(text, next, n, Measure::Grade, &GRADE)
}

// The start of the text line that begins at a place.
pub fn stem_at(text: &[u8], line: TextLine, at: usize, n: u64) -> Result<Stem, Refusal>
    ensures { result ≡ stem_of line.0 at (stem_at text.now n at) }
{
    let head = number_at(text, at, n);
    let a = head.stop;
    let found = head.found;
    let Some(v) = found else {
        return Err(refused_at(line, at, a));
    };
    if byte_at(text, a) != b' ' {
        return Err(refused_at(line, at, a));
    }
    let from = a + 1;
    let weight = weight_at(text, from);
    let next = weight.stop;
    let figure = weight.found;
    let Some((own, mark)) = figure else {
        return Err(refused_at(line, at, next));
    };
    Ok(Stem {
        head: Vertex(v),
        own,
        mark,
        next,
    })
}

// The vertices listed from a place of a text line on, each behind a space, are stored from the room's
// start. There may be `most`, and no more than the room has places: the space before one too many can't
// stand.
fn tail_at(
    text: &[u8],
    line: TextLine,
    start: usize,
    at: usize,
    n: u64,
    most: usize,
    room: &mut [u64],
) -> Result<Tail, Refusal>
    requires { (start ≤ at) × (at ≤ length text.now) }
    ensures { let listing = listed_from (min most (length room.old)) text.now n at [] in
        ReadsTail line.0 start listing room.old result room.new }
{
    let limit = most.min(room.len());
    let mut k: usize = 0;
    let mut next = at;
    // Kept: the places are of varying width, and how many vertices stand there is told by the text.
    while byte_at(text, next) == b' ' {
        if k >= limit {
            return Err(refused_at(line, start, next));
        }
        let from = next + 1;
        let vertex = number_at(text, from, n);
        let behind = vertex.stop;
        let found = vertex.found;
        let Some(v) = found else {
            return Err(refused_at(line, start, behind));
        };
        room[k] = v;
        k += 1;
        next = behind;
    }
    if byte_at(text, next) != b'\n' {
        return Err(refused_at(line, start, next));
    }
    let behind = next + 1;
    Ok(Tail {
        listed: k,
        next: behind,
    })
}

// The text line that begins at a place; its listed vertices are stored from the room's start.
pub fn line_at(
    text: &[u8],
    line: TextLine,
    at: usize,
    n: u64,
    most: usize,
    room: &mut [u64],
) -> Result<Line, Refusal>
    ensures { let row = row_at text.now n (min most (length room.old)) at in
        ReadsLine line.0 at row room.old result room.new }
{
    let stem = stem_at(text, line, at, n)?;
    let tail = tail_at(text, line, at, stem.next, n, most, room)?;
    Ok(Line {
        head: stem.head,
        own: stem.own,
        mark: stem.mark,
        listed: tail.listed,
        next: tail.next,
    })
}

// The lines behind the first: what they hold, or the first byte that breaks a rule, in the line that
// is read. The vertices of a line go into an array of its own: nothing lent is written.
fn check_lines(text: &[u8], n: u64, measure: Measure, start: usize) -> Result<Header, Refusal>
    requires { first_line text.now ≡ Opens n measure start }
    ensures { result ≡ reading_of text.now (parse text.now) }
{
    let mut room = [0u64; 16];
    let mut at = start;
    let mut edges: usize = 0;
    let mut listed: usize = 0;
    // Kept: lines are of varying width, and the place of the next is told by the line before it.
    while at < text.len() {
        let number = edges as u64 + 2;
        let here = TextLine(number);
        if edges >= MOST_EDGES {
            return Err(Refusal::Text(here, TextColumn(1)));
        }
        let most = MOST_LISTED - listed;
        let line = line_at(text, here, at, n, most, &mut room)?;
        edges += 1;
        listed += line.listed;
        at = line.next;
    }
    Ok(Header {
        vertices: n,
        measure,
        edges: edges as u64,
        listed: listed as u64,
    })
}

// What a text holds, or the line and the column of the first byte that can't stand where it stands;
// one past the last byte, if the text merely ends too early.
pub fn check_text(text: &[u8]) -> Result<Header, Refusal>
    ensures { result ≡ reading_of text.now (parse text.now) }
{
    let first = first_line(text)?;
    check_lines(text, first.vertices, first.measure, first.next)
}

// A reader that holds the lent text and its place, for programs that walk a table's text field by
// field. Each function takes it apart and leaves the work to one on the slice and the number; what a
// field says of the place behind it is where the reader is moved to.
//
// Kept: columns and rooms are lent, or arrays of a fixed size: the library and its programs use no heap.

#![tactic(auto)]

ghost use Rattle.std.specs.Prelude.{◌≡◌, min, length, leb};
ghost use Rattle.columns.specs.Acceptance.{longest_tail};
ghost use Rattle.cursor.specs.Cursor.{number_at, weight_at, separator_at};
ghost use Rattle.reading.specs.Lines.{first_line, first_of, row_at, line_of};

use cursor::{Separator, Token, WeightToken};
use reading::{FirstLine, Line};
use refusal::{Refusal, TextLine};

#[derive(Clone, Copy)]
pub struct Reader<'a> {
    pub text: &'a [u8],
    pub at: usize,
}

// A reader at the start of a text.
pub fn start<'a>(text: &'a [u8]) -> Reader<'a>
    ensures { (result.text ≡ text.entry) × (result.at ≡ 0) }
{
    Reader { text, at: 0 }
}

// Where a reader stands.
pub fn place<'a>(r: Reader<'a>) -> usize
    ensures { result ≡ r.entry.at }
{
    r.at
}

// The same text from another place on.
pub fn moved<'a>(r: Reader<'a>, at: usize) -> Reader<'a>
    ensures { (result.text ≡ r.entry.text) × (result.at ≡ at) }
{
    Reader { text: r.text, at }
}

// Whether a reader's place is the text's end.
pub fn at_end<'a>(r: Reader<'a>) -> bool
    ensures { result ≡ leb (length r.entry.text.now) r.entry.at }
{
    cursor::at_end(r.text, r.at)
}

// The first line of the text, with its words: how many vertices there are, the measure, and the place
// of the next line.
pub fn first_line<'a>(r: Reader<'a>) -> Result<FirstLine, Refusal>
    ensures { result ≡ first_of (first_line r.entry.text.now) }
{
    reading::first_line(r.text)
}

// The number at a reader's place, below the limit: a head or a listed vertex, with where its reading
// began and where it stopped.
pub fn next_number<'a>(r: Reader<'a>, limit: u64) -> Token
    ensures { result ≡ number_at r.entry.text.now r.entry.at limit }
{
    cursor::number_at(r.text, r.at, limit)
}

// The own weight at a reader's place, likewise.
pub fn next_weight<'a>(r: Reader<'a>) -> WeightToken
    ensures { result ≡ weight_at r.entry.text.now r.entry.at }
{
    cursor::weight_at(r.text, r.at)
}

// The space or the end of the line at a reader's place.
pub fn next_separator<'a>(r: Reader<'a>) -> Separator
    ensures { result ≡ separator_at r.entry.text.now r.entry.at }
{
    cursor::separator_at(r.text, r.at)
}

// A table line of vertices below n that lists at most so many of them: its vertices go into an array
// of its own, and their count is told. A reader knows no line's number: the line at its place is its
// first.
fn line_at(text: &[u8], at: usize, n: u64, most: usize) -> Result<Line, Refusal>
    ensures { result ≡ line_of 1 at (row_at text.now n (min most longest_tail) at) }
{
    let mut room = [0u64; 16];
    reading::line_at(text, TextLine(1), at, n, most, &mut room)
}

// The table line at a reader's place, whole.
pub fn next_line<'a>(r: Reader<'a>, n: u64, most: usize) -> Result<Line, Refusal>
    ensures { result ≡ line_of 1 r.entry.at (row_at r.entry.text.now n (min most longest_tail) r.entry.at) }
{
    line_at(r.text, r.at, n, most)
}

// The table line at a place, by way of a reader: whoever calls this one, whose parameters are plain,
// needs no walk by hand.
pub fn line_from(text: &[u8], at: usize, n: u64, most: usize) -> Result<Line, Refusal>
    ensures { result ≡ line_of 1 at (row_at text.now n (min most longest_tail) at) }
{
    next_line(moved(start(text), at), n, most)
}

// What stands at a place of a text: a byte, a number, an own weight, a separator, the text's end. Each
// is read from left to right, and nothing behind the byte that ends it is looked at.

#![tactic(auto)]

ghost use Rattle.std.specs.Prelude.{◌≡◌, length, get_or, leb, ◌+◌, Some, None};
ghost use Rattle.weights.specs.Figures.{greatest};
ghost use Rattle.text.specs.Machine.{digit_of};
ghost use Rattle.cursor.specs.Cursor.{token, number_at, as_weight, marked_from, weight_at, separator_at};

use weights::{Mark, Weight};

// Where the reading of a number began, where it stopped, found or not, and what it found. It stops at
// the first byte that can't go on with the number, or at the text's end.
#[derive(Clone, Copy)]
pub struct Token {
    pub start: usize,
    pub stop: usize,
    pub found: Option<u64>,
}

// The same of an own weight, which begins at the `-` of a struck line, and the strike mark of its
// line.
#[derive(Clone, Copy)]
pub struct WeightToken {
    pub start: usize,
    pub stop: usize,
    pub found: Option<(Weight, Mark)>,
}

// A single space or the end of a line, with the place behind it.
// Kept: of its three cases two tell a place; an `Option` within a `Result` would hide which is which.
#[derive(Clone, Copy)]
pub enum Separator {
    Space(usize),
    LineEnd(usize),
    Neither,
}

// The byte at a place, and 0, which no text of a table has, behind the text's end.
pub fn byte_at(text: &[u8], at: usize) -> u8
    ensures { result ≡ get_or text.now at 0 }
{
    text.get(at).copied().unwrap_or(0)
}

// The digit that a byte is, else 10.
#[tactic(auto, using(crate::proofs::Laws::tests), unfolding(text::specs::Machine::digit_of))]
pub fn digit(b: u8) -> u64
    ensures { result ≡ digit_of b }
{
    match b {
        b'0'..=b'9' => (b - b'0') as u64,
        _ => 10,
    }
}

impl Token {
    fn of_number(start: usize, stop: usize, v: u64) -> Token
        ensures { result ≡ token start stop (Some v) }
    {
        let found = Some(v);
        Token { start, stop, found }
    }

    fn no_number(start: usize, stop: usize) -> Token
        ensures { result ≡ token start stop None }
    {
        let found = None;
        Token { start, stop, found }
    }
}

// The number at a place: decimal, without leading zeros, below the limit. However many digits stand
// there, the first that makes it too great ends the reading, before a sum is made that could wrap.
#[tactic(auto, using(crate::proofs::Laws::number_steps))]
pub fn number_at(text: &[u8], at: usize, limit: u64) -> Token
    ensures { result ≡ number_at text.now at limit }
{
    if at >= text.len() {
        return Token::no_number(at, at);
    }
    let first = digit(text[at]);
    if first >= 10 || first >= limit {
        return Token::no_number(at, at);
    }
    let mut v = first;
    for i in at + 1..text.len() {
        let d = digit(text[i]);
        if d >= 10 {
            return Token::of_number(at, i, v);
        }
        if v == 0 || d >= limit || v > (limit - 1 - d) / 10 {
            return Token::no_number(at, i);
        }
        v = 10 * v + d;
    }
    Token::of_number(at, text.len(), v)
}

// What was found as a number, as the own weight of a line with this mark.
fn as_weight(mark: Mark, found: Option<u64>) -> Option<(Weight, Mark)>
    ensures { result ≡ as_weight mark found }
{
    match found {
        Some(v) => Some((Weight(v), mark)),
        None => None,
    }
}

// The number at a place, as the own weight of a line with this mark, which began at `start`.
fn figure_at(text: &[u8], start: usize, mark: Mark, at: usize) -> WeightToken
    ensures { result ≡ marked_from start mark (number_at text.now at (greatest + 1)) }
{
    let number = number_at(text, at, Weight::GREATEST.0 + 1);
    WeightToken {
        start,
        stop: number.stop,
        found: as_weight(mark, number.found),
    }
}

// The own weight at a place: a number, and in a struck line `-` directly before it.
#[tactic(auto, using(crate::proofs::Laws::tests), unfolding(crate::specs::Cursor::weight_at))]
pub fn weight_at(text: &[u8], at: usize) -> WeightToken
    ensures { result ≡ weight_at text.now at }
{
    if byte_at(text, at) == b'-' {
        figure_at(text, at, Mark::STRUCK, at + 1)
    } else {
        figure_at(text, at, Mark::STANDS, at)
    }
}

#[tactic(auto, using(crate::proofs::Laws::tests), unfolding(crate::specs::Cursor::separator_at))]
pub fn separator_at(text: &[u8], at: usize) -> Separator
    ensures { result ≡ separator_at text.now at }
{
    match byte_at(text, at) {
        b' ' => Separator::Space(at + 1),
        b'\n' => Separator::LineEnd(at + 1),
        _ => Separator::Neither,
    }
}

// Whether no byte stands at a place.
pub fn at_end(text: &[u8], at: usize) -> bool
    ensures { result ≡ leb (length text.now) at }
{
    at >= text.len()
}

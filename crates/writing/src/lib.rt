// Measuring and writing the pieces of a text: a number, an own weight, a line, the first line. Each
// piece is written from the start of the room that it is lent, and its width is returned.
//
// Kept: columns and rooms are lent, or arrays of a fixed size: the library and its programs use no heap.

#![tactic(auto)]

ghost use Rattle.std.specs.Prelude.{◌≡◌, [], ◌∷◌, ◌++◌, ◌≤◌, length};
ghost use Rattle.columns.specs.Acceptance.{most_vertices};
ghost use Rattle.text.specs.Tables.{edge};
ghost use Rattle.text.specs.Render.{digits, measure_text, header, own_text, tail_text, edge_text};
ghost use Rattle.text.specs.Rows.{EdgeFits};
ghost use Rattle.writing.specs.Written.{Written, TailFits, OwnFits};

use text::{COST, DAYS, GRADE};
use weights::{Mark, Measure, Vertex, Weight};

// How many digits a number has.
pub fn number_width(v: u64) -> usize
    ensures { result ≡ length (digits v) }
{
    let mut n: usize = 1;
    let mut rest = v;
    // Kept: no index is counted; `rest` ends the loop.
    while rest >= 10 {
        rest /= 10;
        n += 1;
    }
    n
}

pub fn put_number(room: &mut [u8], v: u64) -> usize
    requires { length (digits v) ≤ length room.old }
    ensures { Written (digits v) room.old result room.new }
{
    let width = number_width(v);
    let mut x = v;
    for i in (1..width).rev() {
        room[i] = b'0' + (x % 10) as u8;
        x /= 10;
    }
    room[0] = b'0' + x as u8;
    width
}

// A number behind a space.
pub fn put_spaced(room: &mut [u8], v: u64) -> usize
    requires { length (32 ∷ digits v) ≤ length room.old }
    ensures { Written (32 ∷ digits v) room.old result room.new }
{
    put_led(room, b" ", v)
}

// Bytes as they are.
#[tactic(auto, using(crate::proofs::Laws::bytes_copied))]
pub fn put_bytes(room: &mut [u8], bytes: &[u8]) -> usize
    requires { length bytes.now ≤ length room.old }
    ensures { Written bytes.now room.old result room.new }
{
    room[..bytes.len()].copy_from_slice(bytes);
    bytes.len()
}

// A number behind bytes.
fn put_led(room: &mut [u8], lead: &[u8], v: u64) -> usize
    requires { length (lead.now ++ digits v) ≤ length room.old }
    ensures { Written (lead.now ++ digits v) room.old result room.new }
{
    let at = put_bytes(room, lead);
    let width = put_number(&mut room[at..], v);
    at + width
}

// An own weight behind a space, in a struck line with `-` directly before it.
pub fn own_width(own: Weight, mark: Mark) -> usize
    requires { OwnFits own.0 }
    ensures { result ≡ length (32 ∷ own_text own.0 mark.0) }
{
    let width = number_width(own.0);
    if mark.is_struck() {
        return 2 + width;
    }
    1 + width
}

pub fn put_own(room: &mut [u8], own: Weight, mark: Mark) -> usize
    requires { length (32 ∷ own_text own.0 mark.0) ≤ length room.old }
    ensures { Written (32 ∷ own_text own.0 mark.0) room.old result room.new }
{
    if mark.is_struck() {
        return put_led(room, b" -", own.0);
    }
    put_led(room, b" ", own.0)
}

// The listed vertices, each behind a space, and the end of the line.
pub fn tail_width(tail: &[u64]) -> usize
    requires { TailFits tail.now }
    ensures { result ≡ length (tail_text tail.now ++ 10 ∷ []) }
{
    let mut width: usize = 1;
    for v in tail {
        width += 1 + number_width(*v);
    }
    width
}

pub fn put_tail(room: &mut [u8], tail: &[u64]) -> usize
    requires { length (tail_text tail.now ++ 10 ∷ []) ≤ length room.old }
    ensures { Written (tail_text tail.now ++ 10 ∷ []) room.old result room.new }
{
    let mut at: usize = 0;
    for v in tail {
        at += put_spaced(&mut room[at..], *v);
    }
    room[at] = b'\n';
    at + 1
}

// A whole line.
pub fn edge_width(head: Vertex, own: Weight, mark: Mark, tail: &[u64]) -> usize
    requires { EdgeFits most_vertices (edge head.0 own.0 mark.0 tail.now) }
    ensures { result ≡ length (edge_text (edge head.0 own.0 mark.0 tail.now) ++ 10 ∷ []) }
{
    number_width(head.0) + own_width(own, mark) + tail_width(tail)
}

// The head and the own weight.
fn put_stem(room: &mut [u8], head: Vertex, own: Weight, mark: Mark) -> usize
    requires { length (digits head.0 ++ (32 ∷ own_text own.0 mark.0)) ≤ length room.old }
    ensures { Written (digits head.0 ++ (32 ∷ own_text own.0 mark.0)) room.old result room.new }
{
    let at = put_number(room, head.0);
    let width = put_own(&mut room[at..], own, mark);
    at + width
}

pub fn put_edge(room: &mut [u8], head: Vertex, own: Weight, mark: Mark, tail: &[u64]) -> usize
    requires { length (edge_text (edge head.0 own.0 mark.0 tail.now) ++ 10 ∷ []) ≤ length room.old }
    ensures { let line = edge_text (edge head.0 own.0 mark.0 tail.now) ++ 10 ∷ [] in
        Written line room.old result room.new }
{
    let at = put_stem(room, head, own, mark);
    let width = put_tail(&mut room[at..], tail);
    at + width
}

// The end of the first line: the measure's word, and LF.
#[tactic(auto, unfolding(text::specs::Render::measure_text, text::specs::Render::word))]
fn word(measure: Measure) -> &'static [u8]
    ensures { result.now ≡ measure_text measure }
{
    match measure {
        Measure::Cost => &COST,
        Measure::Days => &DAYS,
        Measure::Grade => &GRADE,
    }
}

pub fn header_width(n: u64, measure: Measure) -> usize
    requires { n ≤ most_vertices }
    ensures { result ≡ length (header n measure) }
{
    6 + number_width(n) + word(measure).len()
}

pub fn put_header(room: &mut [u8], n: u64, measure: Measure) -> usize
    requires { length (header n measure) ≤ length room.old }
    ensures { Written (header n measure) room.old result room.new }
{
    let at = put_led(room, b"parts ", n);
    let width = put_bytes(&mut room[at..], word(measure));
    at + width
}

// The mean and the variance of a sample that is written as a text: a result on each line.
//
// Kept: columns and rooms are lent, or arrays of a fixed size: the library and its programs use no heap.

#![tactic(auto)]

ghost use Rattle.std.specs.Prelude.{◌≡◌, ◌++◌, ◌*◌, ◌≤◌, ◌<◌, ◌^◌, length};
ghost use Rattle.writing.specs.Written.{Written};
ghost use Rattle.reply.specs.Reply.{most_reply, Replied};
ghost use Rattle.sample.specs.Sample.{wrong_at, result_at, sample_from, most_fraction, fraction_line, summary_said, mean_said};

use cursor::{byte_at, number_at};
use refusal::{Refusal, TextColumn, TextLine};
use reply::{Reply, Status, put_refusal};
use statistics::Moments;
use writing::{put_number, put_tail};

// One more than the results that a sample may have: one too many is read, and refused as too many.
pub const MOST_READ: usize = 1001;

// One more than the greatest number that is read: eighteen digits.
const LIMIT: u64 = 1000000000000000000;

// What stands at the start of a line: a number and the place of the next line, a byte that can't stand
// where it stands, or nothing more.
// Kept: an end is neither a number nor a mistake; an `Option` within a `Result` would hide which is which.
#[derive(Clone, Copy)]
pub enum Next {
    Number(u64, usize),
    Wrong(usize),
    End,
}

// The refusal of line i, from 0, that starts at `at`.
fn wrong_at(i: usize, at: usize, place: usize) -> Refusal
    requires { (i < 2 ^ 63) × (at ≤ place) × (place < 2 ^ 63) }
    ensures { result ≡ wrong_at i at place }
{
    let line = i as u64 + 1;
    let column = (place - at) as u64 + 1;
    Refusal::Text(TextLine(line), TextColumn(column))
}

fn result_at(text: &[u8], at: usize) -> Next
    ensures { result ≡ result_at text.now at }
{
    if at >= text.len() {
        return Next::End;
    }
    let token = number_at(text, at, LIMIT);
    let stop = token.stop;
    let found = token.found;
    let Some(v) = found else {
        return Next::Wrong(stop);
    };
    let behind = byte_at(text, stop);
    if behind == b'\n' {
        let next = stop + 1;
        return Next::Number(v, next);
    }
    Next::Wrong(stop)
}

// The results of a text, put into a column until it is full: how many there are, or the refusal.
fn read_sample(text: &[u8], column: &mut [u64]) -> Result<usize, Refusal>
    ensures { record { sample = result; column = column.new } ≡ sample_from (length column.old) text.now 0 0 column.old }
{
    let mut at: usize = 0;
    for i in 0..column.len() {
        let next = result_at(text, at);
        match next {
            Next::End => return Ok(i),
            Next::Wrong(place) => {
                let refusal = wrong_at(i, at, place);
                return Err(refusal);
            }
            Next::Number(v, stop) => {
                column[i] = v;
                at = stop;
            }
        }
    }
    Ok(column.len())
}

// A fraction's line: numerator and denominator.
fn put_fraction(room: &mut [u8], numerator: u64, denominator: u64) -> usize
    requires { most_fraction ≤ length room.old }
    ensures written { Written (fraction_line numerator denominator) room.old result room.new }
    ensures upper_bound { result ≤ most_fraction }
{
    let numbers = [denominator];
    let at = put_number(room, numerator);
    let width = put_tail(&mut room[at..], &numbers);
    at + width
}

// The lines of two fractions.
fn put_fractions(room: &mut [u8], a: u64, b: u64, c: u64, d: u64) -> usize
    requires { 2 * most_fraction ≤ length room.old }
    ensures { Written (fraction_line a b ++ fraction_line c d) room.old result room.new }
{
    let at = put_fraction(room, a, b);
    let width = put_fraction(&mut room[at..], c, d);
    at + width
}

fn put_summary(room: &mut [u8], summary: Result<Moments, Refusal>) -> Reply
    requires { most_reply ≤ length room.old }
    ensures { Replied (summary_said summary) room.old result room.new }
{
    match summary {
        Err(r) => put_refusal(room, r),
        Ok(m) => {
            let mean = m.mean;
            let variance = m.variance;
            let a = mean.numerator;
            let b = mean.denominator;
            let c = variance.numerator;
            let d = variance.denominator;
            let width = put_fractions(room, a, b, c, d);
            Reply {
                width,
                status: Status::Answered,
            }
        }
    }
}

// The mean and the variance of a text's results, or by what they are refused.
pub fn put_mean(room: &mut [u8], text: &[u8]) -> Reply
    requires { most_reply ≤ length room.old }
    ensures { Replied (mean_said text.now) room.old result room.new }
{
    let mut column = [0u64; MOST_READ];
    let sample = read_sample(text, &mut column);
    match sample {
        Err(r) => put_refusal(room, r),
        Ok(k) => {
            let summary = statistics::summarize(&column[..k]);
            put_summary(room, summary)
        }
    }
}

// A desk's command, read from a line of words: its name and its numbers, single spaces between them
// and an LF behind the last.
//
// Kept: columns and rooms are lent, or arrays of a fixed size: the library and its programs use no heap.

#![tactic(auto)]

ghost use Rattle.std.specs.Prelude.{◌≡◌, length};
ghost use Rattle.command.specs.Command.{most_numbers, named, name_in, found_number, next_at, numbers_from, takes, as_command, line_with, command_in, question_second, query_second, command_second, takes_second};

use cursor::{Separator, number_at, separator_at};
use reading::agree;
use weights::{Hyperedge, Vertex, Weight};

// The most numbers of a command: a head, a figure and sixteen listed vertices.
pub const MOST_NUMBERS: usize = 18;

// One more than the greatest number that an argument can be: eighteen digits.
const LIMIT: u64 = 1000000000000000000;

#[derive(Clone, Copy)]
pub enum Name {
    Price,
    Bill,
    Uses,
    Reprice,
    Strike,
    Restore,
    Append,
    Check,
    CheckOrder,
    Mean,
    Compare,
    Replay,
    // Kept: an unknown name leaves its numbers in the column too, as `command_in` says, so it is read like the others.
    Unknown,
}

// A name, and the place behind it.
#[derive(Clone, Copy)]
pub struct Named {
    pub name: Name,
    pub stop: usize,
}

// What stands behind a name or a number: one more number and the place behind it, the line's end,
// or something else.
// Kept: an end is neither a number nor a mistake; an `Option` within a `Result` would hide which is which.
#[derive(Clone, Copy)]
pub enum Next {
    Number(u64, usize),
    End,
    Neither,
}

// What is asked of a table and its answers.
#[derive(Clone, Copy)]
pub enum Question {
    Price,
    Bill(Vertex),
    Reprice(Hyperedge, Weight),
    Strike(Hyperedge),
    Restore(Hyperedge),
    Compare,
    Replay,
}

// What is asked of a table.
#[derive(Clone, Copy)]
pub enum Query {
    Settled(Question),
    Uses(Vertex),
    Check,
    CheckOrder,
}

// A command. The vertices that an appended line lists are its numbers from the third on.
#[derive(Clone, Copy)]
pub enum Command {
    Ask(Query),
    Append(Vertex, Weight),
    Mean,
    Misuse,
}

// A command, and how many numbers it has.
#[derive(Clone, Copy)]
pub struct Line {
    pub command: Command,
    pub count: usize,
}

fn as_named(name: Name, stop: usize) -> Named
    ensures { result ≡ named name stop }
{
    Named { name, stop }
}

fn name_of(words: &[u8]) -> Named
    ensures { result ≡ name_in words.now }
{
    // Kept: the tests stand in their order, since `check` begins `check-order`; a table of words and names
    // walked by a loop says no more.
    if agree(words, b"price") == 5 {
        return as_named(Name::Price, 5);
    }
    if agree(words, b"bill") == 4 {
        return as_named(Name::Bill, 4);
    }
    if agree(words, b"uses") == 4 {
        return as_named(Name::Uses, 4);
    }
    if agree(words, b"reprice") == 7 {
        return as_named(Name::Reprice, 7);
    }
    if agree(words, b"strike") == 6 {
        return as_named(Name::Strike, 6);
    }
    if agree(words, b"restore") == 7 {
        return as_named(Name::Restore, 7);
    }
    if agree(words, b"append") == 6 {
        return as_named(Name::Append, 6);
    }
    if agree(words, b"check-order") == 11 {
        return as_named(Name::CheckOrder, 11);
    }
    if agree(words, b"check") == 5 {
        return as_named(Name::Check, 5);
    }
    if agree(words, b"mean") == 4 {
        return as_named(Name::Mean, 4);
    }
    if agree(words, b"compare") == 7 {
        return as_named(Name::Compare, 7);
    }
    if agree(words, b"replay") == 6 {
        return as_named(Name::Replay, 6);
    }
    as_named(Name::Unknown, 0)
}

// The number at a place.
fn found_at(words: &[u8], at: usize) -> Next
    ensures { result ≡ found_number words.now at }
{
    let token = number_at(words, at, LIMIT);
    let stop = token.stop;
    let found = token.found;
    let Some(v) = found else {
        return Next::Neither;
    };
    Next::Number(v, stop)
}

fn next_at(words: &[u8], at: usize) -> Next
    ensures { result ≡ next_at words.now at }
{
    let separator = separator_at(words, at);
    match separator {
        Separator::Space(next) => found_at(words, next),
        Separator::LineEnd(next) => {
            if next >= words.len() {
                return Next::End;
            }
            Next::Neither
        }
        Separator::Neither => Next::Neither,
    }
}

// The numbers from a place on, put into a column: how many there are, or none where a line has
// something else.
fn numbers_from(words: &[u8], from: usize, column: &mut [u64]) -> Option<usize>
    ensures { record { numbers = result; column = column.new } ≡ numbers_from (length column.old) words.now from 0 column.old }
{
    let mut at = from;
    for i in 0..column.len() {
        let next = next_at(words, at);
        match next {
            Next::End => return Some(i),
            Next::Neither => return None,
            Next::Number(v, stop) => {
                column[i] = v;
                at = stop;
            }
        }
    }
    let last = next_at(words, at);
    match last {
        Next::End => Some(column.len()),
        Next::Neither => None,
        Next::Number(_, _) => None,
    }
}

fn takes(name: Name, count: usize) -> bool
    ensures { result ≡ takes name count }
{
    match name {
        Name::Price | Name::Check | Name::CheckOrder | Name::Mean | Name::Compare | Name::Replay =>
            count == 0,
        Name::Bill | Name::Uses | Name::Strike | Name::Restore => count == 1,
        Name::Reprice => count == 2,
        Name::Append => count >= 2,
        Name::Unknown => false,
    }
}

fn as_command(name: Name, a: u64, b: u64) -> Command
    ensures { result ≡ as_command name a b }
{
    match name {
        Name::Price => Command::Ask(Query::Settled(Question::Price)),
        Name::Bill => Command::Ask(Query::Settled(Question::Bill(Vertex(a)))),
        Name::Uses => Command::Ask(Query::Uses(Vertex(a))),
        Name::Reprice => {
            let question = Question::Reprice(Hyperedge(a), Weight(b));
            Command::Ask(Query::Settled(question))
        }
        Name::Strike => Command::Ask(Query::Settled(Question::Strike(Hyperedge(a)))),
        Name::Restore => Command::Ask(Query::Settled(Question::Restore(Hyperedge(a)))),
        Name::Append => Command::Append(Vertex(a), Weight(b)),
        Name::Check => Command::Ask(Query::Check),
        Name::CheckOrder => Command::Ask(Query::CheckOrder),
        Name::Mean => Command::Mean,
        Name::Compare => Command::Ask(Query::Settled(Question::Compare)),
        Name::Replay => Command::Ask(Query::Settled(Question::Replay)),
        Name::Unknown => Command::Misuse,
    }
}

// A name with so many numbers.
fn line_with(name: Name, count: usize, numbers: &[u64; MOST_NUMBERS]) -> Line
    ensures { result ≡ line_with name count numbers.now }
{
    if !takes(name, count) {
        return Line {
            command: Command::Misuse,
            count: 0,
        };
    }
    let command = as_command(name, numbers[0], numbers[1]);
    Line { command, count }
}

// The command of a line; its numbers are put into the column.
pub fn read_command(words: &[u8], numbers: &mut [u64; MOST_NUMBERS]) -> Line
    ensures { record { line = result; numbers = numbers.new } ≡ command_in words.now numbers.old }
{
    let named = name_of(words);
    let name = named.name;
    let stop = named.stop;
    let found = numbers_from(words, stop, numbers);
    match found {
        None => Line {
            command: Command::Misuse,
            count: 0,
        },
        Some(k) => line_with(name, k, numbers),
    }
}

// Whether what is asked has a second input.
fn question_second(question: Question) -> bool
    ensures { result ≡ question_second question }
{
    matches!(question, Question::Compare | Question::Replay)
}

fn query_second(query: Query) -> bool
    ensures { result ≡ query_second query }
{
    match query {
        Query::Settled(question) => question_second(question),
        Query::Uses(_) | Query::Check | Query::CheckOrder => false,
    }
}

fn command_second(command: Command) -> bool
    ensures { result ≡ command_second command }
{
    match command {
        Command::Ask(query) => query_second(query),
        Command::Append(_, _) | Command::Mean | Command::Misuse => false,
    }
}

// Whether the command of a line has a second input.
pub fn takes_second(words: &[u8]) -> bool
    ensures { result ≡ takes_second words.now }
{
    let mut numbers = [0u64; MOST_NUMBERS];
    let line = read_command(words, &mut numbers);
    let command = line.command;
    command_second(command)
}

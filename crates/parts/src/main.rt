// The program for the desks: a command and its numbers as arguments, a table's text on standard
// input, and where the command has a second input its file as the last argument. What it prints is
// the reply of `desk`; here are the arguments as a line of words, the reading and the writing.
//
// Kept: columns and rooms are lent, or arrays of a fixed size: the library and its programs use no heap.

#![tactic(auto)]

ghost use Rattle.std.specs.Prelude.{◌≡◌, ◌≤◌, length, IfSome};
ghost use Rattle.input.specs.Input.{buffer_length, IsPrefixLen};

use command::takes_second;
use input::{BUFFER_LENGTH, Read, read_from, read_input};
use reply::Status;
use std::env::{Env, FillError};
use std::fs;
use std::rt::Files;

// Longer than the line of every command.
const MOST_WORDS: usize = 512;

// As long as a file's name may be.
const MOST_NAME: usize = 4096;

// The length of the line of words, and the argument that names the second input's file, if any.
#[derive(Clone, Copy)]
struct Line {
    stop: usize,
    named: Option<usize>,
}

// How many arguments there are, the program's own name among them.
fn argument_count(rt: &impl Env) -> usize {
    for i in 0..usize::MAX {
        if let Err(FillError::NotPresent) = rt.arg(i, &mut []) {
            return i;
        }
    }
    usize::MAX
}

// Puts an argument into the line at a place, and a space behind it; the place behind that, or none
// where they do not fit.
fn put_argument(rt: &impl Env, i: usize, words: &mut [u8], at: usize) -> Option<usize>
    requires { at ≤ length words.old }
    ensures { IfSome result (λ stop. stop ≤ length words.new) }
{
    let Ok(width) = rt.arg(i, &mut words[at..]) else {
        return None;
    };
    let stop = at + width;
    if stop >= words.len() {
        return None;
    }
    words[stop] = b' ';
    Some(stop + 1)
}

// The arguments before one as a line: a space between two, and an LF behind the last. Where they do
// not fit, the line is empty, which is no command.
fn gather(rt: &impl Env, count: usize, words: &mut [u8]) -> usize
    ensures { result ≤ length words.new }
{
    let mut at: usize = 0;
    for i in 1..count {
        let Some(stop) = put_argument(rt, i, words, at) else {
            return 0;
        };
        at = stop;
    }
    if at == 0 {
        return 0;
    }
    words[at - 1] = b'\n';
    at
}

// The line of every argument. That of a command whose second input is not named is left empty.
fn gather_all(rt: &impl Env, count: usize, words: &mut [u8]) -> Line
    ensures { result.stop ≤ length words.new }
{
    let stop = gather(rt, count, words);
    if takes_second(&words[..stop]) {
        return Line {
            stop: 0,
            named: None,
        };
    }
    Line { stop, named: None }
}

// Where every argument but the last is the line of a command with a second input, the last names its
// file.
fn gather_line(rt: &impl Env, words: &mut [u8]) -> Line
    ensures { result.stop ≤ length words.new }
{
    let count = argument_count(rt);
    if count <= 2 {
        return gather_all(rt, count, words);
    }
    let named = count - 1;
    let stop = gather(rt, named, words);
    if takes_second(&words[..stop]) {
        return Line {
            stop,
            named: Some(named),
        };
    }
    gather_all(rt, count, words)
}

// Reads the file that an argument names; where none does, nothing.
fn read_second(rt: &(impl Env + Files), named: Option<usize>, second: &mut [u8]) -> Read
    requires { length second.old ≡ buffer_length }
    ensures { IsPrefixLen result.count second.new }
{
    let Some(i) = named else {
        return Read { count: 0, last: 0 };
    };
    let mut name = [0u8; MOST_NAME];
    let Ok(width) = rt.arg(i, &mut name) else {
        return Read { count: 0, last: -1 };
    };
    let Ok(path) = str::from_utf8(&name[..width]) else {
        return Read { count: 0, last: -1 };
    };
    let Ok(mut file) = fs::open(rt, path) else {
        return Read { count: 0, last: -1 };
    };
    read_from(&mut file, second)
}

// Whether the words are a command is known before an input is waited for.
fn is_command(words: &[u8]) -> bool {
    let mut room = desk::blank_room();
    let none = &words[..0];
    let told = desk::reply(words, none, none, &mut room);
    !matches!(told.status, Status::Misused)
}

// The reply is printed.
fn print_reply(rt: &(impl Print + Eprint), words: &[u8], input: &[u8], second: &[u8]) {
    let mut room = desk::blank_room();
    let reply = desk::reply(words, input, second, &mut room);
    let width = reply.width;
    let status = reply.status;
    let written = rt.write_all(&room[..width]);
    if written.is_err() {
        let _ = rt.eprintln("parts: the output could not be written");
    }
    if let Status::RefusedSecond = status {
        let _ = rt.eprintln("parts: that is the second file's");
    }
}

// Standard input is read, and answered.
fn answer(rt: &(impl Input + Print + Eprint), words: &[u8], second: &[u8]) {
    let mut input = [0u8; BUFFER_LENGTH];
    let read = read_input(rt, &mut input);
    let count = read.count;
    let last = read.last;
    if last < 0 {
        let _ = rt.eprintln("parts: the input could not be read");
        return;
    }
    print_reply(rt, words, &input[..count], second);
}

fn main(rt: HostRuntime) {
    let mut words = [0u8; MOST_WORDS];
    let line = gather_line(&rt, &mut words);
    let stop = line.stop;
    let named = line.named;
    if !is_command(&words[..stop]) {
        let _ = rt.eprintln("parts: these words are no command");
        return;
    }
    let mut second = [0u8; BUFFER_LENGTH];
    let read = read_second(&rt, named, &mut second);
    let count = read.count;
    let last = read.last;
    if last < 0 {
        let _ = rt.eprintln("parts: the second file could not be read");
        return;
    }
    answer(&rt, &words[..stop], &second[..count]);
}

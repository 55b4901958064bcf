// Runs one call of the libraries for each line of standard input, and writes one result line for each, in order. A
// line is a command's word and its fields, with one space before each field. A line of more than 524,288 bytes
// without its LF has no result line, and neither has any line after it. Every line that begins in the first
// 16,777,216 bytes is processed.
#![tactic(auto)]

mod checking;
mod decimal;
mod decode;
mod equal;
mod events;
mod fields;
mod listings;
mod output;
mod parsing;
mod text;
mod writes;

ghost use Rattle.std.specs.Prelude.{◌≤◌, length};

use fields::Fields;
use output::Results;
use std::io;
use std::io::Read;
use streams::read_full;

// The size of the input buffer: the longest line and its LF.
const INPUT_BYTES: usize = 524289;

// The number of times the buffer is filled, so that the program ends on an endless input. A line that one round cuts
// ends in the next, so two consecutive rounds process more than INPUT_BYTES bytes, and all rounds more than 32 *
// INPUT_BYTES.
const ROUNDS: usize = 64;

fn main(rt: HostRuntime) -> io::Result<()> {
    let mut input = [0u8; INPUT_BYTES];
    let mut results = Results::new(rt.stdout());
    process_input(&mut rt.stdin(), &mut results, input.as_mut_slice());
    results.into_outcome()
}

// Processes the input, round by round. Once it has ended, or after a line that is longer than the buffer, the rounds
// that are left write nothing.
fn process_input(reader: &mut impl Read, results: &mut Results, input: &mut [u8]) {
    let mut kept = 0;
    for _ in 0..ROUNDS {
        kept = process_round(reader, results, input, kept);
    }
}

// Fills the buffer after the bytes that were kept, and processes its whole lines. The line that is cut moves to the
// front, so that each round begins with a line's first byte. Returns the number of bytes kept.
fn process_round(
    reader: &mut impl Read,
    results: &mut Results,
    input: &mut [u8],
    kept: usize,
) -> usize
    requires { kept ≤ length input.old }
    ensures { result ≤ length input.new }
{
    let count = kept + read_full(reader, &mut input[kept..]);
    let kept = process_lines(results, &input[..count]);
    input.copy_within(count - kept..count, 0);
    kept
}

// Processes the whole lines, and returns the length of the line that is cut, at the end of `input`. A line is cut where
// no LF ends it and the buffer is full: otherwise the input has ended.
fn process_lines(results: &mut Results, input: &[u8]) -> usize
    ensures { result ≤ length input.now }
{
    let mut rest = input;
    while let Some(length) = rest.iter().position(|b| *b == b'\n') {
        process_line(results, &rest[..length]);
        rest = &rest[length + 1..];
    }
    if input.len() == INPUT_BYTES {
        return rest.len();
    }
    if !rest.is_empty() {
        process_line(results, rest);
    }
    0
}

// Writes the one result line of a line.
fn process_line(results: &mut Results, line: &[u8]) {
    if run(results, line).is_none() {
        results.print("bad line");
    }
    results.print("\n");
}

// Runs the command that the line begins with. None, with nothing written, where the line is bad.
fn run(results: &mut Results, line: &[u8]) -> Option<()> {
    let (command, fields) = Fields::of_line(line);
    match command {
        b"decode" => decode::run(results, fields),
        b"text" => text::run(results, fields),
        b"events" => events::run(results, fields),
        b"decimal" => decimal::run(results, fields),
        b"equal" => equal::run(results, fields),
        b"check" => checking::run(results, fields),
        b"list" => listings::run(results, fields),
        b"write" => writes::run(results, fields),
        b"parse" => parsing::run(results, fields),
        _ => None,
    }
}

// Runs the example plants. The arguments are pairs of files: an input of `readplant` and the expected output. For each
// pair it writes whether `read_plant`, the call that `readplant` makes, gives that output.
#![tactic(auto)]

ghost use Rattle.io.specs.Counts.{IsPrefixLen};

use report::{
    CATALOG_WORDS, ENTRIES, INPUT_BYTES, MAP_REGISTERS, OUTPUT_BYTES, Report, TEXT_BYTES,
    read_plant,
};
use std::env::FillError;
use std::rt::{Env, Files};
use std::{fs, io};
use streams::read_full;

// The longest name of a file.
const NAME: usize = 255;

fn main(rt: HostRuntime) -> io::Result<()> {
    // `arg_count` counts the program's own name too.
    let pairs = arg_count(&rt) / 2;
    for k in 0..pairs {
        try_pair(&rt, 2 * k + 1, 2 * k + 2)?;
    }
    Ok(())
}

// How many arguments there are, the program's own name among them.
fn arg_count(rt: &impl Env) -> usize {
    (0..usize::MAX)
        .find(|i| matches!(rt.arg(*i, &mut []), Err(FillError::NotPresent)))
        .unwrap_or(usize::MAX)
}

// Compares the pair of files that the arguments `first` and `second` name.
fn try_pair(rt: &(impl Env + Files + Print), first: usize, second: usize) -> io::Result<()> {
    let mut input = [0u8; INPUT_BYTES];
    let n = read_argument(rt, first, &mut input);
    let mut expected = [0u8; OUTPUT_BYTES];
    let m = read_argument(rt, second, &mut expected);
    write_argument(rt, first)?;
    if gives(&input[..n], &expected[..m]) {
        rt.write_all(b" gives ")?;
    } else {
        rt.write_all(b" does not give ")?;
    }
    write_argument(rt, second)?;
    rt.write_all(b"\n")
}

// Writes argument `i`.
fn write_argument(rt: &(impl Env + Print), i: usize) -> io::Result<()> {
    let mut name = [0u8; NAME];
    let length = arg(rt, i, &mut name);
    rt.write_all(&name[..length])
}

// Puts argument `i` at the start of `name`. Returns its length: 0 if it is missing or longer than `name`.
fn arg(rt: &impl Env, i: usize, name: &mut [u8]) -> usize
    ensures { IsPrefixLen result name.new }
{
    rt.arg(i, name).unwrap_or(0)
}

// Reads the file that argument `i` names into `out`, until the file ends, `out` is full or a read fails. Returns the
// number of bytes read: 0 if the file cannot be opened, as one whose name is not text.
fn read_argument(rt: &(impl Env + Files), i: usize, out: &mut [u8]) -> usize
    ensures { IsPrefixLen result out.new }
{
    let mut name = [0u8; NAME];
    let length = arg(rt, i, &mut name);
    let Ok(path) = str::from_utf8(&name[..length]) else {
        return 0;
    };
    let Ok(mut file) = fs::open(rt, path) else {
        return 0;
    };
    read_full(&mut file, out)
}

// Is `expected` the text that `read_plant` makes of `input`, after `refused ` if it is a refusal? This does not run
// `readplant`; the crate `readplant` proves that its `main` hands these bytes to `print`, its one write.
fn gives(input: &[u8], expected: &[u8]) -> bool {
    let mut catalog = [0u16; CATALOG_WORDS];
    let mut map = [0u16; MAP_REGISTERS];
    let mut list = [0u64; ENTRIES];
    let mut text = [0u8; TEXT_BYTES];
    let report = read_plant(input, &mut catalog, &mut map, &mut list, &mut text);
    match report {
        Report::Listing(length) => expected == &text[..length],
        Report::Refusal(length) => expected.strip_prefix(b"refused ") == Some(&text[..length]),
    }
}

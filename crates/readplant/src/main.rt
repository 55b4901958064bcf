// Reads a catalog and a register map from standard input, and prints every point of the map: see docs/FORMAT.md.
#![tactic(auto)]

ghost use Rattle.std.specs.Prelude.{◌≡◌, ◌++◌, ◌+◌, ◌≤◌, length, take};
ghost use Rattle.io.specs.Counts.{IsPrefixLen};
ghost use Rattle.report.specs.CodeTypes.{length_of, written_by};
ghost use Rattle.readplant.specs.Printing.{Prints};

use report::{
    CATALOG_WORDS, ENTRIES, INPUT_BYTES, MAP_REGISTERS, OUTPUT_BYTES, Report, TEXT_BYTES,
    read_plant,
};
use std::io;
use streams::read_full;

fn main(rt: HostRuntime) -> io::Result<()> {
    let mut input = [0u8; INPUT_BYTES];
    let mut catalog = [0u16; CATALOG_WORDS];
    let mut map = [0u16; MAP_REGISTERS];
    let mut list = [0u64; ENTRIES];
    let mut text = [0u8; TEXT_BYTES];
    let mut output = [0u8; OUTPUT_BYTES];
    let count = read_full(&mut rt.stdin(), &mut input);
    let report = read_plant(
        &input[..count],
        &mut catalog,
        &mut map,
        &mut list,
        &mut text,
    );
    let length = put_output(&mut output, report, &text);
    print(&rt, &input, count, &output[..length])
}

// Writes `bytes`, which must be the output for the input whose first `count` bytes are in `input`. What is left to trust is
// the one line of this function, and that `main` passes on `input` and `count` as it read them.
fn print(rt: &impl Print, input: &[u8], count: usize, bytes: &[u8]) -> io::Result<()>
    requires { Prints input.now count bytes.now }
{
    rt.write_all(bytes)
}

// Puts the whole output at the start of `out`: the text, after `refused ` if it is a refusal's. Returns its length.
fn put_output(out: &mut [u8], report: Report, text: &[u8]) -> usize
    requires report_in_bounds { length_of report ≤ length text.now }
    requires text_in_bounds { 8 + length text.now ≤ length out.old }
    ensures prefix_len { IsPrefixLen result out.new }
    ensures out_after { take result out.new ≡ written_by report text.now }
{
    match report {
        Report::Listing(length) => join(out, b"", &text[..length]),
        Report::Refusal(length) => join(out, b"refused ", &text[..length]),
    }
}

// Puts `head` and then `text` at the start of `out`. Returns the length of both together.
fn join(out: &mut [u8], head: &[u8], text: &[u8]) -> usize
    requires { length head.now + length text.now ≤ length out.old }
    ensures upper_bound { result ≤ length out.new }
    ensures out_after { take result out.new ≡ head.now ++ text.now }
{
    let start = head.len();
    let end = start + text.len();
    out[..start].copy_from_slice(head);
    out[start..end].copy_from_slice(text);
    end
}

// The lines of a text: what they hold, and how their words are stored.
ghost use Rattle.std.specs.Prelude.{◌≡◌, ◌+◌, ◌<◌, ◌^◌, [], length, MatchOption, MatchResult};
ghost use Rattle.input.specs.Lines.{lines};
ghost use Rattle.input.specs.Parsing.{is_catalog_line, is_map_line, words, map_from};
ghost use Rattle.input.specs.InternalContracts.{to_spec_refused, SplitsInto, GoodLine, BadLine, without_feed, words_from, CatalogFound, CatalogRefused, RegistersFound};

use crate::digits::{are_digits, word_of};
use refusals::{Refusal, Refused};

const LINE_FEED: u8 = b'\n';

// The digits of a frame, of a word, and of the longest line of the map.
const FRAME_DIGITS: usize = 32;

const WORD_DIGITS: usize = 4;

const MAP_DIGITS: usize = 64;

// The first line of a text, without its LF, and the text after it; none if the text has no line.
fn split_line(text: &[u8]) -> Option<(&[u8], &[u8])>
    ensures { MatchOption result (text.now ≡ []) (λ parts. SplitsInto text.now parts.0.now parts.1.now) }
{
    match text.iter().position(|byte| *byte == LINE_FEED) {
        Some(end) => Some((&text[..end], &text[end + 1..])),
        None if text.is_empty() => None,
        None => Some((text, &[])),
    }
}

// Is this a good line of the catalog?
fn is_catalog_line(line: &[u8]) -> bool
    ensures { result ≡ is_catalog_line line.now }
{
    line.len() == FRAME_DIGITS && are_digits(line)
}

// Is this a good line of the map?
fn is_map_line(line: &[u8]) -> bool
    ensures { result ≡ is_map_line line.now }
{
    (WORD_DIGITS..=MAP_DIGITS).contains(&line.len())
        && line.len() % WORD_DIGITS == 0
        && are_digits(line)
}

// What line `number` adds to a count that has `room` left: `amount`, if the line is good and adds no more than that.
#[tactic(auto, using(crate::specs::InternalContracts::bad, crate::specs::InternalContracts::full))]
fn counted(is_good: bool, amount: usize, room: usize, number: usize) -> Result<usize, Refused>
    ensures { MatchResult result (λ count. (count ≡ amount) × GoodLine is_good amount room) (λ r. BadLine is_good amount room number (to_spec_refused r)) }
{
    if !is_good {
        Err(Refused {
            refusal: Refusal::BadLine,
            place: number,
        })
    } else if room < amount {
        Err(Refused {
            refusal: Refusal::OverCapacity,
            place: number,
        })
    } else {
        Ok(amount)
    }
}

// Checks the lines up to the first empty one, and gives the number of frames, at most `capacity`, and the text after that line.
// Each line so far was a frame, so their number is also that of the line before.
#[tactic(auto, using(crate::proofs::CatalogLines::catalog_steps))]
pub(crate) fn survey_catalog(text: &[u8], capacity: usize) -> Result<(usize, &[u8]), Refused>
    ensures { MatchResult result (λ found. CatalogFound text.now capacity found.0 found.1.now) (CatalogRefused text.now capacity) }
{
    let mut rest = text;
    let mut frames = 0usize;
    while let Some((line, after)) = split_line(rest) {
        if line.is_empty() {
            return Ok((frames, after));
        }
        frames += counted(is_catalog_line(line), 1, capacity - frames, frames + 1)?;
        rest = after;
    }
    Err(Refused {
        refusal: Refusal::NoEmptyLine,
        place: frames + 1,
    })
}

// Checks the lines of the map, numbered from `first`, and gives the number of registers, at most `capacity`.
#[tactic(auto, using(crate::proofs::MapLines::map_steps))]
pub(crate) fn survey_map(text: &[u8], first: usize, capacity: usize) -> Result<usize, Refused>
    requires { first + length text.now < 2 ^ 64 }
    ensures { MatchResult result (λ count. RegistersFound (map_from first capacity (lines text.now)) capacity count (words [] [])) (λ r. map_from first capacity (lines text.now) ≡ to_spec_refused r) }
{
    let mut rest = text;
    let mut number = first;
    let mut registers = 0usize;
    while let Some((line, after)) = split_line(rest) {
        registers += counted(
            is_map_line(line),
            line.len() / WORD_DIGITS,
            capacity - registers,
            number,
        )?;
        number += 1;
        rest = after;
    }
    Ok(registers)
}

// The text without the LF that it may begin with.
fn without_feed(text: &[u8]) -> &[u8]
    ensures { result.now ≡ without_feed text.now }
{
    text.strip_prefix(b"\n").unwrap_or(text)
}

// Fills `out` with the words whose digits the text begins with. Line ends are only between words.
#[tactic(auto, using(crate::proofs::WordRuns::four_fit))]
pub(crate) fn store_words(text: &[u8], out: &mut [u16])
    requires { length (words_from (length out.old) text.now) ≡ length out.old }
    ensures { out.new ≡ words_from (length out.old) text.now }
{
    let mut rest = text;
    for word in out {
        let (digits, after) = without_feed(rest).split_first_chunk().unwrap();
        *word = word_of(digits);
        rest = after;
    }
}

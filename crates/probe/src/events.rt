// The command `events CODE RAW`: the number of bits of a bitfield that are set, and the lowest of them.
use crate::fields::Fields;
use crate::output::Results;
use display::EventBits;

// Runs the command on its fields. None, with nothing written, where they are bad.
pub(crate) fn run(results: &mut Results, mut fields: Fields) -> Option<()> {
    let type_code = fields.word()?;
    let raw = fields.number()?;
    fields.end()?;
    match display::event_bits(type_code, raw) {
        Ok(EventBits { count, lowest }) => results.print(format_args!("{count} {lowest}")),
        Err(refusal) => results.refused(refusal),
    }
    Some(())
}

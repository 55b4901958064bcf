// The command `decode CODE M WORDS`: the value of four registers under a type code, for a mandatory or an optional point.
use crate::fields::Fields;
use crate::output::Results;
use values::Value;

// Runs the command on its fields. None, with nothing written, where they are bad. (`decode` gives no NaN, so each float has
// its bits.)
#[tactic(auto, using(values::proofs::NoNaN::no_nan))]
pub(crate) fn run(results: &mut Results, mut fields: Fields) -> Option<()> {
    let type_code = fields.word()?;
    let presence = fields.presence()?;
    let mut registers = [0; 4];
    if fields.words(&mut registers)?.len() < 4 {
        return None;
    }
    fields.end()?;
    match values::decode(type_code, presence, registers) {
        Ok(Value::Signed(n)) => results.print(format_args!("signed {n}")),
        Ok(Value::Unsigned(n)) => results.print(format_args!("unsigned {n}")),
        Ok(Value::Float(x)) => results.print(format_args!("float {:08X}", x.to_bits())),
        Ok(Value::Double(x)) => results.print(format_args!("double {:016X}", x.to_bits())),
        Ok(Value::Unimplemented) => results.print("not given"),
        Ok(Value::OutOfRange) => results.print("out of range"),
        Err(refusal) => results.refused(refusal),
    }
    Some(())
}

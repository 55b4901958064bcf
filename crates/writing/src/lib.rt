// Writes a raw value to a point of a register map (refusals 1 to 11, 20 to 29 and 31 to 35).
#![tactic(auto)]

ghost use Rattle.std.specs.Prelude.{◌≡◌, ◌+◌, ◌/◌, ◌%◌, ◌^◌, ◌≤◌, length};
ghost use Rattle.std.proofs.lemmas.List.Edits.{sets};
ghost use Rattle.registers.specs.Registers.{split};
ghost use Rattle.values.specs.Classes.{is_unimplemented_class};
ghost use Rattle.catalog_frames.specs.CodeTypes.{to_spec_point};
ghost use Rattle.layout.specs.Points.{point_class};
ghost use Rattle.listing.specs.CodeTypes.{to_spec_target};
ghost use Rattle.writing.specs.Writing as Writings;
ghost use Rattle.writing.specs.CodeTypes.{to_spec_written};
ghost use Rattle.writing.specs.Calls.{WriteCall};
ghost use Rattle.writing.specs.InternalContracts.{to_spec_verdict};

use catalog::{Point, READ_ONLY};
use listing::{InstancePath, Target, find};
use refusals::{Refusal, Refused};
use registers::too_wide;
use shown_points::point_class;
use values::{Class, is_value_in};

// Writes `raw` to the point with the number `point` and the instance numbers `path`, in the model with the index `model`.
// All refusals are decided before anything is written. The last `ensures` is the first two as one fact, which the claims on
// calls assume. It takes the time of `find`: listing's survey, and a few reads of each header and of each frame of that
// model's definition.
pub fn write(
    catalog: &[u16],
    map: &mut [u16],
    model: usize,
    point: u16,
    path: InstancePath,
    raw: u64,
) -> Result<(), Refused>
    ensures result_value { to_spec_written result ≡ Writings.result (Writings.writing catalog.now map.old model point path.instances raw) }
    ensures map_after { map.new ≡ Writings.map_after (Writings.writing catalog.now map.old model point path.instances raw) map.old }
    ensures write_call { WriteCall catalog.now map.old model point path.instances raw result map.new }
{
    let found = find(catalog, map, model, point, path)?;
    let target = found.ok_or(Refusal::NoSuchPoint)?;
    judge(target, raw)?;
    put_registers(map, target.address, target.point.size as usize, raw);
    Ok(())
}

// Refusals 32 to 35, in order.
#[tactic(auto, unfolding(crate::specs::Writing::refusal))]
fn judge(target: Target, raw: u64) -> Result<(), Refusal>
    ensures { to_spec_verdict result ≡ Writings.refusal (to_spec_target target) raw }
{
    let point = target.point;
    if point.access == READ_ONLY {
        return Err(Refusal::ReadOnly);
    }
    if 4 < point.size {
        return Err(Refusal::OverFourRegisters);
    }
    if is_unimplemented(point, target.raw) {
        return Err(Refusal::UnimplementedPoint);
    }
    if !can_hold(point, raw) {
        return Err(Refusal::NoValueOfPoint);
    }
    Ok(())
}

// Is `raw` the unimplemented pattern of `point`?
fn is_unimplemented(point: Point, raw: u64) -> bool
    ensures { result ≡ is_unimplemented_class (point_class (to_spec_point point) raw) }
{
    point_class(point, raw) == Ok(Class::Unimplemented)
}

// Can `point` hold `raw`? A string has the width of its own registers, not that of the longest string.
fn can_hold(point: Point, raw: u64) -> bool
    ensures { result ≡ Writings.can_hold (to_spec_point point) raw }
{
    is_value_in(point_class(point, raw)) && !too_wide(point.size, raw)
}

// Writes the `size` registers of `raw` from `address`, the highest first.
#[tactic(auto, using(crate::proofs::RegisterSteps::next_register, crate::proofs::RegisterSteps::no_register))]
fn put_registers(map: &mut [u16], address: usize, size: usize, raw: u64)
    requires { (size ≤ 4) × (address + size ≤ length map.old) }
    ensures { map.new ≡ sets map.old address (split size raw) }
{
    for k in 0..size {
        map[address + k] = register_of(raw, size - 1 - k);
    }
}

// The register of `raw` with `lower` registers after it.
#[tactic(auto, using(crate::proofs::RegisterSteps::shifted))]
fn register_of(raw: u64, lower: usize) -> u16
    requires { lower ≤ 3 }
    ensures { result ≡ raw / 65536 ^ lower % 65536 }
{
    (raw >> (16 * lower) & 0xFFFF) as u16
}

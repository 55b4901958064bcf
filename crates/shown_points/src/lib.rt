// What a record shows of a point: its status, raw value and scale (document 01, "Status of a point" and "Listing").
#![tactic(auto)]

ghost use Rattle.std.specs.Prelude.{◌≡◌};
ghost use Rattle.values.specs.CodeTypes.{to_spec_classified};
ghost use Rattle.catalog_frames.specs.CodeTypes.{to_spec_point};
ghost use Rattle.layout.specs.Points.{point_class, scale_class, scale_status, status_of, scale_of};
ghost use Rattle.shown_points.specs.CodeTypes.{registers_class, to_spec_shown, to_spec_status, shown_by};

use catalog::{FIXED_SCALE, Point, SCALE_BY_POINT, SUNSSF};
use point_types::Presence;
use registers::{all_zero, raw_value};
use values::{Class, Unclassified, classify};

// The status of a point; its number is that of document 01.
#[derive(Clone, Copy, Debug, PartialEq, Eq)]
pub enum Status {
    Value = 0,
    Unimplemented = 1,
    MandatoryUnimplemented = 2,
    ScaleUnimplemented = 3,
    ScaleOutOfRange = 4,
    OutOfRange = 5,
}

impl Status {
    // The number that a record has for it.
    pub fn number(self) -> u64
        ensures { result ≡ to_spec_status self }
    {
        self as u64
    }
}

// The status, raw value and scale of a point.
#[derive(Clone, Copy, Debug, PartialEq, Eq)]
pub struct Shown {
    pub status: Status,
    pub raw: u64,
    pub scale: u64,
}

// What is shown of a point, by its registers and the register of its scale point.
pub fn show(point: Point, registers: &[u16], scale_register: u16) -> Shown
    ensures { to_spec_shown result
        ≡ shown_by (to_spec_point point) (registers_class (to_spec_point point) registers.now) registers.now scale_register }
{
    let status = status_of(point, class_of(point, registers), scale_register);
    Shown {
        status,
        raw: raw_value(registers),
        scale: scale_of(point, status, scale_register),
    }
}

// The class of a point's registers. A type of more than four registers is unimplemented if all are 0, and has a value
// otherwise, so 0 or 1 replaces the raw value, which may not fit 64 bits.
#[tactic(auto, unfolding(crate::specs::CodeTypes::registers_class, registers::specs::Registers::shown_raw))]
fn class_of(point: Point, registers: &[u16]) -> Result<Class, Unclassified>
    ensures { to_spec_classified result ≡ registers_class (to_spec_point point) registers.now }
{
    match registers.len() {
        0..=4 => point_class(point, raw_value(registers)),
        _ if all_zero(registers) => point_class(point, 0),
        _ => point_class(point, 1),
    }
}

// The class of a raw value of a point: by its type, and by whether it is mandatory.
pub fn point_class(point: Point, raw: u64) -> Result<Class, Unclassified>
    ensures { to_spec_classified result ≡ point_class (to_spec_point point) raw }
{
    classify(point.type_code, Presence::from(point.mandatory), raw)
}

// The status of a point, the first that applies.
fn status_of(point: Point, class: Result<Class, Unclassified>, scale_register: u16) -> Status
    ensures { to_spec_status result ≡ status_of (to_spec_point point) (to_spec_classified class) scale_register }
{
    match class {
        Ok(Class::Value) if point.scale_kind == SCALE_BY_POINT => scale_status(scale_register),
        Ok(Class::Value) => Status::Value,
        Ok(Class::Unimplemented) => match Presence::from(point.mandatory) {
            Presence::Mandatory => Status::MandatoryUnimplemented,
            Presence::Optional => Status::Unimplemented,
        },
        Ok(Class::OutOfRange) | Err(_) => Status::OutOfRange,
    }
}

// The status of a value by the register of its scale point.
fn scale_status(register: u16) -> Status
    ensures { to_spec_status result ≡ scale_status (scale_class register) }
{
    // A sunssf is no accumulator, so its presence does not matter.
    match classify(SUNSSF, Presence::Optional, u64::from(register)) {
        Ok(Class::Value) => Status::Value,
        Ok(Class::Unimplemented) => Status::ScaleUnimplemented,
        Ok(Class::OutOfRange) | Err(_) => Status::ScaleOutOfRange,
    }
}

// The scale shown: 0 unless the status is 0 and the point has a scale.
fn scale_of(point: Point, status: Status, scale_register: u16) -> u64
    ensures { result ≡ scale_of (to_spec_point point) (to_spec_status status) scale_register }
{
    match (status, point.scale_kind) {
        (Status::Value, FIXED_SCALE) => u64::from(point.scale),
        (Status::Value, SCALE_BY_POINT) => u64::from(scale_register),
        _ => 0,
    }
}

// Registers and the raw value that they hold.
// Every public call takes any arguments and carries an equation with the definitions of specs/.
#![tactic(auto)]

ghost use Rattle.std.specs.Prelude.{◌≡◌, ◌-◌, ◌*◌, ◌^◌, ◌<◌, min, length, take, drop};
ghost use Rattle.registers.specs.Registers.{shown_raw, all_zero, too_wide};

// The raw value that a record shows: the registers joined, high first, and 0 for more than four.
pub fn raw_value(registers: &[u16]) -> u64
    ensures value { result ≡ shown_raw registers.now }
    ensures upper_bound { result < 65536 ^ length registers.now }
{
    if 4 < registers.len() {
        return 0;
    }
    let mut raw = 0;
    for register in registers {
        raw = raw * 65536 + u64::from(*register);
    }
    raw
}

// Are all registers 0?
pub fn all_zero(registers: &[u16]) -> bool
    ensures { result ≡ all_zero registers.now }
{
    registers.iter().all(|register| *register == 0)
}

// The `count` registers from `start` on, or fewer if the list ends before.
pub fn part<'a>(registers: &'a [u16], start: usize, count: usize) -> &'a [u16]
    ensures { result.now ≡ take count (drop start registers.now) }
{
    let rest = registers.get(start..).unwrap_or_default();
    &rest[..count.min(rest.len())]
}

// Is the raw value too wide for `count` registers?
pub fn too_wide(count: u16, raw: u64) -> bool
    ensures { result ≡ too_wide count raw }
{
    all_ones(count) < raw
}

// The largest pattern of `count` registers, or of 64 bits if that is less.
pub fn all_ones(count: u16) -> u64
    ensures { result ≡ min (2 ^ (16 * count)) (2 ^ 64) - 1 }
{
    match count {
        0 => 0,
        1 => 0xFFFF,
        2 => 0xFFFFFFFF,
        3 => 0xFFFFFFFFFFFF,
        _ => 0xFFFFFFFFFFFFFFFF,
    }
}

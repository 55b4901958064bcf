// Paths: the instance numbers that lead to a point.
ghost use Rattle.std.specs.Prelude.{◌≡◌, drop, get_or, set};
ghost use Rattle.registers.specs.Registers as Registers;

// The number of levels that have an instance number: levels 2, 3 and 4. The top group, level 1, has one instance.
pub const LOWER_LEVELS: usize = 3;

// The instance numbers at levels 2, 3 and 4, 0 where absent.
#[derive(Clone, Copy, Debug, PartialEq, Eq)]
pub struct InstancePath {
    pub instances: [u16; LOWER_LEVELS],
}

impl InstancePath {
    // The instance number at `place`: places 0, 1 and 2 are levels 2, 3 and 4. 0 at any other place.
    pub fn number_at(self, place: usize) -> usize
        ensures { result ≡ get_or self.instances place 0 }
    {
        self.instances.get(place).copied().map_or(0, usize::from)
    }

    // The path with `number` at `place`. The same path where it has no such place.
    pub fn with_number(mut self, place: usize, number: u16) -> InstancePath
        ensures { result.instances ≡ set self.instances place number }
    {
        if place < LOWER_LEVELS {
            self.instances[place] = number;
        }
        self
    }

    // Are all numbers from `place` on 0?
    pub fn is_zero_from(self, place: usize) -> bool
        ensures { result ≡ Registers.all_zero (drop place self.instances) }
    {
        self.instances.iter().skip(place).all(|number| *number == 0)
    }
}

// Ticks: an amount of time, an unsigned number of 4 bytes; 4,294,967,295 means over.
ghost use Rattle.std.specs.Prelude.{◌^◌, ◌<◌, Some, decimal};

use std::fmt;

#[derive(Clone, Copy, PartialEq, Eq, PartialOrd, Ord, Debug)]
pub struct Ticks {
    pub value: u32,
    ghost fits: { value < 2 ^ 32 },
}

impl Ticks {
    // bytes
    pub const WIDTH: usize = 4;
}

// As its number.
impl fmt::Display for Ticks {
    ghost output = { λ a. Some (decimal a.value) };

    fn fmt<W: fmt::Write>(&self, f: &mut fmt::Formatter<W>) -> fmt::Result {
        write!(f, "{}", self.value)
    }
}

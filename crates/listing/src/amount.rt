// How an amount is spelt in a line: as it is printed.
ghost use Rattle.std.specs.Prelude.{◌≡◌, ℕ, List, Some, decimal, refl};

use costs::measure::Measure;
use costs::memory::Memory;
use costs::ticks::Ticks;
use std::fmt::Display;

// An amount that can stand in a line.
pub trait Spelt: Measure + Display {
    // the bytes that stand for an amount in a line
    ghost text: { Self → List ℕ };

    // an amount is printed by these bytes
    ghost printed: { (a : Self) → Self.output a ≡ Some (text a) };
}

impl Spelt for Ticks {
    ghost text = { λ t. decimal t.value };

    ghost printed = { λ t. refl };
}

impl Spelt for Memory {
    ghost text = { λ m. decimal m.value };

    ghost printed = { λ m. refl };
}

// Ticks as a measure.
ghost use Rattle.costs.specs.Measures.{ticks_ops, ticks_meant};
ghost use Rattle.costs.specs.MeasureLaws.{ticks_lawful, four_bytes};

use crate::measure::Measure;
use crate::ticks::Ticks;

impl Measure for Ticks {
    ghost ops = { ticks_ops };

    ghost wide = { 4 };

    ghost meant = { ticks_meant };

    ghost lawful = { ticks_lawful };

    ghost narrow = { four_bytes };

    fn zero() -> Ticks {
        Ticks { value: 0 }
    }

    fn sum(self, other: Ticks) -> Ticks {
        Ticks {
            value: self.value.saturating_add(other.value),
        }
    }

    fn covers(self, other: Ticks) -> bool {
        self >= other
    }

    fn higher(self, other: Ticks) -> Ticks {
        self.max(other)
    }

    fn width() -> usize {
        Ticks::WIDTH
    }

    fn read(bytes: &[u8]) -> Ticks {
        Ticks {
            value: u32::from_be_bytes([bytes[0], bytes[1], bytes[2], bytes[3]]),
        }
    }
}

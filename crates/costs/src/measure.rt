// What a measure is: functions of amounts that never refuse, and their laws.
ghost use Rattle.std.specs.Prelude.{◌≡◌, ℕ, ◌≤◌, List, length};
ghost use Rattle.costs.specs.Amounts.{Amounts, Lawful};

pub trait Measure: Copy {
    // zero, sum, covering and the higher of two
    ghost ops: { Amounts Self };

    // how many bytes an amount takes
    ghost wide: { ℕ };

    // the amount that so many bytes stand for
    ghost meant: { List ℕ → Self };

    fn zero() -> Self
        ensures { result ≡ ops.zero };

    fn sum(self, other: Self) -> Self
        ensures { result ≡ ops.plus self other };

    // Whether it is enough wherever the other is. Each measure says so itself, and which of two is higher: not every covering is the `Ord` of a type.
    fn covers(self, other: Self) -> bool
        ensures { result ≡ ops.covers self other };

    fn higher(self, other: Self) -> Self
        ensures { result ≡ ops.higher self other };

    // How many bytes an amount takes, 1 to 8.
    fn width() -> usize
        ensures { result ≡ wide };

    // The amount that the bytes stand for; bytes of another length than the width have none.
    fn read(bytes: &[u8]) -> Self
        requires { length bytes.now ≡ wide }
        ensures { result ≡ meant bytes.now };

    ghost lawful: { Lawful ops };

    ghost narrow: { (1 ≤ wide) × (wide ≤ 8) };
}

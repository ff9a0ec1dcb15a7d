// Entries: an amount of any measure beside eight counts.
ghost use Rattle.std.specs.Prelude.{◌≡◌};
ghost use Rattle.costs.specs.Entries.{amount_alone, entry_ops};
ghost use Rattle.costs.specs.Reducers.{beats};

use crate::counts::Counts;
use crate::measure::Measure;

#[derive(Clone, Copy, PartialEq, Eq, Debug)]
pub struct Entry<M> {
    pub amount: M,
    pub counts: Counts,
}

impl<M: Measure> Entry<M> {
    // The zero amount and no counts.
    pub fn zero() -> Entry<M>
        ensures { result ≡ (entry_ops M.Measure.ops).zero }
    {
        Entry {
            amount: M::zero(),
            counts: Counts::zero(),
        }
    }

    // An amount and no counts.
    pub fn of(amount: M) -> Entry<M>
        ensures { result ≡ amount_alone amount }
    {
        let counts = Counts::zero();
        Entry { amount, counts }
    }

    pub fn sum(self, other: Entry<M>) -> Entry<M>
        ensures { result ≡ (entry_ops M.Measure.ops).plus self other }
    {
        Entry {
            amount: self.amount.sum(other.amount),
            counts: self.counts.sum(other.counts),
        }
    }

    // Whether its amount covers and no count is lower. By `&`, of which the compiler makes faster code here than of `&&`.
    pub fn covers(self, other: Entry<M>) -> bool
        ensures { result ≡ (entry_ops M.Measure.ops).covers self other }
    {
        self.amount.covers(other.amount) & self.counts.covers(other.counts)
    }

    // The higher amount, and the greater count of each output.
    pub fn higher(self, other: Entry<M>) -> Entry<M>
        ensures { result ≡ (entry_ops M.Measure.ops).higher self other }
    {
        Entry {
            amount: self.amount.higher(other.amount),
            counts: self.counts.higher(other.counts),
        }
    }

    // Whether it covers the other and is different from it.
    pub(crate) fn beats(self, other: Entry<M>) -> bool
        ensures { result ≡ beats (entry_ops M.Measure.ops) self other }
    {
        self.covers(other) && !other.covers(self)
    }
}

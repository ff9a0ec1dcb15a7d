// What is done with counts: made, read, added and raised output by output, and compared all at once.
ghost use Rattle.std.specs.Prelude.{◌≡◌, ℕ, ◌<◌, slice_index};
ghost use Rattle.costs.specs.Entries.{counts_ops, counts_of, no_counts, one_count};

use crate::counts::Counts;
use std::array;
use std::simd::prelude::*;

impl Counts {
    pub(crate) fn zero() -> Counts
        ensures { result ≡ no_counts }
    {
        Counts { at: [0; 8] }
    }

    // One count at output p.
    pub fn one(p: usize) -> Counts
        requires { p < 8 }
        ensures { result ≡ one_count p }
    {
        Counts {
            at: array::from_fn(|o| u8::from(o == p)),
        }
    }

    // One count for each output, from up to eight bytes: missing ones are zero, bytes past the eighth are not read.
    pub fn read(bytes: &[u8]) -> Counts
        ensures { result ≡ counts_of bytes.now }
    {
        Counts {
            at: array::from_fn(|o| bytes.get(o).copied().unwrap_or(0)),
        }
    }

    // How often output o is counted; outputs past the eighth are not.
    pub fn count(self, o: usize) -> u8
        ensures { result ≡ slice_index self.at o }
    {
        self.at.get(o).copied().unwrap_or(0)
    }

    // What f makes of the two counts of each output.
    fn by<F: Fn(u8, u8) -> u8>(self, other: Counts, f: F) -> Counts
        requires { F.IsAlwaysCallable f }
        ensures { (k : ℕ) → k < 8 → F.post f (slice_index self.at k) (slice_index other.at k) (slice_index result.at k) }
    {
        Counts {
            at: array::from_fn(|o| f(self.at[o], other.at[o])),
        }
    }

    pub(crate) fn sum(self, other: Counts) -> Counts
        ensures { result ≡ counts_ops.plus self other }
    {
        self.by(other, u8::saturating_add)
    }

    // Whether no count is lower. All eight are compared at once, whichever of them decides.
    pub(crate) fn covers(self, other: Counts) -> bool
        ensures { result ≡ counts_ops.covers self other }
    {
        u8x8::from_array(self.at)
            .simd_ge(u8x8::from_array(other.at))
            .all()
    }

    pub(crate) fn higher(self, other: Counts) -> Counts
        ensures { result ≡ counts_ops.higher self other }
    {
        self.by(other, u8::max)
    }
}

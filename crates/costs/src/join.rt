// Joining two lists: the sums of each entry of one, in order, with each of the other, in order.
ghost use Rattle.std.specs.Prelude.{◌≡◌, ◌+◌, ◌*◌, ◌≤◌, ◌++◌, map, length, take};
ghost use Rattle.costs.specs.Entries.{entry_ops};
ghost use Rattle.costs.specs.Lists.{sums, Written};

use crate::entry::Entry;
use crate::measure::Measure;

// Writes the sums of x with each of ys from row `at` on.
fn add_each<M: Measure>(x: Entry<M>, ys: &[Entry<M>], into: &mut [Entry<M>], at: usize)
    requires { at + length ys.now ≤ length into.old }
    ensures { Written into.old into.new (at + length ys.now) (take at into.old ++ map ((entry_ops M.Measure.ops).plus x) ys.now) }
{
    // by index, since a proof knows nothing of what a `zip` over `iter_mut` wrote
    for (j, y) in ys.iter().enumerate() {
        into[at + j] = x.sum(*y);
    }
}

// Writes the joined list into the first rows, and answers how many these are. The other rows stay.
pub fn join<M: Measure>(xs: &[Entry<M>], ys: &[Entry<M>], into: &mut [Entry<M>]) -> usize
    requires few { length xs.now * length ys.now ≤ 1024 }
    requires room { length xs.now * length ys.now ≤ length into.old }
    ensures count { result ≡ length xs.now * length ys.now }
    ensures written { Written into.old into.new result (sums (entry_ops M.Measure.ops) xs.now ys.now) }
{
    let mut at = 0;
    for x in xs {
        add_each(*x, ys, into, at);
        at += ys.len();
    }
    at
}

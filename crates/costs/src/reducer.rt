// What a reducer is: it turns 1 to 1,024 entries into at least one and no more than were given.
// Rows are lent by the caller, here and in the crates above, which use no heap: a list that is made stands in the first of them, and its length is answered.
ghost use Rattle.std.specs.Prelude.{◌≤◌, List, length};
ghost use Rattle.costs.specs.Lists.{Sound, Reduced};
ghost use Rattle.costs.specs.declared.entry.Entry.{Entry};

use crate::entry::Entry;
use crate::measure::Measure;

pub trait Reducer<M: Measure> {
    // what may be answered for a list; what is chosen within its meaning is free
    ghost gives: { List (Entry M) → List (Entry M) → Type 0 };

    // Writes the result into the first rows, and answers how many these are. Rows past as many as were given stay.
    fn reduce(from: &[Entry<M>], into: &mut [Entry<M>]) -> usize
        requires some { 1 ≤ length from.now }
        requires few { length from.now ≤ 1024 }
        requires room { length from.now ≤ length into.old }
        ensures { Reduced gives from.now into.old into.new result };

    // each given entry is covered by a resulting one, and each resulting one by the merged entry
    ghost sound: { Sound M.Measure.ops gives };
}

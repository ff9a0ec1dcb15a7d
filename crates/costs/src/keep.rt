// Keep: the reducer that drops an entry that a different one covers, or that equals an earlier one, and preserves the order.
ghost use Rattle.std.specs.Prelude.{◌≡◌, ◌≤◌, not, length, take, filter};
ghost use Rattle.std.specs.List.{list_any as any};
ghost use Rattle.costs.specs.Entries.{entry_ops};
ghost use Rattle.costs.specs.Lists.{By};
ghost use Rattle.costs.specs.Reducers.{beats, kept};
ghost use Rattle.costs.specs.KeepLaws.{keep_sound};

use crate::entry::Entry;
use crate::measure::Measure;
use crate::reducer::Reducer;

pub struct Keep;

// Whether an entry covers x.
fn covered<M: Measure>(rows: &[Entry<M>], x: Entry<M>) -> bool
    ensures { result ≡ any (λ y. (entry_ops M.Measure.ops).covers y x) rows.now }
{
    rows.iter().any(|y| y.covers(x))
}

// Leaves of the rows those that x does not beat, in order, in the first ones, and answers how many these are.
fn retain<M: Measure>(rows: &mut [Entry<M>], x: Entry<M>) -> usize
    ensures few { result ≤ length rows.old }
    ensures left { take result rows.new ≡ filter (λ y. not (beats (entry_ops M.Measure.ops) x y)) rows.old }
{
    let mut k = 0;
    // the rows are written as they are read, so the place is counted: a slice has no `retain`
    for i in 0..rows.len() {
        let y = rows[i];
        if !x.beats(y) {
            rows[k] = y;
            k += 1;
        }
    }
    k
}

impl<M: Measure> Reducer<M> for Keep {
    ghost gives = { By (kept (entry_ops M.Measure.ops)) };

    ghost sound = { keep_sound M.Measure.lawful };

    // Each entry is held against those kept so far: one that covers it drops it, and else it drops those that it beats.
    fn reduce(from: &[Entry<M>], into: &mut [Entry<M>]) -> usize {
        let mut k = 0;
        for x in from {
            if !covered(&into[..k], *x) {
                k = retain(&mut into[..k], *x);
                into[k] = *x;
                k += 1;
            }
        }
        k
    }
}

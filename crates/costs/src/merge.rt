// Merge: the reducer that leaves the merged entry only.
ghost use Rattle.std.specs.Prelude.{◌≡◌};
ghost use Rattle.costs.specs.Entries.{entry_ops};
ghost use Rattle.costs.specs.Lists.{merged, By};
ghost use Rattle.costs.specs.Reducers.{merged_alone};
ghost use Rattle.costs.specs.ListLaws.{merge_sound};

use crate::entry::Entry;
use crate::measure::Measure;
use crate::reducer::Reducer;

pub struct Merge;

// The highest amount, and the greatest count of each output.
#[tactic(auto, unfolding(crate::specs::Lists::merged))]
fn highest<M: Measure>(rows: &[Entry<M>]) -> Entry<M>
    ensures { result ≡ merged (entry_ops M.Measure.ops) rows.now }
{
    rows.iter().fold(Entry::zero(), |top, x| top.higher(*x))
}

impl<M: Measure> Reducer<M> for Merge {
    ghost gives = { By (merged_alone (entry_ops M.Measure.ops)) };

    ghost sound = { merge_sound M.Measure.lawful };

    fn reduce(from: &[Entry<M>], into: &mut [Entry<M>]) -> usize {
        into[0] = highest(from);
        1
    }
}

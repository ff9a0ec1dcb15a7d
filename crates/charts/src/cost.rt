// What a state costs: the sum of its actions.
ghost use Rattle.std.specs.Prelude.{◌≡◌, ◌<◌, [], length, slice_index_or};
ghost use Rattle.charts.specs.Charts.{Within, no_action, State, output_counts, algorithm_amount, action_cost, state_cost};
ghost use Rattle.charts.specs.Naming.{says};

use crate::graph::Chart;
use crate::names::action_at;
use costs::counts::Counts;
use costs::entry::Entry;
use costs::measure::Measure;
use sheets::words::Action;

// One count at the output, if there is one.
fn output_counts(output: Option<u8>) -> Counts
    requires { Within 8 output }
    ensures { result ≡ output_counts output }
{
    output.map_or(Counts::read(&[]), |p| Counts::one(usize::from(p)))
}

impl<'a, M: Measure> Chart<'a, M> {
    // The amount of the algorithm, if there is one. By arms: a closure would have to say again what reading an amount asks and gives.
    fn algorithm_amount(&self, algorithm: Option<u8>) -> M
        requires { Within (length (says self.now.sheet.now).amounts) algorithm }
        ensures { result ≡ algorithm_amount M.Measure.ops M.Measure.meant (says self.now.sheet.now) algorithm }
    {
        match algorithm {
            Some(k) => M::read(self.sheet.amount(k as usize).unwrap()),
            None => M::zero(),
        }
    }

    // The cost of action j of state s.
    fn action_cost(&self, s: usize, j: usize) -> Entry<M>
        requires { State (says self.now.sheet.now) s × (j < length (slice_index_or (says self.now.sheet.now).states s [])) }
        ensures { result ≡ action_cost M.Measure.ops M.Measure.meant (says self.now.sheet.now) (slice_index_or (slice_index_or (says self.now.sheet.now).states s []) j no_action) }
    {
        let action = action_at(self.sheet, s, j);
        Entry {
            amount: self.algorithm_amount(action.algorithm),
            counts: output_counts(action.output),
        }
    }

    // The cost of state s.
    pub(crate) fn state_cost(&self, s: usize) -> Entry<M>
        requires { State (says self.now.sheet.now) s }
        ensures { result ≡ state_cost M.Measure.ops M.Measure.meant (says self.now.sheet.now) s }
    {
        (0..self.sheet.actions(s))
            .rev()
            .fold(Entry::zero(), |cost, j| self.action_cost(s, j).sum(cost))
    }
}

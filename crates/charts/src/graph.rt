// The chart of a block as a graph: its states, and its event-free transitions.
ghost use Rattle.std.specs.Prelude.{◌≡◌, ◌<◌, ◌≢◌, true, length, Decides, slice_index_or};
ghost use Rattle.std.proofs.Props.{props};
ghost use Rattle.order.specs.Order.{Marked};
ghost use Rattle.sheets.specs.declared.words.Kind.TheVariants.{Composite};
ghost use Rattle.charts.specs.Charts.{is_free, no_transition, Named, Within-prop, State, Leads};
ghost use Rattle.charts.specs.Naming.{says};

use crate::names::transition_at;
use costs::measure::Measure;
use order::Graph;
use sheets::opened::Checked;
use sheets::words::{Item, Transition};
use std::marker::PhantomData;

// The chart of a basic or a service block: a sheet whose numbers all name something and whose amounts are as wide as the measure's.
#[derive(Drop)]
pub(crate) struct Chart<'a, M: Measure> {
    pub(crate) sheet: &'a Checked<'a>,
    pub(crate) measure: PhantomData<M>,
    ghost width: { sheet.now.width.bytes ≡ M.Measure.wide },
    ghost named: { Named (says sheet.now) } by { Prim.hlevel (props, Within-prop) },
    ghost block: { (says sheet.now).face.kind ≢ Composite },
}

pub(crate) fn is_free(transition: Transition, s: usize) -> bool
    ensures { result ≡ is_free s transition }
{
    transition.event.is_none() && usize::from(transition.source) == s
}

// Whether an event-free transition of s leads to a state that is not marked.
fn is_barred(transition: Transition, s: usize, marks: &[bool]) -> bool
    requires { transition.destination < length marks.now }
    ensures { Decides result ((is_free s transition ≡ true) × (Marked marks.now transition.destination → ⊥)) }
{
    is_free(transition, s) && !marks[usize::from(transition.destination)]
}

impl<'a, M: Measure> Chart<'a, M> {
    // Transition t; it leads to a state.
    pub(crate) fn transition(&self, t: usize) -> Transition
        requires { t < length (says self.now.sheet.now).transitions }
        ensures is { result ≡ slice_index_or (says self.now.sheet.now).transitions t no_transition }
        ensures state { State (says self.now.sheet.now) result.destination }
    {
        transition_at(self.sheet, t)
    }
}

impl<'a, M: Measure> Graph for Chart<'a, M> {
    ghost nodes = { λ g. length (says g.sheet.now).states };

    ghost node = { λ g k. Unit {0} };

    ghost leads = { λ g. Leads (says g.sheet.now) };

    fn is_node(&self, k: usize) -> bool {
        true
    }

    fn barred(&self, k: usize, marks: &[bool]) -> Option<usize> {
        (0..self.sheet.count(Item::Transition))
            .map(|t| self.transition(t))
            .find(|transition| is_barred(*transition, k, marks))
            .map(|transition| usize::from(transition.destination))
    }
}

// The lists of all states, in working order, and then of all events, ascending.
ghost use Rattle.std.specs.Prelude.{◌≡◌, ℕ, ◌+◌, ◌*◌, ◌<◌, ◌≤◌, [], length, take, IfErr, MatchResult, slice_index};
ghost use Rattle.costs.specs.Entries.{entry_ops};
ghost use Rattle.costs.specs.Lent.{list_at};
ghost use Rattle.order.specs.Order.{Order, Complete, Unworkable};
ghost use Rattle.order.specs.Ways.{Endless};
ghost use Rattle.sheets.specs.declared.words.Kind.TheVariants.{Basic};
ghost use Rattle.charts.specs.Forming.{stops};
ghost use Rattle.charts.specs.Charts.{State, Leads};
ghost use Rattle.charts.specs.Cards.{EventBy, Events, BasicCard};
ghost use Rattle.charts.specs.Naming.{says};
ghost use Rattle.charts.specs.Refusals.{CircleAt, TooLongAt};
ghost use Rattle.charts.specs.Rows.{Formed, Working, Evented};

use crate::graph::Chart;
use crate::refusal::Refusal;
use crate::room::Room;
use costs::entry::Entry;
use costs::lists::{Lists, blank};
use costs::measure::Measure;
use costs::reducer::Reducer;
use order::plan;
use sheets::words::{Item, Kind};

impl<'a, M: Measure> Chart<'a, M> {
    // The working order of all states; refused is the lowest that cannot be worked.
    pub(crate) fn plan(&self, marks: &mut [bool], order: &mut [usize]) -> Result<usize, Refusal>
        requires marks { length marks.old ≡ 32 }
        requires order { length order.old ≡ 32 }
        ensures order { MatchResult result (λ k. (k ≤ 32) × Complete (State (says self.now.sheet.now)) (Leads (says self.now.sheet.now)) (take k order.new)) (CircleAt (Unworkable (State (says self.now.sheet.now)) (Leads (says self.now.sheet.now)))) }
        ensures circles { IfErr result (CircleAt (Endless (Leads (says self.now.sheet.now)))) }
    {
        let n = self.sheet.count(Item::State);
        plan(self, &mut marks[..n], order).map_err(|state| Refusal::Circle { state })
    }

    // Works the states in this order; refused is the state whose reduced list is too long.
    pub(crate) fn work_states<R: Reducer<M>>(
        &self,
        order: &[usize],
        lists: &mut Lists<'_, M, 32>,
        room: &mut Room<'_, M>,
    ) -> Result<(), Refusal>
        requires order { Order (State (says self.now.sheet.now)) (Leads (says self.now.sheet.now)) order.now }
        requires fresh { (t : ℕ) → slice_index lists.old.lens t ≡ 0 }
        ensures { MatchResult result (λ _. Working M.Measure.ops M.Measure.meant R.gives (says self.now.sheet.now) order.now order.now [] lists.new.rows.now lists.new.lens) (TooLongAt (λ s. BasicCard M.Measure.ops M.Measure.meant R.gives (says self.now.sheet.now) order.now (stops s))) }
    {
        for s in order {
            let list = self
                .state_list::<R>(*s, lists, room)
                .ok_or(Refusal::TooLong { place: *s })?;
            lists.store(*s, list);
        }
        Ok(())
    }

    // Forms the list of event f, by the kind of block.
    fn form_event<'r, R: Reducer<M>>(
        &self,
        f: usize,
        lists: &Lists<'_, M, 32>,
        room: &'r mut Room<'_, M>,
    ) -> Option<&'r [Entry<M>]>
        requires event { f < (says self.now.sheet.now).face.inputs }
        requires worked { (says self.now.sheet.now).face.kind ≡ Basic → (s : ℕ) → State (says self.now.sheet.now) s → 1 ≤ slice_index lists.now.lens s }
        ensures { Formed (EventBy M.Measure.ops M.Measure.meant R.gives (says self.now.sheet.now) (says self.now.sheet.now).face.kind (list_at lists.now.rows.now lists.now.lens) f) result }
    {
        match self.sheet.interface().kind {
            Kind::Basic => self.event_list::<R>(f, lists, room),
            _ => self.service_list::<R>(f, room),
        }
    }

    // Works the lists of all events in the rows: that of event e stands in rows 16 e and on, with zero entries past it. Answers their lengths; refused is 256 + the event whose reduced list is too long.
    pub(crate) fn work_events<R: Reducer<M>>(
        &self,
        lists: &Lists<'_, M, 32>,
        room: &mut Room<'_, M>,
        rows: &mut [Entry<M>],
    ) -> Result<[usize; 8], Refusal>
        requires worked { (says self.now.sheet.now).face.kind ≡ Basic → (s : ℕ) → State (says self.now.sheet.now) s → 1 ≤ slice_index lists.now.lens s }
        requires rows { 128 ≤ length rows.old }
        ensures { MatchResult result (Evented (EventBy M.Measure.ops M.Measure.meant R.gives (says self.now.sheet.now) (says self.now.sheet.now).face.kind (list_at lists.now.rows.now lists.now.lens)) (says self.now.sheet.now).face.inputs (entry_ops M.Measure.ops).zero rows.new) (TooLongAt (λ p. Events (EventBy M.Measure.ops M.Measure.meant R.gives (says self.now.sheet.now) (says self.now.sheet.now).face.kind (list_at lists.now.rows.now lists.now.lens)) (says self.now.sheet.now).face.inputs 0 [] (stops p))) }
    {
        blank(rows);
        let mut card = Lists::new(rows);
        // by number: an event is nothing but its number, and its list is stored by it
        for e in 0..usize::from(self.sheet.interface().inputs) {
            let list = self
                .form_event::<R>(e, lists, room)
                .ok_or(Refusal::TooLong { place: 256 + e })?;
            card.store(e, list);
        }
        Ok(card.lens)
    }
}

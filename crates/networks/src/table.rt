// The table of the lists of places, and the lists of the composite's own events, in lent rows.
ghost use Rattle.std.specs.Prelude.{◌≡◌, ℕ, ◌/◌, ◌%◌, ◌<◌, ◌≤◌, length, IfOk, MatchResult};
ghost use Rattle.std.specs.List.{ContainsAt as Has, AllByRecursion};
ghost use Rattle.costs.specs.Entries.{entry_ops};
ghost use Rattle.costs.specs.Forming.{list};
ghost use Rattle.costs.specs.Lent.{list_at};
ghost use Rattle.order.specs.Order.{Order};
ghost use Rattle.sheets.specs.declared.words.End.TheVariants.{Outside};
ghost use Rattle.networks.specs.Networks.{targets, Node, Leads};
ghost use Rattle.networks.specs.Cards.{EventList, Formed, TooLongAt};
ghost use Rattle.networks.specs.Refusals.{Refused};
ghost use Rattle.networks.specs.Rows.{net_of, table_at, Filled, EventStop, Finished};

use crate::beneath::Beneath;
use crate::draft::Pile;
use crate::graph::Places;
use crate::refusal::Refusal;
use crate::room::Room;
use costs::entry::Entry;
use costs::lists::{Lists, blank};
use costs::measure::Measure;
use costs::reducer::Reducer;
use sheets::words::End;

impl<'a, M: Measure, B: Beneath<M>> Places<'a, M, B> {
    // Works the places in the order given. Refused is the first whose reduced list is above 16.
    pub(crate) fn work_places<R: Reducer<M>>(
        &self,
        order: &[usize],
        lists: &mut Lists<'_, M, 128>,
        room: &mut Room<'_, M>,
        pile: &mut Pile<'_, M>,
    ) -> Result<(), Refusal>
        requires { Order (Node (net_of self.now.net (B.faces self.now.beneath.now))) (Leads (net_of self.now.net (B.faces self.now.beneath.now)) (B.cards self.now.beneath.now)) order.now }
        ensures { MatchResult result (λ _. (m : ℕ) → Has order.now m → Formed M.Measure.ops R.Reducer.gives (net_of self.now.net (B.faces self.now.beneath.now)) (B.cards self.now.beneath.now) (table_at lists.new.rows.now lists.new.lens) (m / 8) (m % 8)) (Refused 10 3 (TooLongAt M.Measure.ops R.Reducer.gives (net_of self.now.net (B.faces self.now.beneath.now)) (B.cards self.now.beneath.now))) }
    {
        for k in order {
            self.place_list::<R>(*k, lists, room, pile)
                .ok_or(Refusal::TooLong { place: *k })?;
            lists.store(*k, room.list.list());
        }
        Ok(())
    }

    // Works the lists of the block's own events: that of event e into rows 16 e and on, the zero entry past it. It answers the lengths of the eight lists.
    // Refused is 256 + the first event whose reduced list is above 16.
    pub(crate) fn work_events<R: Reducer<M>>(
        &self,
        lists: &Lists<'_, M, 128>,
        room: &mut Room<'_, M>,
        rows: &mut [Entry<M>],
    ) -> Result<[usize; 8], Refusal>
        requires filled { (e : ℕ) → AllByRecursion (Filled lists.now.lens) (targets self.now.net.connections.now (Outside e)) }
        requires rows { 128 ≤ length rows.old }
        ensures events { MatchResult result (λ ends. (e : ℕ) → e < self.now.net.inputs → EventList M.Measure.ops R.Reducer.gives (table_at lists.now.rows.now lists.now.lens) self.now.net.connections.now e (list (list_at rows.new ends e))) (Refused 10 3 (EventStop M.Measure.ops R.Reducer.gives (table_at lists.now.rows.now lists.now.lens) self.now.net.connections.now self.now.net.inputs)) }
        ensures finished { IfOk result (λ ends. Finished (entry_ops M.Measure.ops).zero self.now.net.inputs rows.new ends × (length ends ≡ 8)) }
    {
        blank(rows);
        let mut results = Lists::<M, 8>::new(rows);
        // by number: an event is nothing but its number, and its list is stored by it
        for e in 0..self.net.inputs {
            self.source_list::<R>(End::Outside { port: e as u8 }, lists, room)
                .ok_or(Refusal::TooLong { place: 256 + e })?;
            results.store(e, room.source.list());
        }
        Ok(results.lens)
    }
}

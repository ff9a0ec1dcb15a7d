// The lists of one state and of one event, formed in lent rows.
ghost use Rattle.std.specs.Prelude.{◌≡◌, ℕ, ◌+◌, ◌<◌, ◌≤◌, Bool, length, take, slice_index};
ghost use Rattle.std.specs.List.{flat_map};
ghost use Rattle.costs.specs.Forming.{Reduces};
ghost use Rattle.costs.specs.Lent.{list_at};
ghost use Rattle.sheets.specs.Form.{served};
ghost use Rattle.sheets.specs.Shown.{shown_entry};
ghost use Rattle.sheets.specs.declared.words.Transition.{Transition};
ghost use Rattle.sheets.specs.declared.words.Kind.TheVariants.{Service};
ghost use Rattle.charts.specs.Charts.{is_guarded, dests, frees, guarded, state_cost, served_entry, served_entries, State, Leads};
ghost use Rattle.charts.specs.Cards.{StateList, EventList};
ghost use Rattle.charts.specs.Naming.{says};
ghost use Rattle.charts.specs.Rows.{Tests, Formed};

use crate::graph::{Chart, is_free};
use crate::names::entry_at;
use crate::room::Room;
use costs::counts::Counts;
use costs::entry::Entry;
use costs::lists::{Lists, append};
use costs::measure::Measure;
use costs::reducer::Reducer;
use sheets::field::ServiceEntry;
use sheets::words::{Item, Transition};

fn is_guarded(transition: Transition, f: usize) -> bool
    ensures { result ≡ is_guarded f transition }
{
    transition.event.is_some_and(|e| usize::from(e) == f)
}

// A service entry as an entry.
fn served_entry<M: Measure>(entry: ServiceEntry<'_>) -> Entry<M>
    requires { length entry.amount.now ≡ M.Measure.wide }
    ensures { result ≡ served_entry M.Measure.meant (shown_entry entry.entry) }
{
    Entry {
        amount: M::read(entry.amount),
        counts: Counts::read(entry.counts),
    }
}

impl<'a, M: Measure> Chart<'a, M> {
    // Puts the lists of the destinations of the transitions meant after one another, in sheet order, and answers how many rows they take.
    fn gather<F: Fn(Transition) -> bool>(
        &self,
        lists: &Lists<'_, M, 32>,
        is_meant: F,
        rows: &mut [Entry<M>],
    ) -> usize
        requires test { F.IsAlwaysCallable is_meant }
        requires room { 1024 ≤ length rows.old }
        ensures rows { (p : Transition → Bool) → Tests (F.post is_meant) p → take result rows.new ≡ flat_map (list_at lists.now.rows.now lists.now.lens) (dests p (says self.now.sheet.now).transitions) }
        ensures few { result ≤ 1024 }
    {
        // The sheet gives its transitions by number. A loop: of rows that a closure writes a proof knows nothing.
        let mut n = 0;
        for t in 0..self.sheet.count(Item::Transition) {
            let transition = self.transition(t);
            if is_meant(transition) {
                n = append(lists.list(usize::from(transition.destination)), rows, n);
            }
        }
        n
    }

    // Forms the list of state s, whose event-free transitions lead to worked states.
    pub(crate) fn state_list<'r, R: Reducer<M>>(
        &self,
        s: usize,
        lists: &Lists<'_, M, 32>,
        room: &'r mut Room<'_, M>,
    ) -> Option<&'r [Entry<M>]>
        requires state { State (says self.now.sheet.now) s }
        requires filled { (d : ℕ) → Leads (says self.now.sheet.now) s d → 1 ≤ slice_index lists.now.lens d }
        ensures { Formed (StateList M.Measure.ops R.gives (list_at lists.now.rows.now lists.now.lens) (state_cost M.Measure.ops M.Measure.meant (says self.now.sheet.now) s) (frees (says self.now.sheet.now) s)) result }
    {
        let cost = self.state_cost(s);
        let n = self.gather(lists, |t| is_free(t, s), room.gathered);
        if n == 0 {
            return Some(room.alone(cost));
        }
        room.joined::<R>(cost, n)
    }

    // Forms the list of event f of a basic block.
    pub(crate) fn event_list<'r, R: Reducer<M>>(
        &self,
        f: usize,
        lists: &Lists<'_, M, 32>,
        room: &'r mut Room<'_, M>,
    ) -> Option<&'r [Entry<M>]>
        requires { (s : ℕ) → State (says self.now.sheet.now) s → 1 ≤ slice_index lists.now.lens s }
        ensures { Formed (EventList M.Measure.ops R.gives (list_at lists.now.rows.now lists.now.lens) (guarded (says self.now.sheet.now) f)) result }
    {
        let n = self.gather(lists, |t| is_guarded(t, f), room.gathered);
        if n == 0 {
            return Some(room.alone(Entry::zero()));
        }
        room.reduced::<R>(n)
    }

    // Writes the entries of event f after one another, in sheet order, and answers how many there are.
    fn serve(&self, f: usize, rows: &mut [Entry<M>]) -> usize
        requires few { served f (says self.now.sheet.now).entries ≤ 16 }
        requires room { 1024 ≤ length rows.old }
        ensures within { result ≤ length rows.new }
        ensures rows { take result rows.new ≡ served_entries M.Measure.meant f (says self.now.sheet.now).entries }
    {
        // A loop, as above.
        let mut n = 0;
        for k in 0..self.sheet.count(Item::Entry) {
            let entry = entry_at(self.sheet, k);
            if entry.event as usize == f {
                rows[n] = served_entry(entry);
                n += 1;
            }
        }
        n
    }

    // Forms the list of event f of a service block.
    pub(crate) fn service_list<'r, R: Reducer<M>>(
        &self,
        f: usize,
        room: &'r mut Room<'_, M>,
    ) -> Option<&'r [Entry<M>]>
        requires service { (says self.now.sheet.now).face.kind ≡ Service }
        requires event { f < (says self.now.sheet.now).face.inputs }
        ensures { Formed (Reduces R.gives (served_entries M.Measure.meant f (says self.now.sheet.now).entries)) result }
    {
        let n = self.serve(f, room.gathered);
        room.reduced::<R>(n)
    }
}

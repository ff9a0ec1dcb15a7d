// Forming the list of a source and of a place: joined and reduced, one target and one count at a time.
// Every function answers none where a reduced list is above 16.
ghost use Rattle.std.specs.Prelude.{◌≡◌, ◌/◌, ◌%◌, ◌≤◌};
ghost use Rattle.std.specs.List.{AllByRecursion};
ghost use Rattle.networks.specs.Cards.{SourceList, Sends, EntryList, PlaceList};
ghost use Rattle.networks.specs.Drafts.{drafted};
ghost use Rattle.networks.specs.Forming.{Forms};
ghost use Rattle.networks.specs.Networks.{Node, targets};
ghost use Rattle.networks.specs.Rows.{net_of, table_at, Filled, Provided};

use crate::beneath::Beneath;
use crate::draft::Pile;
use crate::graph::Places;
use crate::net::is_connected;
use crate::room::Room;
use costs::entry::Entry;
use costs::lists::Lists;
use costs::measure::Measure;
use costs::reducer::Reducer;
use sheets::words::End;

impl<'a, M: Measure, B: Beneath<M>> Places<'a, M, B> {
    // Forms the list of the source s.
    pub(crate) fn source_list<R: Reducer<M>>(
        &self,
        s: End,
        lists: &Lists<'_, M, 128>,
        room: &mut Room<'_, M>,
    ) -> Option<()>
        requires { AllByRecursion (Filled lists.now.lens) (targets self.now.net.connections.now s) }
        ensures came { Forms (SourceList M.Measure.ops R.gives (table_at lists.now.rows.now lists.now.lens) (targets self.now.net.connections.now s)) (drafted room.new.source) result }
        ensures list { drafted room.new.list ≡ drafted room.old.list }
    {
        room.source.begin(Entry::zero());
        for c in self.net.connections {
            if c.source == s {
                room.follow::<R>(c.target, lists)?;
            }
        }
        Some(())
    }

    // Joins the list so far n times with the list of the source s, where it is connected, and reduces each time.
    fn send<R: Reducer<M>>(
        &self,
        s: End,
        n: u8,
        lists: &Lists<'_, M, 128>,
        room: &mut Room<'_, M>,
    ) -> Option<()>
        requires { 1 ≤ n → AllByRecursion (Filled lists.now.lens) (targets self.now.net.connections.now s) }
        ensures { Forms (Sends M.Measure.ops R.gives (table_at lists.now.rows.now lists.now.lens) (targets self.now.net.connections.now s) n (drafted room.old.list)) (drafted room.new.list) result }
    {
        if n == 0 || !is_connected(self.net.connections, s) {
            return Some(());
        }
        self.source_list::<R>(s, lists, room)?;
        room.join_times::<R>(n)
    }

    // Forms the list of one card entry of instance i.
    fn entry_list<R: Reducer<M>>(
        &self,
        i: u8,
        e: Entry<M>,
        lists: &Lists<'_, M, 128>,
        room: &mut Room<'_, M>,
    ) -> Option<()>
        requires { Provided lists.now.lens self.now.net.connections.now i e }
        ensures { Forms (EntryList M.Measure.ops R.gives (table_at lists.now.rows.now lists.now.lens) self.now.net.connections.now i e) (drafted room.new.list) result }
    {
        room.list.begin(Entry::of(e.amount));
        // by number: an output is nothing but its number, and its source is made of it
        for port in 0..8u8 {
            let n = e.counts.count(port as usize);
            self.send::<R>(End::Inside { instance: i, port }, n, lists, room)?;
        }
        Some(())
    }

    // Forms the list of place k, the lists of its card entries being put after one another in the pile.
    pub(crate) fn place_list<R: Reducer<M>>(
        &self,
        k: usize,
        lists: &Lists<'_, M, 128>,
        room: &mut Room<'_, M>,
        pile: &mut Pile<'_, M>,
    ) -> Option<()>
        requires place { Node (net_of self.now.net (B.faces self.now.beneath.now)) k }
        requires sent { AllByRecursion (Provided lists.now.lens self.now.net.connections.now (k / 8)) (B.cards self.now.beneath.now (k / 8) (k % 8)) }
        ensures { Forms (PlaceList M.Measure.ops R.gives (table_at lists.now.rows.now lists.now.lens) self.now.net.connections.now (k / 8) (B.cards self.now.beneath.now (k / 8) (k % 8))) (drafted room.new.list) result }
    {
        pile.clear();
        for e in self.beneath.card(k / 8, k % 8) {
            self.entry_list::<R>((k / 8) as u8, *e, lists, room)?;
            pile.push(room.list.list());
        }
        room.list.reduce::<R>(pile.entries())
    }
}

// The working of a card: the order of the places, their lists, and the lists of the composite's own events.
ghost use Rattle.std.specs.Prelude.{◌≡◌, ◌≤◌, length, take, IfOk, MatchResult};
ghost use Rattle.costs.specs.Entries.{entry_ops};
ghost use Rattle.costs.specs.Lent.{list_at};
ghost use Rattle.networks.specs.Networks.{NoneFull, WorkedIn};
ghost use Rattle.networks.specs.Cards.{Worked};
ghost use Rattle.networks.specs.Refusals.{Unworked, Carded};
ghost use Rattle.networks.specs.Rows.{net_of, table_at, Finished};

use crate::beneath::Beneath;
use crate::draft::{Draft, Pile};
use crate::graph::Places;
use crate::refusal::Refusal;
use crate::room::Room;
use costs::entry::Entry;
use costs::lists::Lists;
use costs::measure::Measure;
use costs::reducer::Reducer;
use order::plan;

impl<'a, M: Measure, B: Beneath<M>> Places<'a, M, B> {
    // The working order of the places, where no card entry counts 255 at a connected output. It answers how many there are.
    fn order<R: Reducer<M>>(&self, order: &mut [usize; 128]) -> Result<usize, Refusal>
        ensures { MatchResult result (λ k. (k ≤ 128) × WorkedIn (net_of self.now.net (B.faces self.now.beneath.now)) (B.cards self.now.beneath.now) (take k order.new) × NoneFull (net_of self.now.net (B.faces self.now.beneath.now)) (B.cards self.now.beneath.now)) (Unworked M.Measure.ops R.Reducer.gives (net_of self.now.net (B.faces self.now.beneath.now)) (B.cards self.now.beneath.now)) }
    {
        let mut marks = [false; 128];
        let n = 8 * self.net.instances;
        let count = plan(self, &mut marks[..n], order).map_err(|place| Refusal::Circle { place })?;
        match self.full_place() {
            Some(place) => Err(Refusal::Full { place }),
            None => Ok(count),
        }
    }

    // Works the lists of all places.
    fn work_table<R: Reducer<M>>(
        &self,
        lists: &mut Lists<'_, M, 128>,
        room: &mut Room<'_, M>,
        pile: &mut Pile<'_, M>,
    ) -> Result<(), Refusal>
        ensures { MatchResult result (λ _. Worked M.Measure.ops R.Reducer.gives (net_of self.now.net (B.faces self.now.beneath.now)) (B.cards self.now.beneath.now) (table_at lists.new.rows.now lists.new.lens) × NoneFull (net_of self.now.net (B.faces self.now.beneath.now)) (B.cards self.now.beneath.now)) (Unworked M.Measure.ops R.Reducer.gives (net_of self.now.net (B.faces self.now.beneath.now)) (B.cards self.now.beneath.now)) }
    {
        let mut order = [0; 128];
        let count = self.order::<R>(&mut order)?;
        self.work_places::<R>(&order[..count], lists, room, pile)
    }

    // Works the card in the first 2,816 rows: 2,048 for 16 of each of 128 places, then three parts of 256, the list so far, the source's list so far and
    // a join of two lists. The lists of one place's entries, and afterwards the card, stand in the 256 rows of `gathered`.
    pub(crate) fn work<R: Reducer<M>>(
        &self,
        rows: &mut [Entry<M>],
        gathered: &mut [Entry<M>],
    ) -> Result<[usize; 8], Refusal>
        requires rows { 2816 ≤ length rows.old }
        requires gathered { 256 ≤ length gathered.old }
        ensures card { MatchResult result (λ ends. Carded M.Measure.ops R.Reducer.gives (net_of self.now.net (B.faces self.now.beneath.now)) (B.cards self.now.beneath.now) (list_at gathered.new ends)) (Unworked M.Measure.ops R.Reducer.gives (net_of self.now.net (B.faces self.now.beneath.now)) (B.cards self.now.beneath.now)) }
        ensures finished { IfOk result (λ ends. Finished (entry_ops M.Measure.ops).zero self.now.net.inputs gathered.new ends × (length ends ≡ 8)) }
    {
        let (table, rest) = rows.split_at_mut(2048);
        let (list, rest) = rest.split_at_mut(256);
        let (source, rest) = rest.split_at_mut(256);
        let (joined, _) = rest.split_at_mut(256);
        let mut lists = Lists::new(table);
        let mut room = Room {
            list: Draft::new(list),
            source: Draft::new(source),
            joined,
        };
        self.work_table::<R>(&mut lists, &mut room, &mut Pile::new(gathered))?;
        self.work_events::<R>(&lists, &mut room, gathered)
    }
}

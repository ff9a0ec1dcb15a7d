// The rows in which the lists of places are formed.
ghost use Rattle.std.specs.Prelude.{◌≡◌, ◌<◌, [], ◌∷◌, length};
ghost use Rattle.sheets.specs.declared.words.End.TheVariants.{Outside};
ghost use Rattle.networks.specs.Cards.{target_list, Joins, Times};
ghost use Rattle.networks.specs.Drafts.{drafted};
ghost use Rattle.networks.specs.Forming.{Forms};
ghost use Rattle.networks.specs.Rows.{table_at, Filled};

use crate::draft::Draft;
use costs::counts::Counts;
use costs::entry::Entry;
use costs::lists::Lists;
use costs::measure::Measure;
use costs::reducer::Reducer;
use sheets::words::End;

// One entry: no amount, and one count at the outside output p.
fn arrival<M: Measure>(p: u8) -> Entry<M>
    requires { p < 8 }
    ensures { result ∷ [] ≡ target_list M.Measure.ops (λ i f. []) (Outside p) }
{
    Entry {
        amount: M::zero(),
        counts: Counts::one(p as usize),
    }
}

// The list so far, the list of a source so far, and the rows for a join of two lists.
#[derive(Drop)]
pub(crate) struct Room<'a, M> {
    pub(crate) list: Draft<'a, M>,
    pub(crate) source: Draft<'a, M>,
    pub(crate) joined: &'a mut [Entry<M>],
    ghost joins: { length joined.now ≡ 256 },
}

impl<'a, M: Measure> Room<'a, M> {
    // Joins the list so far n times with the source's list, and reduces each time.
    pub(crate) fn join_times<R: Reducer<M>>(&mut self, n: u8) -> Option<()>
        ensures { Forms (Times M.Measure.ops R.gives n (drafted self.old.source) (drafted self.old.list)) (drafted self.new.list) result }
    {
        let source = &self.source;
        self.list.join_times::<R>(n, source.list(), self.joined)
    }

    // Joins the source's list so far with one count at the outside output p, which is put in the last row for a join, and reduces that.
    fn follow_outside<R: Reducer<M>>(&mut self, p: u8) -> Option<()>
        requires output { p < 8 }
        ensures came { Forms (Joins M.Measure.ops R.gives (drafted self.old.source) (target_list M.Measure.ops (λ i f. []) (Outside p))) (drafted self.new.source) result }
        ensures list { drafted self.new.list ≡ drafted self.old.list }
    {
        let (front, one) = self.joined.split_at_mut(255);
        one[0] = arrival::<M>(p);
        self.source.join::<R>(one, front)
    }

    // Joins the source's list so far with the target's list, and reduces that.
    pub(crate) fn follow<R: Reducer<M>>(
        &mut self,
        target: End,
        lists: &Lists<'_, M, 128>,
    ) -> Option<()>
        requires { Filled lists.now.lens target }
        ensures came { Forms (Joins M.Measure.ops R.gives (drafted self.old.source) (target_list M.Measure.ops (table_at lists.now.rows.now lists.now.lens) target)) (drafted self.new.source) result }
        ensures list { drafted self.new.list ≡ drafted self.old.list }
    {
        match target {
            End::Outside { port } => self.follow_outside::<R>(port),
            End::Inside { instance, port } => {
                let list = lists.list(8 * instance as usize + port as usize);
                self.source.join::<R>(list, self.joined)
            }
        }
    }
}

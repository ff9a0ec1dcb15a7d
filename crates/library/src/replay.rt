// A list of calls, made from the beginning of a library on.
ghost use Rattle.std.specs.Prelude.{◌≡◌, min, length, take, drop};
ghost use Rattle.library.specs.Books.{Book, rules};
ghost use Rattle.library.specs.Calls.{asks, replies, cursor};
ghost use Rattle.library.specs.Law.{Sound};
ghost use Rattle.library.specs.Lent.{SameTables};
ghost use Rattle.library.specs.Memory.{Stands};
ghost use Rattle.library.specs.Steps.{History};
ghost use Rattle.library.specs.Tables.{sizes_of};
ghost use Rattle.library.specs.Theorems.{Fixed};

use crate::Library;
use crate::calls::{Answer, Call};
use costs::entry::Entry;
use costs::measure::Measure;
use costs::reducer::Reducer;

impl<'a, M: Measure> Library<'a, M> {
    // Begins the library and makes as many calls as there is room for answers, which is answered. Each preview takes the next 128 and each card the next 16 rows of `out`.
    pub fn replay<R: Reducer<M>>(
        &mut self,
        rows: &mut [Entry<M>],
        out: &mut [Entry<M>],
        calls: &[Call<'_>],
        answers: &mut [Answer],
    ) -> usize
        ensures tables { SameTables self.old self.new }
        ensures count { result ≡ min (length calls.now) (length answers.old) }
        ensures law { (b : Book M) × (History (rules M.Measure.ops M.Measure.wide M.Measure.meant R.Reducer.gives) (sizes_of self.old.shelf.now self.old.index.now self.old.cards.now) (asks (length rows.old) (length out.old) (take result calls.now)) (replies (take result calls.now) (take result answers.new) out.new) b × (Stands (rules M.Measure.ops M.Measure.wide M.Measure.meant R.Reducer.gives) b self.new.shelf.now self.new.index.now self.new.cards.now × Sound (rules M.Measure.ops M.Measure.wide M.Measure.meant R.Reducer.gives) b self.new.index.now self.new.cards.now)) }
        ensures fixed { (b : Book M) → Stands (rules M.Measure.ops M.Measure.wide M.Measure.meant R.Reducer.gives) b self.new.shelf.now self.new.index.now self.new.cards.now → Fixed (rules M.Measure.ops M.Measure.wide M.Measure.meant R.Reducer.gives) b }
        ensures answers { drop result answers.new ≡ drop result answers.old }
        ensures out { drop (cursor (length out.old) (take result calls.now)) out.new ≡ drop (cursor (length out.old) (take result calls.now)) out.old }
    {
        self.begin::<R>();
        let count = calls.len().min(answers.len());
        let mut at: usize = 0;
        for (i, call) in calls[..count].iter().enumerate() {
            let left = out.len() - at;
            answers[i] = self.apply::<R>(rows, &mut out[at..], call);
            at += call.taken(left);
        }
        count
    }
}

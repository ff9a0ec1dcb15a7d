// Another amount for an algorithm of a kept sheet.
ghost use Rattle.std.specs.Prelude.{◌≡◌, true, false, List, is_ok, MatchOption};
ghost use Rattle.costs.specs.declared.entry.Entry.{Entry};
ghost use Rattle.library.specs.Books.{Book, rules};
ghost use Rattle.library.specs.Checks.{Lent};
ghost use Rattle.library.specs.Kept.{KeptAmount, NoAmount};
ghost use Rattle.library.specs.Law.{GoesOn};
ghost use Rattle.library.specs.Lent.{SameTables};
ghost use Rattle.library.specs.Memory.{Stands};
ghost use Rattle.library.specs.Replies.{verdict, reply};
ghost use Rattle.library.specs.Steps.{Retiming, retime as ask_retime, done};
ghost use Rattle.library.specs.Tables.{Remarked, Replaced};

use crate::refusal::Refusal;
use crate::row::Row;
use crate::tables::overwrite;
use crate::{Kept, Library};
use costs::measure::Measure;
use costs::reducer::Reducer;

impl<'a, M: Measure> Kept<'a, M> {
    // Where the amount of algorithm k stands in a row's kept sheet, in bytes from the sheet's first; none if there is no such amount.
    fn amount_place(&self, row: Row, k: usize) -> Option<usize>
        ensures { MatchOption result (NoAmount M.wide self.now.shelf.now row k) (KeptAmount M.wide self.now.shelf.now row k) }
    {
        let sheet = self.sheet(row)?;
        if k >= sheet.amounts() {
            return None;
        }
        sheet.amount_place(k)
    }
}

impl<'a, M: Measure> Library<'a, M> {
    // Replaces the amount of a block's algorithm, and marks the block's row and the row of every block above it out of date, even if the amount is equal.
    pub fn retime<R: Reducer<M>>(
        &mut self,
        block: usize,
        algorithm: usize,
        amount: &[u8],
    ) -> Result<(), Refusal>
        ensures tables { SameTables self.old self.new }
        ensures same { is_ok result ≡ false → (self.new.shelf.now ≡ self.old.shelf.now) × (self.new.index.now ≡ self.old.index.now) }
        ensures cards { self.new.cards.now ≡ self.old.cards.now }
        ensures answer { (b : Book M) (cards : List (Entry M)) → Stands (rules M.Measure.ops M.Measure.wide M.Measure.meant R.Reducer.gives) b self.old.shelf.now self.old.index.now cards → Retiming (rules M.Measure.ops M.Measure.wide M.Measure.meant R.Reducer.gives) b block algorithm amount.now (verdict (λ _. tt) result) }
        ensures shelf { (b : Book M) (cards : List (Entry M)) → Stands (rules M.Measure.ops M.Measure.wide M.Measure.meant R.Reducer.gives) b self.old.shelf.now self.old.index.now cards → is_ok result ≡ true → Replaced M.Measure.wide b block algorithm amount.now self.old.shelf.now self.new.shelf.now }
        ensures index { (b : Book M) (cards : List (Entry M)) → Stands (rules M.Measure.ops M.Measure.wide M.Measure.meant R.Reducer.gives) b self.old.shelf.now self.old.index.now cards → is_ok result ≡ true → Remarked b block self.old.index.now self.new.index.now }
        ensures book { (cards : List (Entry M)) (lent : Lent) → GoesOn (rules M.Measure.ops M.Measure.wide M.Measure.meant R.Reducer.gives) (ask_retime block algorithm amount.now) lent (reply (λ _. done) result) self.old.shelf.now self.old.index.now cards self.new.shelf.now self.new.index.now cards }
    {
        let given = amount.len();
        if given != M::width() {
            return Err(Refusal::Width { given });
        }
        let kept = self.kept();
        let n = kept.count();
        if block >= n {
            return Err(Refusal::NoBlock { place: block });
        }
        let row = kept.row(block);
        let Some(place) = kept.amount_place(row, algorithm) else {
            return Err(Refusal::NoNumber { number: algorithm });
        };
        self.mark(block, n);
        overwrite(self.shelf, row.start + place, amount);
        Ok(())
    }
}

// The same over shelf and index alone: the cards are neither read nor written, so they may be lent elsewhere meanwhile.
pub fn retime<M: Measure, R: Reducer<M>>(
    shelf: &mut [u8],
    index: &mut [Row],
    block: usize,
    algorithm: usize,
    amount: &[u8],
) -> Result<(), Refusal>
    ensures same { is_ok result ≡ false → (shelf.new ≡ shelf.old) × (index.new ≡ index.old) }
    ensures answer { (b : Book M) (cards : List (Entry M)) → Stands (rules M.Measure.ops M.Measure.wide M.Measure.meant R.Reducer.gives) b shelf.old index.old cards → Retiming (rules M.Measure.ops M.Measure.wide M.Measure.meant R.Reducer.gives) b block algorithm amount.now (verdict (λ _. tt) result) }
    ensures shelf { (b : Book M) (cards : List (Entry M)) → Stands (rules M.Measure.ops M.Measure.wide M.Measure.meant R.Reducer.gives) b shelf.old index.old cards → is_ok result ≡ true → Replaced M.Measure.wide b block algorithm amount.now shelf.old shelf.new }
    ensures index { (b : Book M) (cards : List (Entry M)) → Stands (rules M.Measure.ops M.Measure.wide M.Measure.meant R.Reducer.gives) b shelf.old index.old cards → is_ok result ≡ true → Remarked b block index.old index.new }
    ensures book { (cards : List (Entry M)) (lent : Lent) → GoesOn (rules M.Measure.ops M.Measure.wide M.Measure.meant R.Reducer.gives) (ask_retime block algorithm amount.now) lent (reply (λ _. done) result) shelf.old index.old cards shelf.new index.new cards }
{
    let mut library = Library {
        shelf,
        index,
        cards: &mut [],
    };
    library.retime::<R>(block, algorithm, amount)
}

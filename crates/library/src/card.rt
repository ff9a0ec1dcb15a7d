// Looking at a card.
ghost use Rattle.std.specs.Prelude.{◌≡◌, ℕ, true, false, List, length, take, is_ok, Ok};
ghost use Rattle.costs.specs.Entries.{entry_ops};
ghost use Rattle.library.specs.Books.{Book, rules, at};
ghost use Rattle.library.specs.Law.{GoesOn};
ghost use Rattle.library.specs.Memory.{Stands};
ghost use Rattle.library.specs.Replies.{verdict, reply};
ghost use Rattle.library.specs.Steps.{Showing, card as ask_card, shown};
ghost use Rattle.library.specs.Tables.{overwritten, padded};

use crate::Kept;
use crate::refusal::{Refusal, Table};
use crate::row::Row;
use crate::tables::{overwrite, part};
use costs::entry::Entry;
use costs::measure::Measure;
use costs::reducer::Reducer;

impl<'a, M: Measure> Kept<'a, M> {
    // Copies the 16 rows of an event of a current card to the caller's first 16, and answers how many entries its list has.
    pub fn card<R: Reducer<M>>(
        &self,
        block: usize,
        event: usize,
        out: &mut [Entry<M>],
    ) -> Result<usize, Refusal>
        ensures same { is_ok result ≡ false → out.new ≡ out.old }
        ensures answer { (b : Book M) (shelf : List ℕ) (rows : ℕ) → Stands (rules M.Measure.ops M.Measure.wide M.Measure.meant R.Reducer.gives) b shelf self.now.index.now self.now.cards.now → Showing (rules M.Measure.ops M.Measure.wide M.Measure.meant R.Reducer.gives) b (record { rows = rows; out = length out.old }) block event (verdict (λ l. take l out.new) result) }
        ensures len { (b : Book M) (shelf : List ℕ) → Stands (rules M.Measure.ops M.Measure.wide M.Measure.meant R.Reducer.gives) b shelf self.now.index.now self.now.cards.now → is_ok result ≡ true → result ≡ Ok (length ((at b block).card event)) }
        ensures rows { (b : Book M) (shelf : List ℕ) → Stands (rules M.Measure.ops M.Measure.wide M.Measure.meant R.Reducer.gives) b shelf self.now.index.now self.now.cards.now → is_ok result ≡ true → out.new ≡ overwritten out.old 0 (padded (entry_ops M.Measure.ops).zero ((at b block).card event)) }
        ensures book { (shelf : List ℕ) (rows : ℕ) → GoesOn (rules M.Measure.ops M.Measure.wide M.Measure.meant R.Reducer.gives) (ask_card block event) (record { rows = rows; out = length out.old }) (reply (λ l. shown (take l out.new)) result) shelf self.now.index.now self.now.cards.now shelf self.now.index.now self.now.cards.now }
    {
        if block >= self.count() {
            return Err(Refusal::NoBlock { place: block });
        }
        let row = self.row(block);
        if row.old {
            return Err(Refusal::OutOfDate { place: block });
        }
        if event >= row.inputs as usize {
            return Err(Refusal::NoNumber { number: event });
        }
        if out.len() < 16 {
            return Err(Refusal::NoRoom { table: Table::Out });
        }
        overwrite(out, 0, part(self.cards, 128 * block + 16 * event, 16));
        Ok(row.lens.get(event).copied().unwrap_or(0))
    }
}

// The same over index and cards alone: the shelf is not read, so it may be lent elsewhere meanwhile.
pub fn card<M: Measure, R: Reducer<M>>(
    index: &[Row],
    cards: &[Entry<M>],
    block: usize,
    event: usize,
    out: &mut [Entry<M>],
) -> Result<usize, Refusal>
    ensures same { is_ok result ≡ false → out.new ≡ out.old }
    ensures answer { (b : Book M) (shelf : List ℕ) (rows : ℕ) → Stands (rules M.Measure.ops M.Measure.wide M.Measure.meant R.Reducer.gives) b shelf index.now cards.now → Showing (rules M.Measure.ops M.Measure.wide M.Measure.meant R.Reducer.gives) b (record { rows = rows; out = length out.old }) block event (verdict (λ l. take l out.new) result) }
    ensures len { (b : Book M) (shelf : List ℕ) → Stands (rules M.Measure.ops M.Measure.wide M.Measure.meant R.Reducer.gives) b shelf index.now cards.now → is_ok result ≡ true → result ≡ Ok (length ((at b block).card event)) }
    ensures rows { (b : Book M) (shelf : List ℕ) → Stands (rules M.Measure.ops M.Measure.wide M.Measure.meant R.Reducer.gives) b shelf index.now cards.now → is_ok result ≡ true → out.new ≡ overwritten out.old 0 (padded (entry_ops M.Measure.ops).zero ((at b block).card event)) }
    ensures book { (shelf : List ℕ) (rows : ℕ) → GoesOn (rules M.Measure.ops M.Measure.wide M.Measure.meant R.Reducer.gives) (ask_card block event) (record { rows = rows; out = length out.old }) (reply (λ l. shown (take l out.new)) result) shelf index.now cards.now shelf index.now cards.now }
{
    let kept = Kept {
        shelf: &[],
        index,
        cards,
    };
    kept.card::<R>(block, event, out)
}

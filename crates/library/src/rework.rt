// Working an out-of-date card again, from its kept sheet.
ghost use Rattle.std.specs.Prelude.{◌≡◌, ℕ, ◌+◌, ◌*◌, ◌<◌, ◌≤◌, true, false, length, take, is_ok, Ok, Err, MatchOption, MatchResult, slice_set};
ghost use Rattle.costs.specs.Entries.{entry_ops};
ghost use Rattle.charts.specs.Naming.{says};
ghost use Rattle.library.specs.Books.{Book, rules, with_work, Stale};
ghost use Rattle.library.specs.Checks.{turned};
ghost use Rattle.library.specs.Law.{GoesOn};
ghost use Rattle.library.specs.Lent.{SameTables};
ghost use Rattle.library.specs.Memory.{Stands};
ghost use Rattle.library.specs.Placing.{lent_of, Again, renewed_row, Regular, Reworks, Settled, Reworked};
ghost use Rattle.library.specs.Refusals.{told};
ghost use Rattle.library.specs.Replies.{verdict, reply};
ghost use Rattle.library.specs.Steps.{Renewing, rework as ask_rework, done};
ghost use Rattle.library.specs.Tables.{row_at, row_of, card_rows, overwritten, blocks_kept, kept_list};

use crate::refusal::{Refusal, Table};
use crate::row::Row;
use crate::tables::overwrite;
use crate::{Kept, Library};
use costs::entry::Entry;
use costs::measure::Measure;
use costs::reducer::Reducer;
use sheets::opened::Checked;

impl<'a, M: Measure> Kept<'a, M> {
    // Checks 4 and 7 of the block's kept sheet, and its names. That its card has no rows, or its numbers name nothing, is so only in tables that `new` did not begin.
    fn check_again<R: Reducer<M>>(
        &self,
        sheet: &Checked<'_>,
        rows: usize,
        block: usize,
    ) -> Result<(), Refusal>
        requires { block < 64 }
        ensures { MatchResult result (λ _. Again (says sheet.now) self.now.index.now self.now.cards.now rows block) (λ e. (k : ℕ) → Regular (rules M.Measure.ops M.Measure.wide M.Measure.meant R.Reducer.gives) (says sheet.now) k self.now.index.now self.now.cards.now (lent_of rows 0) block → Renewing (rules M.Measure.ops M.Measure.wide M.Measure.meant R.Reducer.gives) (blocks_kept k self.now.index.now self.now.cards.now) (says sheet.now) (lent_of rows 0) (turned (told e))) }
    {
        if let Some(place) = self.outdated(sheet) {
            return Err(Refusal::OutOfDate { place });
        }
        if rows < 3072 {
            return Err(Refusal::NoRoom { table: Table::Rows });
        }
        if self.cards.len() < 128 * block + 128 {
            return Err(Refusal::NoRoom {
                table: Table::Cards,
            });
        }
        self.check_names(sheet)
    }

    // Works the card of an out-of-date block again and answers the lengths of its lists; none if the card is current.
    // The card then stands in the rows from row 2,816 on.
    fn again<R: Reducer<M>>(
        &self,
        rows: &mut [Entry<M>],
        block: usize,
    ) -> Result<Option<[usize; 8]>, Refusal>
        ensures { MatchResult result (λ worked. MatchOption worked (Settled (rules M.Measure.ops M.Measure.wide M.Measure.meant R.Reducer.gives) (lent_of (length rows.old) 0) block self.now.shelf.now self.now.index.now self.now.cards.now (Ok tt) self.now.index.now self.now.cards.now) (λ lens. Reworked (rules M.Measure.ops M.Measure.wide M.Measure.meant R.Reducer.gives) (lent_of (length rows.old) 0) block self.now.shelf.now self.now.index.now self.now.cards.now rows.new lens)) (λ e. Settled (rules M.Measure.ops M.Measure.wide M.Measure.meant R.Reducer.gives) (lent_of (length rows.old) 0) block self.now.shelf.now self.now.index.now self.now.cards.now (Err e) self.now.index.now self.now.cards.now) }
    {
        if block >= self.count() {
            return Err(Refusal::NoBlock { place: block });
        }
        let row = self.row(block);
        if !row.old {
            return Ok(None);
        }
        let Some(sheet) = self.sheet(row) else {
            return Err(Refusal::NoBlock { place: block });
        };
        self.check_again::<R>(&sheet, rows.len(), block)?;
        let (space, card) = rows.split_at_mut(2816);
        let lens = self.work::<R>(&sheet, space, card)?;
        Ok(Some(lens))
    }
}

// Writes a card that was worked again as that of the block, with the lengths of its lists, and makes it current.
fn redo<M: Measure>(
    index: &mut [Row],
    cards: &mut [Entry<M>],
    block: usize,
    lens: [usize; 8],
    card: &[Entry<M>],
)
    requires room { (block < length index.old) × (128 * block + 128 ≤ length cards.old) }
    requires card { 128 ≤ length card.now }
    ensures index { index.new ≡ slice_set index.old block (renewed_row (row_at index.old block) lens) }
    ensures cards { cards.new ≡ overwritten cards.old (128 * block) (take 128 card.now) }
{
    let mut row = index[block];
    row.lens = lens;
    row.old = false;
    index[block] = row;
    let (front, _) = card.split_at(128);
    overwrite(cards, 128 * block, front);
}

// Works an out-of-date card from its block's kept sheet and makes it current; a current card is accepted as it is.
// It reads the shelf only. It works in 3,072 rows lent, which afterwards hold anything; on a refusal the tables stay.
pub fn rework<M: Measure, R: Reducer<M>>(
    shelf: &[u8],
    index: &mut [Row],
    cards: &mut [Entry<M>],
    rows: &mut [Entry<M>],
    block: usize,
) -> Result<(), Refusal>
    ensures same { is_ok result ≡ false → (index.new ≡ index.old) × (cards.new ≡ cards.old) }
    ensures answer { (b : Book M) → Stands (rules M.Measure.ops M.Measure.wide M.Measure.meant R.Reducer.gives) b shelf.now index.old cards.old → Reworks (rules M.Measure.ops M.Measure.wide M.Measure.meant R.Reducer.gives) b (lent_of (length rows.old) 0) block (verdict (λ _. kept_list index.new cards.new block) result) }
    ensures index { (b : Book M) → Stands (rules M.Measure.ops M.Measure.wide M.Measure.meant R.Reducer.gives) b shelf.now index.old cards.old → is_ok result ≡ true → ((Stale b block → ⊥) → index.new ≡ index.old) × (Stale b block → index.new ≡ slice_set index.old block (row_of (with_work b block (kept_list index.new cards.new block)) block false)) }
    ensures cards { (b : Book M) → Stands (rules M.Measure.ops M.Measure.wide M.Measure.meant R.Reducer.gives) b shelf.now index.old cards.old → is_ok result ≡ true → ((Stale b block → ⊥) → cards.new ≡ cards.old) × (Stale b block → cards.new ≡ overwritten cards.old (128 * block) (card_rows (entry_ops M.Measure.ops).zero (kept_list index.new cards.new block))) }
    ensures book { GoesOn (rules M.Measure.ops M.Measure.wide M.Measure.meant R.Reducer.gives) (ask_rework block) (lent_of (length rows.old) 0) (reply (λ _. done) result) shelf.now index.old cards.old shelf.now index.new cards.new }
{
    let kept = Kept {
        shelf,
        index,
        cards,
    };
    let Some(lens) = kept.again::<R>(rows, block)? else {
        return Ok(());
    };
    let (_, card) = rows.split_at(2816);
    redo(index, cards, block, lens, card);
    Ok(())
}

impl<'a, M: Measure> Library<'a, M> {
    // Works an out-of-date card from its block's kept sheet and makes it current; a current card is accepted as it is.
    // It works in 3,072 rows lent, which afterwards hold anything; on a refusal the tables stay.
    pub fn rework<R: Reducer<M>>(
        &mut self,
        rows: &mut [Entry<M>],
        block: usize,
    ) -> Result<(), Refusal>
        ensures tables { SameTables self.old self.new }
        ensures shelf { self.new.shelf.now ≡ self.old.shelf.now }
        ensures same { is_ok result ≡ false → (self.new.index.now ≡ self.old.index.now) × (self.new.cards.now ≡ self.old.cards.now) }
        ensures answer { (b : Book M) → Stands (rules M.Measure.ops M.Measure.wide M.Measure.meant R.Reducer.gives) b self.old.shelf.now self.old.index.now self.old.cards.now → Reworks (rules M.Measure.ops M.Measure.wide M.Measure.meant R.Reducer.gives) b (lent_of (length rows.old) 0) block (verdict (λ _. kept_list self.new.index.now self.new.cards.now block) result) }
        ensures index { (b : Book M) → Stands (rules M.Measure.ops M.Measure.wide M.Measure.meant R.Reducer.gives) b self.old.shelf.now self.old.index.now self.old.cards.now → is_ok result ≡ true → ((Stale b block → ⊥) → self.new.index.now ≡ self.old.index.now) × (Stale b block → self.new.index.now ≡ slice_set self.old.index.now block (row_of (with_work b block (kept_list self.new.index.now self.new.cards.now block)) block false)) }
        ensures cards { (b : Book M) → Stands (rules M.Measure.ops M.Measure.wide M.Measure.meant R.Reducer.gives) b self.old.shelf.now self.old.index.now self.old.cards.now → is_ok result ≡ true → ((Stale b block → ⊥) → self.new.cards.now ≡ self.old.cards.now) × (Stale b block → self.new.cards.now ≡ overwritten self.old.cards.now (128 * block) (card_rows (entry_ops M.Measure.ops).zero (kept_list self.new.index.now self.new.cards.now block))) }
        ensures book { GoesOn (rules M.Measure.ops M.Measure.wide M.Measure.meant R.Reducer.gives) (ask_rework block) (lent_of (length rows.old) 0) (reply (λ _. done) result) self.old.shelf.now self.old.index.now self.old.cards.now self.new.shelf.now self.new.index.now self.new.cards.now }
    {
        // lent on by a name, as the borrow checker covers no shared loan of a field beside the others
        let shelf: &mut [u8] = self.shelf;
        rework::<M, R>(shelf, self.index, self.cards, rows, block)
    }
}

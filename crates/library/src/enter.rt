// Entering a block: its sheet is checked, its card worked, and both are kept.
ghost use Rattle.std.specs.Prelude.{◌≡◌, ℕ, ◌+◌, ◌*◌, ◌^◌, ◌<◌, ◌≤◌, true, false, length, take, is_ok, MatchOption, MatchResult, slice_set};
ghost use Rattle.costs.specs.Entries.{entry_ops};
ghost use Rattle.charts.specs.Naming.{says};
ghost use Rattle.networks.specs.Networks.{network_of, Fit};
ghost use Rattle.sheets.specs.Sheets.{sheet_of};
ghost use Rattle.library.specs.Books.{Book, rules, size, used, with_block};
ghost use Rattle.library.specs.Checks.{First, Never, NamedBy, StopsBy};
ghost use Rattle.library.specs.Law.{GoesOn};
ghost use Rattle.library.specs.Lent.{SameTables};
ghost use Rattle.library.specs.Marks.{kept_end};
ghost use Rattle.library.specs.Memory.{Stands};
ghost use Rattle.library.specs.Placing.{lent_of, faces_kept, cards_kept, Kept as BlockKept, Turned, Entered};
ghost use Rattle.library.specs.Refusals.{told, table_number};
ghost use Rattle.library.specs.Replies.{verdict, reply};
ghost use Rattle.library.specs.Steps.{EnterLacks, Entering, enter as ask_enter, entered};
ghost use Rattle.library.specs.Tables.{row_of, card_rows, overwritten, blocks_kept, kept_list, sizes_of};

use crate::readers::width;
use crate::refusal::{Refusal, Table};
use crate::row::Row;
use crate::tables::overwrite;
use crate::{Kept, Library};
use costs::entry::Entry;
use costs::measure::Measure;
use costs::reducer::Reducer;
use sheets::opened::Checked;

impl<'a, M: Measure> Kept<'a, M> {
    // Where the sheets of the first n rows end; none if that is no number of 64 bits.
    fn end(&self, n: usize) -> Option<usize>
        ensures { MatchOption result (2 ^ 64 ≤ kept_end self.now.index.now n) (λ e. e ≡ kept_end self.now.index.now n) }
    {
        if n == 0 {
            return Some(0);
        }
        let row = self.row(n - 1);
        row.start.checked_add(row.len)
    }

    // Check 7: where the sheet of one block more goes, after n blocks, or the first table that is too short.
    fn room(&self, rows: usize, n: usize, len: usize) -> Result<usize, Table>
        ensures { MatchResult result (λ at. (at ≡ kept_end self.now.index.now n) × Never (EnterLacks (sizes_of self.now.shelf.now self.now.index.now self.now.cards.now) (lent_of rows 0) (kept_end self.now.index.now n) n len)) (λ t. First (EnterLacks (sizes_of self.now.shelf.now self.now.index.now self.now.cards.now) (lent_of rows 0) (kept_end self.now.index.now n) n len) (table_number t)) }
    {
        let Some(at) = self.end(n) else {
            return Err(Table::Shelf);
        };
        if at > self.shelf.len() {
            return Err(Table::Shelf);
        }
        if len > self.shelf.len() - at {
            return Err(Table::Shelf);
        }
        if n >= self.index.len() {
            return Err(Table::Index);
        }
        if n >= 64 {
            return Err(Table::Index);
        }
        if self.cards.len() < 128 * n + 128 {
            return Err(Table::Cards);
        }
        if rows < 3072 {
            return Err(Table::Rows);
        }
        Ok(at)
    }
}

impl<'a, M: Measure> Library<'a, M> {
    // Writes a block: its sheet's bytes, its row and its card.
    fn store(&mut self, n: usize, row: Row, bytes: &[u8], card: &[Entry<M>])
        requires shelf { row.start + length bytes.now ≤ length self.old.shelf.now }
        requires index { n < length self.old.index.now }
        requires cards { 128 * n + 128 ≤ length self.old.cards.now }
        requires card { 256 ≤ length card.now }
        ensures tables { SameTables self.old self.new }
        ensures shelf { self.new.shelf.now ≡ overwritten self.old.shelf.now row.start bytes.now }
        ensures index { self.new.index.now ≡ slice_set self.old.index.now n row }
        ensures cards { self.new.cards.now ≡ overwritten self.old.cards.now (128 * n) (take 128 card.now) }
    {
        overwrite(self.shelf, row.start, bytes);
        self.index[n] = row;
        let (front, _) = card.split_at(128);
        overwrite(self.cards, 128 * n, front);
    }

    // Works the card of a sheet that is placed, and keeps it as block n, its bytes from `at` on.
    fn enter_at<R: Reducer<M>>(
        &mut self,
        rows: &mut [Entry<M>],
        bytes: &[u8],
        sheet: &Checked<'_>,
        n: usize,
        at: usize,
    ) -> Result<(), Refusal>
        requires bytes { sheet.now.bytes.now ≡ bytes.now }
        requires width { sheet.now.width.bytes ≡ M.Measure.wide }
        requires named { NamedBy (faces_kept self.old.index.now (says sheet.now).instances) (says sheet.now) (says sheet.now).face.kind }
        requires rows { 3072 ≤ length rows.old }
        requires room { (at + length bytes.now ≤ length self.old.shelf.now) × (n < length self.old.index.now) × (128 * n + 128 ≤ length self.old.cards.now) }
        ensures tables { SameTables self.old self.new }
        ensures same { is_ok result ≡ false → (self.new.shelf.now ≡ self.old.shelf.now) × (self.new.index.now ≡ self.old.index.now) × (self.new.cards.now ≡ self.old.cards.now) }
        ensures kept { MatchResult result (λ _. BlockKept (rules M.Measure.ops M.Measure.wide M.Measure.meant R.Reducer.gives) (blocks_kept n self.old.index.now self.old.cards.now) bytes.now n at self.old.shelf.now self.old.index.now self.old.cards.now self.new.shelf.now self.new.index.now self.new.cards.now) (λ e. Fit (network_of (says sheet.now) (faces_kept self.old.index.now (says sheet.now).instances)) (cards_kept self.old.index.now self.old.cards.now (says sheet.now).instances) → StopsBy (rules M.Measure.ops M.Measure.wide M.Measure.meant R.Reducer.gives) (faces_kept self.old.index.now (says sheet.now).instances) (cards_kept self.old.index.now self.old.cards.now (says sheet.now).instances) (says sheet.now) (says sheet.now).face.kind (told e)) }
    {
        let (space, card) = rows.split_at_mut(2816);
        let lens = self.kept().work::<R>(sheet, space, card)?;
        let face = sheet.interface();
        let row = Row {
            used: true,
            start: at,
            len: bytes.len(),
            inputs: face.inputs,
            outputs: face.outputs,
            lens,
            old: false,
        };
        self.store(n, row, bytes, card);
        Ok(())
    }

    // Enters a checked sheet with these bytes: checks 3 to 10, then it is kept.
    fn enter_checked<R: Reducer<M>>(
        &mut self,
        rows: &mut [Entry<M>],
        bytes: &[u8],
        sheet: &Checked<'_>,
    ) -> Result<usize, Refusal>
        requires bytes { sheet.now.bytes.now ≡ bytes.now }
        requires width { sheet.now.width.bytes ≡ M.Measure.wide }
        ensures tables { SameTables self.old self.new }
        ensures same { is_ok result ≡ false → (self.new.shelf.now ≡ self.old.shelf.now) × (self.new.index.now ≡ self.old.index.now) × (self.new.cards.now ≡ self.old.cards.now) }
        ensures found { MatchResult result (Entered (rules M.Measure.ops M.Measure.wide M.Measure.meant R.Reducer.gives) bytes.now self.old.shelf.now self.old.index.now self.old.cards.now (lent_of (length rows.old) 0) self.new.shelf.now self.new.index.now self.new.cards.now) (λ e. Turned (rules M.Measure.ops M.Measure.wide M.Measure.meant R.Reducer.gives) bytes.now self.old.shelf.now self.old.index.now self.old.cards.now (lent_of (length rows.old) 0) (told e)) }
    {
        let kept = self.kept();
        let n = kept.count();
        kept.check_place(sheet, n)?;
        let at = kept.room(rows.len(), n, bytes.len())?;
        self.enter_at::<R>(rows, bytes, sheet, n, at)?;
        Ok(n)
    }

    // Adds a block: checks its sheet's bytes, works its card, keeps the bytes after the last sheet's, and answers the block's number.
    // It works in 3,072 rows lent, which afterwards hold anything; on a refusal the tables stay.
    pub fn enter<R: Reducer<M>>(
        &mut self,
        rows: &mut [Entry<M>],
        sheet: &[u8],
    ) -> Result<usize, Refusal>
        ensures tables { SameTables self.old self.new }
        ensures same { is_ok result ≡ false → (self.new.shelf.now ≡ self.old.shelf.now) × (self.new.index.now ≡ self.old.index.now) × (self.new.cards.now ≡ self.old.cards.now) }
        ensures answer { (b : Book M) → Stands (rules M.Measure.ops M.Measure.wide M.Measure.meant R.Reducer.gives) b self.old.shelf.now self.old.index.now self.old.cards.now → Entering (rules M.Measure.ops M.Measure.wide M.Measure.meant R.Reducer.gives) b (sizes_of self.old.shelf.now self.old.index.now self.old.cards.now) (lent_of (length rows.old) 0) sheet.now (verdict (kept_list self.new.index.now self.new.cards.now) result) }
        ensures shelf { (b : Book M) → Stands (rules M.Measure.ops M.Measure.wide M.Measure.meant R.Reducer.gives) b self.old.shelf.now self.old.index.now self.old.cards.now → is_ok result ≡ true → self.new.shelf.now ≡ overwritten self.old.shelf.now (used b) sheet.now }
        ensures index { (b : Book M) → Stands (rules M.Measure.ops M.Measure.wide M.Measure.meant R.Reducer.gives) b self.old.shelf.now self.old.index.now self.old.cards.now → is_ok result ≡ true → self.new.index.now ≡ slice_set self.old.index.now (size b) (row_of (with_block b (sheet_of M.Measure.wide sheet.now) (length sheet.now) (kept_list self.new.index.now self.new.cards.now (size b))) (size b) false) }
        ensures cards { (b : Book M) → Stands (rules M.Measure.ops M.Measure.wide M.Measure.meant R.Reducer.gives) b self.old.shelf.now self.old.index.now self.old.cards.now → is_ok result ≡ true → self.new.cards.now ≡ overwritten self.old.cards.now (128 * size b) (card_rows (entry_ops M.Measure.ops).zero (kept_list self.new.index.now self.new.cards.now (size b))) }
        ensures book { GoesOn (rules M.Measure.ops M.Measure.wide M.Measure.meant R.Reducer.gives) (ask_enter sheet.now) (lent_of (length rows.old) 0) (reply (λ n. entered n) result) self.old.shelf.now self.old.index.now self.old.cards.now self.new.shelf.now self.new.index.now self.new.cards.now }
    {
        let checked = Checked::read(sheet, width::<M>())?;
        self.enter_checked::<R>(rows, sheet, &checked)
    }
}

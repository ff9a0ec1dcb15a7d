// Previewing a checked sheet: its card, with nothing kept.
ghost use Rattle.std.specs.Prelude.{◌≡◌, ◌≤◌, false, length, is_ok, MatchResult};
ghost use Rattle.costs.specs.Entries.{entry_ops};
ghost use Rattle.charts.specs.Naming.{says};
ghost use Rattle.networks.specs.Networks.{Fit};
ghost use Rattle.networks.specs.Rows.{list_at};
ghost use Rattle.library.specs.Books.{Book, rules};
ghost use Rattle.library.specs.Checks.{turned, Then, Never, FirstAt, NamedBy, network, cards_beneath, Working};
ghost use Rattle.library.specs.Law.{GoesOn};
ghost use Rattle.library.specs.Memory.{Stands};
ghost use Rattle.library.specs.Placing.{lent_of, faces_kept, Previewed};
ghost use Rattle.library.specs.Refusals.{told};
ghost use Rattle.library.specs.Replies.{verdict, reply};
ghost use Rattle.library.specs.Steps.{PreviewLacks, Previewing, preview as ask_preview, previewed};
ghost use Rattle.library.specs.Tables.{lens_of, card_rows, overwritten, blocks_kept};

use crate::Kept;
use crate::refusal::{Refusal, Table};
use crate::tables::overwrite;
use costs::entry::Entry;
use costs::measure::Measure;
use costs::reducer::Reducer;
use sheets::opened::Checked;

impl<'a, M: Measure> Kept<'a, M> {
    // Check 7 of a placed sheet, and the working; the card is written into the first 128 rows of `out`.
    fn preview_placed<R: Reducer<M>>(
        &self,
        rows: &mut [Entry<M>],
        sheet: &Checked<'_>,
        out: &mut [Entry<M>],
    ) -> Result<[usize; 8], Refusal>
        requires width { sheet.now.width.bytes ≡ M.Measure.wide }
        requires named { NamedBy (faces_kept self.now.index.now (says sheet.now).instances) (says sheet.now) (says sheet.now).face.kind }
        ensures same { is_ok result ≡ false → out.new ≡ out.old }
        ensures found { MatchResult result (Previewed (rules M.Measure.ops M.Measure.wide M.Measure.meant R.Reducer.gives) (blocks_kept 0 self.now.index.now self.now.cards.now) (says sheet.now) (lent_of (length rows.old) (length out.old)) out.old out.new) (λ e. Fit (network (blocks_kept 0 self.now.index.now self.now.cards.now) (says sheet.now)) (cards_beneath (blocks_kept 0 self.now.index.now self.now.cards.now) (says sheet.now)) → Then (FirstAt 7 (PreviewLacks (lent_of (length rows.old) (length out.old)))) (Never (PreviewLacks (lent_of (length rows.old) (length out.old)))) (Working (rules M.Measure.ops M.Measure.wide M.Measure.meant R.Reducer.gives) (blocks_kept 0 self.now.index.now self.now.cards.now) (says sheet.now)) (turned (told e))) }
    {
        if rows.len() < 3072 {
            return Err(Refusal::NoRoom { table: Table::Rows });
        }
        if out.len() < 128 {
            return Err(Refusal::NoRoom { table: Table::Out });
        }
        let (space, card) = rows.split_at_mut(2816);
        let lens = self.work::<R>(sheet, space, card)?;
        let (front, _) = card.split_at(128);
        overwrite(out, 0, front);
        Ok(lens)
    }

    // The card that entering the sheet would keep, in the caller's first 128 rows, and the lengths of its eight lists; the library and the other rows stay.
    // It works in 3,072 rows lent, which afterwards hold anything; on a refusal the caller's rows stay.
    pub fn preview<R: Reducer<M>>(
        &self,
        rows: &mut [Entry<M>],
        sheet: &Checked<'_>,
        out: &mut [Entry<M>],
    ) -> Result<[usize; 8], Refusal>
        ensures same { is_ok result ≡ false → out.new ≡ out.old }
        ensures answer { (b : Book M) → Stands (rules M.Measure.ops M.Measure.wide M.Measure.meant R.Reducer.gives) b self.now.shelf.now self.now.index.now self.now.cards.now → Previewing (rules M.Measure.ops M.Measure.wide M.Measure.meant R.Reducer.gives) b (lent_of (length rows.old) (length out.old)) sheet.now.width.bytes sheet.now.bytes.now (verdict (list_at out.new) result) }
        ensures rows { MatchResult result (λ lens. (out.new ≡ overwritten out.old 0 (card_rows (entry_ops M.Measure.ops).zero (list_at out.new lens))) × (lens ≡ lens_of (list_at out.new lens))) (λ _. out.new ≡ out.old) }
        ensures book { GoesOn (rules M.Measure.ops M.Measure.wide M.Measure.meant R.Reducer.gives) (ask_preview sheet.now.width.bytes sheet.now.bytes.now) (lent_of (length rows.old) (length out.old)) (reply (λ lens. previewed (list_at out.new lens)) result) self.now.shelf.now self.now.index.now self.now.cards.now self.now.shelf.now self.now.index.now self.now.cards.now }
    {
        let given = sheet.width().bytes;
        if given != M::width() {
            return Err(Refusal::Width { given });
        }
        self.check_place(sheet, self.count())?;
        self.preview_placed::<R>(rows, sheet, out)
    }
}

// One call of a list, made on the tables.
ghost use Rattle.std.specs.Prelude.{◌≡◌, false, length, take, drop, is_ok};
ghost use Rattle.networks.specs.Rows.{list_at};
ghost use Rattle.library.specs.Books.{Book, rules};
ghost use Rattle.library.specs.Calls.{asked, lent_to, taken as taken_of, replied};
ghost use Rattle.library.specs.Law.{GoesOn};
ghost use Rattle.library.specs.Lent.{SameTables};
ghost use Rattle.library.specs.Memory.{Stands};
ghost use Rattle.library.specs.Replies.{reply};
ghost use Rattle.library.specs.Steps.{preview as ask_preview, previewed as previewed_card};
ghost use Rattle.library.specs.declared.calls.Accepted.TheVariants.{Entered, Previewed, Done, Shown};

use crate::calls::{Accepted, Answer, Call};
use crate::refusal::Refusal;
use crate::{Kept, Library};
use costs::entry::Entry;
use costs::measure::Measure;
use costs::reducer::Reducer;
use sheets::opened::Checked;
use sheets::width::Width;

impl<'a, M: Measure> Kept<'a, M> {
    // Opens a sheet's bytes, checks them at the width and previews the sheet; what stops it first is answered.
    fn open_preview<R: Reducer<M>>(
        &self,
        rows: &mut [Entry<M>],
        sheet: &[u8],
        width: Width,
        out: &mut [Entry<M>],
    ) -> Result<[usize; 8], Refusal>
        ensures same { is_ok result ≡ false → out.new ≡ out.old }
        ensures book { GoesOn (rules M.Measure.ops M.Measure.wide M.Measure.meant R.Reducer.gives) (ask_preview width.bytes sheet.now) (record { rows = length rows.old; out = length out.old }) (reply (λ lens. previewed_card (list_at out.new lens)) result) self.now.shelf.now self.now.index.now self.now.cards.now self.now.shelf.now self.now.index.now self.now.cards.now }
    {
        let checked = Checked::read(sheet, width)?;
        self.preview::<R>(rows, &checked, out)
    }
}

impl<'a, M: Measure> Library<'a, M> {
    // Makes one call, which is lent what it says of the working rows and of the caller's rows that are left, as far as there are so many, and of these no more than its lists take.
    pub(crate) fn apply<R: Reducer<M>>(
        &mut self,
        rows: &mut [Entry<M>],
        left: &mut [Entry<M>],
        call: &Call<'_>,
    ) -> Answer
        ensures tables { SameTables self.old self.new }
        ensures rest { (b : Book M) → Stands (rules M.Measure.ops M.Measure.wide M.Measure.meant R.Reducer.gives) b self.old.shelf.now self.old.index.now self.old.cards.now → drop (taken_of (length left.old) call.now) left.new ≡ drop (taken_of (length left.old) call.now) left.old }
        ensures book { GoesOn (rules M.Measure.ops M.Measure.wide M.Measure.meant R.Reducer.gives) (asked call.now) (lent_to (length rows.old) (length left.old) call.now) (replied result (take (taken_of (length left.old) call.now) left.new)) self.old.shelf.now self.old.index.now self.old.cards.now self.new.shelf.now self.new.index.now self.new.cards.now }
    {
        match call {
            Call::Enter { sheet, rows: lent } => {
                let n = (*lent).min(rows.len());
                self.enter::<R>(&mut rows[..n], sheet)
                    .map(|block| Accepted::Entered { block })
            }
            Call::Preview {
                sheet,
                width,
                rows: lent,
                out,
            } => {
                let n = (*lent).min(rows.len());
                let m = (*out).min(left.len()).min(128);
                self.kept()
                    .open_preview::<R>(&mut rows[..n], sheet, *width, &mut left[..m])
                    .map(
                        |lens|
                            ensures { result ≡ Previewed lens }
                        { Accepted::Previewed { lens } },
                    )
            }
            Call::Retime {
                block,
                algorithm,
                amount,
            } => self
                .retime::<R>(*block, *algorithm, amount)
                .map(|()| Accepted::Done),
            Call::Rework { block, rows: lent } => {
                let n = (*lent).min(rows.len());
                self.rework::<R>(&mut rows[..n], *block)
                    .map(|()| Accepted::Done)
            }
            Call::Card { block, event, out } => {
                let m = (*out).min(left.len()).min(16);
                self.kept()
                    .card::<R>(*block, *event, &mut left[..m])
                    .map(|len| Accepted::Shown { len })
            }
        }
    }
}

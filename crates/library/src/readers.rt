// Readers of a library's tables that answer on any memory: how many blocks there are, a row, a kept sheet and what it names.
ghost use Rattle.std.specs.Prelude.{◌≡◌, false, ◌&&◌, is_ok, Decides, MatchOption};
ghost use Rattle.sheets.specs.Refusals.{framing_of, check_of};
ghost use Rattle.sheets.specs.Sheets.{sheet_of};
ghost use Rattle.library.specs.Marks.{Counted, kept_bytes, kept_names, leans, NamesMarked};
ghost use Rattle.library.specs.Tables.{row_at};

use crate::row::Row;
use crate::tables::part;
use crate::{Kept, Library};
use costs::measure::Measure;
use sheets::opened::Checked;
use sheets::width::Width;
use sheets::words::Item;

// The width of the measure's amounts.
pub(crate) fn width<M: Measure>() -> Width
    ensures { result.bytes ≡ M.wide }
{
    Width::new(M::width()).unwrap()
}

impl<'a, M: Measure> Library<'a, M> {
    // The tables, to read.
    pub fn kept(&self) -> Kept<'_, M>
        ensures shelf { result.shelf.now ≡ self.now.shelf.now }
        ensures index { result.index.now ≡ self.now.index.now }
        ensures cards { result.cards.now ≡ self.now.cards.now }
    {
        Kept {
            shelf: self.shelf,
            index: self.index,
            cards: self.cards,
        }
    }
}

impl<'a, M: Measure> Kept<'a, M> {
    // How many blocks there are: the number of the first unused row, of 64 at most.
    pub(crate) fn count(&self) -> usize
        ensures { Counted self.now.index.now result }
    {
        self.index
            .iter()
            .take(64)
            .take_while(|row| row.used)
            .count()
    }

    // Row n; past the index one that no block has.
    pub(crate) fn row(&self, n: usize) -> Row
        ensures { result ≡ row_at self.now.index.now n }
    {
        self.index.get(n).copied().unwrap_or(Row::unused())
    }

    // The sheet that a row stands for, as far as the shelf goes; none if these bytes make no sheet.
    pub(crate) fn sheet(&self, row: Row) -> Option<Checked<'a>>
        ensures { MatchOption result ((is_ok (framing_of (kept_bytes self.now.shelf.now row)) && is_ok (check_of M.wide (kept_bytes self.now.shelf.now row))) ≡ false) (λ s. (s.bytes.now ≡ kept_bytes self.now.shelf.now row) × (s.width.bytes ≡ M.wide)) }
    {
        Checked::read(part(self.shelf, row.start, row.len), width::<M>()).ok()
    }

    // Whether instance i of a sheet names a block below n whose row is marked.
    fn is_marked(&self, n: usize, sheet: &Checked<'_>, i: usize) -> bool
        ensures { Decides result (NamesMarked self.now.index.now n (sheet_of sheet.now.width.bytes sheet.now.bytes.now).instances i) }
    {
        let Some(block) = sheet.instance(i) else {
            return false;
        };
        (block as usize) < n && self.row(block as usize).old
    }

    // Whether a sheet names a block below n whose row is marked.
    pub(crate) fn names_marked(&self, n: usize, sheet: &Checked<'_>) -> bool
        ensures { result ≡ leans self.now.index.now n (sheet_of sheet.now.width.bytes sheet.now.bytes.now).instances }
    {
        (0..sheet.count(Item::Instance)).any(
            |i: usize| -> bool
                ensures { Decides result (NamesMarked self.entry.now.index.now n (sheet_of sheet.entry.now.width.bytes sheet.entry.now.bytes.now).instances i) }
            { self.is_marked(n, sheet, i) },
        )
    }

    // Whether the kept sheet of row k names a block below n whose row is marked.
    pub(crate) fn leans_on(&self, k: usize, n: usize) -> bool
        ensures { result ≡ leans self.now.index.now n (kept_names M.wide self.now.shelf.now (row_at self.now.index.now k)) }
    {
        let Some(sheet) = self.sheet(self.row(k)) else {
            return false;
        };
        self.names_marked(n, &sheet)
    }
}

// Checks 3 and 4: the first instance whose block is not there, and the first whose block's card is out of date.
ghost use Rattle.std.specs.Prelude.{◌≡◌, length, take, Decides, MatchOption};
ghost use Rattle.charts.specs.Naming.{says};
ghost use Rattle.library.specs.Checks.{First, Never};
ghost use Rattle.library.specs.Placing.{Beyond, Old};

use crate::Kept;
use costs::measure::Measure;
use sheets::opened::Checked;
use sheets::words::Item;
use std::array;

// Whether there is an instance k, and it names no block below n.
fn is_beyond(sheet: &Checked<'_>, k: usize, n: usize) -> bool
    ensures { Decides result (Beyond n (says sheet.now) k) }
{
    sheet.instance(k).is_some_and(|block| n <= block as usize)
}

// The first instance that names no block below n.
pub(crate) fn missing(sheet: &Checked<'_>, n: usize) -> Option<usize>
    ensures { MatchOption result (Never (Beyond n (says sheet.now))) (First (Beyond n (says sheet.now))) }
{
    (0..sheet.count(Item::Instance)).find(|k| is_beyond(sheet, *k, n))
}

// The numbers of the instances' blocks: as many as there are instances, and 255, which is no block, past them. The sheet is not asked for these: it is
// walked whole where it has none.
pub(crate) fn read_names(sheet: &Checked<'_>) -> [u8; 16]
    ensures { take (length (says sheet.now).instances) result ≡ (says sheet.now).instances }
{
    let n = sheet.count(Item::Instance);
    array::from_fn(|k| if k < n {
        sheet.instance(k).unwrap_or(255)
    } else {
        255
    })
}

impl<'a, M: Measure> Kept<'a, M> {
    // Whether there is an instance k, and it names a block whose row is marked.
    fn is_behind(&self, sheet: &Checked<'_>, k: usize) -> bool
        ensures { Decides result (Old self.now.index.now (says sheet.now) k) }
    {
        let Some(block) = sheet.instance(k) else {
            return false;
        };
        self.row(block as usize).old
    }

    // The first instance that names a block whose row is marked.
    pub(crate) fn outdated(&self, sheet: &Checked<'_>) -> Option<usize>
        ensures { MatchOption result (Never (Old self.now.index.now (says sheet.now))) (First (Old self.now.index.now (says sheet.now))) }
    {
        (0..sheet.count(Item::Instance)).find(
            |k: &usize| -> bool
                ensures { Decides result (Old self.entry.now.index.now (says sheet.entry.now) k.now) }
            { self.is_behind(sheet, *k) },
        )
    }
}

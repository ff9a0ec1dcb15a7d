// The card of a composite block, worked in the rows lent.
ghost use Rattle.std.specs.Prelude.{◌≡◌, ◌≤◌, length, IfOk, MatchResult};
ghost use Rattle.costs.specs.Entries.{entry_ops};
ghost use Rattle.costs.specs.Lists.{Selects};
ghost use Rattle.networks.specs.Networks.{says, network_of, Named, Fit};
ghost use Rattle.networks.specs.Rows.{list_at, CardRows};
ghost use Rattle.networks.specs.Refusals.{Unworked, Carded};
ghost use Rattle.networks.specs.Promises.{Covers, Attains, Evaluated};

use crate::beneath::Beneath;
use crate::parted::card_in;
use crate::refusal::Refusal;
use costs::entry::Entry;
use costs::lists::copy_rows;
use costs::measure::Measure;
use costs::reducer::Reducer;
use sheets::opened::Checked;

// Works the card of a composite block whose names were checked, in 3,072 rows lent, and writes it into the first 128 rows of out: the list of event e
// into rows 16 e and on, the zero entry past it. It answers the lengths of the eight lists. Check 8: leading forms a circle. Check 9: a count of 255 at a
// connected output. Check 10: a reduced list above 16. On a refusal out is as it was. What the working rows hold afterwards is free.
// It asks what `names` has accepted, what the blocks beneath keep (at most eight inputs, lists of 1 to 16 entries), and the rows.
pub fn card<M: Measure, R: Reducer<M>, B: Beneath<M>>(
    sheet: &Checked<'_>,
    beneath: &B,
    rows: &mut [Entry<M>],
    out: &mut [Entry<M>],
) -> Result<[usize; 8], Refusal>
    requires named { Named (network_of (says sheet.now) (B.faces beneath.now)) }
    requires fit { Fit (network_of (says sheet.now) (B.faces beneath.now)) (B.cards beneath.now) }
    requires rows { 3072 ≤ length rows.old }
    requires out { 128 ≤ length out.old }
    ensures answer { MatchResult result (λ lens. Carded M.Measure.ops R.Reducer.gives (network_of (says sheet.now) (B.faces beneath.now)) (B.cards beneath.now) (list_at out.new lens)) (Unworked M.Measure.ops R.Reducer.gives (network_of (says sheet.now) (B.faces beneath.now)) (B.cards beneath.now)) }
    ensures rows { MatchResult result (λ lens. CardRows (entry_ops M.Measure.ops).zero (says sheet.now).face.inputs out.old out.new lens) (λ _. out.new ≡ out.old) }
    ensures covers { IfOk result (λ lens. Covers M.Measure.ops (network_of (says sheet.now) (B.faces beneath.now)) (B.cards beneath.now) (B.Beneath.runs beneath.now) (list_at out.new lens)) }
    ensures attained { IfOk result (λ lens. Selects R.Reducer.gives → Attains M.Measure.ops (network_of (says sheet.now) (B.faces beneath.now)) (B.cards beneath.now) (B.Beneath.runs beneath.now) (list_at out.new lens)) }
    ensures evaluated { Evaluated M.Measure.ops R.Reducer.gives (network_of (says sheet.now) (B.faces beneath.now)) (B.cards beneath.now) (list_at out.new) result }
{
    let (rows, gathered) = rows.split_at_mut(2816);
    let lens = card_in::<M, R, B>(sheet, beneath, rows, gathered)?;
    copy_rows(gathered, 128, out);
    Ok(lens)
}

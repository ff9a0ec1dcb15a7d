// The card of a basic or a service block, worked in the rows lent.
ghost use Rattle.std.specs.Prelude.{◌≡◌, ◌*◌, ◌<◌, ◌≤◌, length, drop, IfOk, MatchResult, ◌≢◌};
ghost use Rattle.costs.specs.Entries.{entry_ops};
ghost use Rattle.costs.specs.Lists.{Selects};
ghost use Rattle.costs.specs.declared.entry.Entry.{Entry};
ghost use Rattle.sheets.specs.declared.words.Kind.TheVariants.{Basic, Composite};
ghost use Rattle.charts.specs.Forming.{made};
ghost use Rattle.charts.specs.Charts.{Named};
ghost use Rattle.charts.specs.Naming.{says};
ghost use Rattle.charts.specs.Refusals.{CardBy, RefusedBy, lists_at};
ghost use Rattle.charts.specs.Rows.{Carded, PaddedCard, Lengths};
ghost use Rattle.charts.specs.Theorems.{Whole, Covers, Attains, Exact, ExactRefusal};

use crate::graph::Chart;
use crate::refusal::Refusal;
use crate::room::Room;
use costs::entry::Entry;
use costs::lists::{Lists, copy_rows};
use costs::measure::Measure;
use costs::reducer::Reducer;
use sheets::opened::Checked;
use sheets::words::Kind;
use std::marker::PhantomData;

impl<'a, M: Measure> Chart<'a, M> {
    // Works the card of a basic block: its states in working order, with their lists in the rows, then its events.
    fn work_basic<R: Reducer<M>>(
        &self,
        rows: &mut [Entry<M>],
        room: &mut Room<'_, M>,
        card: &mut [Entry<M>],
    ) -> Result<[usize; 8], Refusal>
        requires kind { (says self.now.sheet.now).face.kind ≡ Basic }
        requires rows { 512 ≤ length rows.old }
        requires card { 128 ≤ length card.old }
        ensures { MatchResult result (Carded M.Measure.ops M.Measure.meant R.gives (says self.now.sheet.now) Basic card.new) (RefusedBy M.Measure.ops M.Measure.meant R.gives (says self.now.sheet.now) Basic) }
    {
        let mut marks = [false; 32];
        let mut order = [0; 32];
        let count = self.plan(&mut marks, &mut order)?;
        let mut lists = Lists::new(rows);
        self.work_states::<R>(&order[..count], &mut lists, room)?;
        self.work_events::<R>(&lists, room, card)
    }

    // Works the card of a block, by its kind.
    fn work_card<R: Reducer<M>>(
        &self,
        rows: &mut [Entry<M>],
        card: &mut [Entry<M>],
    ) -> Result<[usize; 8], Refusal>
        requires rows { 2561 ≤ length rows.old }
        requires card { 128 ≤ length card.old }
        ensures { MatchResult result (Carded M.Measure.ops M.Measure.meant R.gives (says self.now.sheet.now) (says self.now.sheet.now).face.kind card.new) (RefusedBy M.Measure.ops M.Measure.meant R.gives (says self.now.sheet.now) (says self.now.sheet.now).face.kind) }
    {
        let (lists, rest) = rows.split_at_mut(512);
        let mut room = Room::new(rest);
        match self.sheet.interface().kind {
            Kind::Basic => self.work_basic::<R>(lists, &mut room, card),
            _ => self.work_events::<R>(&Lists::new(lists), &mut room, card),
        }
    }
}

// Works the card of a basic or a service block, whose numbers all name something and whose amounts are as wide as the measure's, in 2,816 rows lent.
// It writes the card into the first 128 rows of `out`, the list of event e into rows 16 e and on, with the zero entry past a list, and answers the eight lengths.
// What the rows lent hold afterwards is free; on a refusal `out` stays.
pub fn card<M: Measure, R: Reducer<M>>(
    sheet: &Checked<'_>,
    rows: &mut [Entry<M>],
    out: &mut [Entry<M>],
) -> Result<[usize; 8], Refusal>
    requires width { sheet.now.width.bytes ≡ M.Measure.wide }
    requires named { Named (says sheet.now) }
    requires block { (says sheet.now).face.kind ≢ Composite }
    requires rows { 2816 ≤ length rows.old }
    requires out { 128 ≤ length out.old }
    ensures answer { MatchResult result (λ lens. CardBy M.Measure.ops M.Measure.meant R.gives (says sheet.now) (says sheet.now).face.kind (made (lists_at out.new lens (says sheet.now).face.inputs 0))) (RefusedBy M.Measure.ops M.Measure.meant R.gives (says sheet.now) (says sheet.now).face.kind) }
    ensures rows { MatchResult result (λ lens. PaddedCard (entry_ops M.Measure.ops).zero out.new lens × (drop 128 out.new ≡ drop 128 out.old)) (λ _. out.new ≡ out.old) }
    ensures lengths { IfOk result (Lengths (says sheet.now).face.inputs) }
    ensures whole { IfOk result (λ lens. Whole M.Measure.ops M.Measure.meant (says sheet.now) (lists_at out.new lens (says sheet.now).face.inputs 0)) }
    ensures covers { IfOk result (λ lens. Covers M.Measure.ops M.Measure.meant (says sheet.now) (lists_at out.new lens (says sheet.now).face.inputs 0)) }
    ensures attained { IfOk result (λ lens. Selects R.Reducer.gives → Attains M.Measure.ops M.Measure.meant (says sheet.now) (lists_at out.new lens (says sheet.now).face.inputs 0)) }
    ensures exact { MatchResult result (λ lens. Exact M.Measure.ops M.Measure.meant R.Reducer.gives (says sheet.now) (made (lists_at out.new lens (says sheet.now).face.inputs 0))) (ExactRefusal M.Measure.ops M.Measure.meant R.Reducer.gives (says sheet.now)) }
{
    let chart = Chart {
        sheet: &*sheet,
        measure: PhantomData,
    };
    let (card, rest) = rows.split_at_mut(128);
    let ends = chart.work_card::<R>(rest, card)?;
    copy_rows(card, 128, out);
    Ok(ends)
}

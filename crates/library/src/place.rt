// Checks 3 to 6 of a sheet against the tables, and the working of its card, by the kind of block.
ghost use Rattle.std.specs.Prelude.{◌≡◌, ℕ, ◌<◌, ◌≤◌, List, length, IfOk, Decides, MatchResult, ◌≢◌};
ghost use Rattle.costs.specs.Entries.{entry_ops};
ghost use Rattle.costs.specs.Lists.{Sized};
ghost use Rattle.costs.specs.declared.entry.Entry.{Entry};
ghost use Rattle.charts.specs.Charts.{Named as NamedChart};
ghost use Rattle.charts.specs.Naming.{says};
ghost use Rattle.networks.specs.Networks.{network_of, Fit, Named as NamedNetwork};
ghost use Rattle.networks.specs.Refusals.{Distinct};
ghost use Rattle.networks.specs.Rows.{list_at};
ghost use Rattle.networks.specs.declared.beneath.Face.{Face};
ghost use Rattle.sheets.specs.declared.words.Kind.TheVariants.{Composite};
ghost use Rattle.library.specs.Books.{rules};
ghost use Rattle.library.specs.Checks.{UnnamedChart, Miswired, MisnamedBy, NamedBy, StopsBy, CardOver};
ghost use Rattle.library.specs.Placing.{faces_kept, cards_kept, Placeable, Unplaced, CardIn};
ghost use Rattle.library.specs.Refusals.{told};
ghost use Rattle.library.specs.Tables.{blocks_kept};

use crate::Kept;
use crate::beneath::Below;
use crate::instances::{missing, read_names};
use crate::refusal::Refusal;
use costs::entry::Entry;
use costs::measure::Measure;
use costs::reducer::Reducer;
use networks::beneath::Beneath;
use sheets::opened::Checked;
use sheets::words::{Item, Kind};

// Check 5 of a basic or a service sheet.
fn check_chart(sheet: &Checked<'_>) -> Result<(), Refusal>
    ensures { MatchResult result (λ _. NamedChart (says sheet.now)) (λ e. UnnamedChart sheet.now.width.bytes sheet.now.bytes.now (told e)) }
{
    charts::names::names(sheet)?;
    Ok(())
}

// Whether the list of that event of instance i has 1 to 16 entries.
fn is_list<M: Measure, B: Beneath<M>>(beneath: &B, i: usize, f: usize) -> bool
    ensures { Decides result (Sized (B.cards beneath.now i f)) }
{
    let len = beneath.card(i, f).len();
    1 <= len && len <= 16
}

// Whether the block of instance i keeps the limits of every block: at most eight inputs, and 1 to 16 entries for each event.
fn is_block<M: Measure, B: Beneath<M>>(beneath: &B, i: usize) -> bool
    ensures { Decides result (((B.faces beneath.now i).inputs ≤ 8) × ((f : ℕ) → f < (B.faces beneath.now i).inputs → Sized (B.cards beneath.now i f))) }
{
    let inputs = beneath.face(i).inputs;
    inputs <= 8 && (0..inputs).all(|f| is_list(beneath, i, f))
}

// Whether all blocks beneath do. Only tables that `new` did not begin can have another.
fn is_fit<M: Measure, B: Beneath<M>>(sheet: &Checked<'_>, beneath: &B) -> bool
    ensures { Decides result (Fit (network_of (says sheet.now) (B.faces beneath.now)) (B.cards beneath.now)) }
{
    (0..sheet.count(Item::Instance)).all(|i| is_block(beneath, i))
}

// Works the card of a basic or a service block. That the sheet has the measure's width, and how many rows are lent, stands in the contracts
// and in no type: charts and networks take the checked sheet and the caller's rows themselves.
fn work_chart<M: Measure, R: Reducer<M>>(
    sheet: &Checked<'_>,
    rows: &mut [Entry<M>],
    card: &mut [Entry<M>],
) -> Result<[usize; 8], Refusal>
    requires width { sheet.now.width.bytes ≡ M.Measure.wide }
    requires named { NamedChart (says sheet.now) }
    requires block { (says sheet.now).face.kind ≢ Composite }
    requires rows { 2816 ≤ length rows.old }
    requires card { 256 ≤ length card.old }
    ensures answer { (f : ℕ → Face) (c : ℕ → ℕ → List (Entry M)) → MatchResult result (λ lens. CardOver (rules M.Measure.ops M.Measure.wide M.Measure.meant R.Reducer.gives) f c (says sheet.now) (list_at card.new lens)) (λ e. StopsBy (rules M.Measure.ops M.Measure.wide M.Measure.meant R.Reducer.gives) f c (says sheet.now) (says sheet.now).face.kind (told e)) }
    ensures rows { IfOk result (λ lens. CardIn (entry_ops M.Measure.ops).zero (says sheet.now).face.inputs card.new lens) }
{
    let lens = charts::card::card::<M, R>(sheet, rows, card)?;
    Ok(lens)
}

impl<'a, M: Measure> Kept<'a, M> {
    // Checks 5 and 6 of a composite sheet, over the interfaces that the index holds.
    fn check_wires(&self, sheet: &Checked<'_>) -> Result<(), Refusal>
        ensures { MatchResult result (λ _. NamedNetwork (network_of (says sheet.now) (faces_kept self.now.index.now (says sheet.now).instances)) × Distinct (says sheet.now).connections) (λ e. Miswired (network_of (says sheet.now) (faces_kept self.now.index.now (says sheet.now).instances)) sheet.now.bytes.now (told e)) }
    {
        let names = read_names(sheet);
        let below = Below {
            kept: *self,
            names: &names[..sheet.count(Item::Instance)],
        };
        networks::naming::names(sheet, &below)?;
        Ok(())
    }

    // Checks 5 and 6, by the kind of block.
    pub(crate) fn check_names(&self, sheet: &Checked<'_>) -> Result<(), Refusal>
        ensures { MatchResult result (λ _. NamedBy (faces_kept self.now.index.now (says sheet.now).instances) (says sheet.now) (says sheet.now).face.kind) (λ e. MisnamedBy (faces_kept self.now.index.now (says sheet.now).instances) sheet.now.width.bytes sheet.now.bytes.now (says sheet.now).face.kind (told e)) }
    {
        match sheet.interface().kind {
            Kind::Composite => self.check_wires(sheet),
            _ => check_chart(sheet),
        }
    }

    // Checks 3 to 6 of a sheet, where there are n blocks.
    pub(crate) fn check_place(&self, sheet: &Checked<'_>, n: usize) -> Result<(), Refusal>
        ensures { MatchResult result (λ _. Placeable (blocks_kept n self.now.index.now self.now.cards.now) (says sheet.now)) (λ e. Unplaced (blocks_kept n self.now.index.now self.now.cards.now) sheet.now.width.bytes sheet.now.bytes.now (told e)) }
    {
        if let Some(place) = missing(sheet, n) {
            return Err(Refusal::NoBlock { place });
        }
        if let Some(place) = self.outdated(sheet) {
            return Err(Refusal::OutOfDate { place });
        }
        self.check_names(sheet)
    }

    // Works the card of a composite block over the cards of the tables.
    fn work_wires<R: Reducer<M>>(
        &self,
        sheet: &Checked<'_>,
        rows: &mut [Entry<M>],
        card: &mut [Entry<M>],
    ) -> Result<[usize; 8], Refusal>
        requires named { NamedNetwork (network_of (says sheet.now) (faces_kept self.now.index.now (says sheet.now).instances)) }
        requires block { (says sheet.now).face.kind ≡ Composite }
        requires rows { 2816 ≤ length rows.old }
        requires card { 256 ≤ length card.old }
        ensures answer { Fit (network_of (says sheet.now) (faces_kept self.now.index.now (says sheet.now).instances)) (cards_kept self.now.index.now self.now.cards.now (says sheet.now).instances) → MatchResult result (λ lens. CardOver (rules M.Measure.ops M.Measure.wide M.Measure.meant R.Reducer.gives) (faces_kept self.now.index.now (says sheet.now).instances) (cards_kept self.now.index.now self.now.cards.now (says sheet.now).instances) (says sheet.now) (list_at card.new lens)) (λ e. StopsBy (rules M.Measure.ops M.Measure.wide M.Measure.meant R.Reducer.gives) (faces_kept self.now.index.now (says sheet.now).instances) (cards_kept self.now.index.now self.now.cards.now (says sheet.now).instances) (says sheet.now) (says sheet.now).face.kind (told e)) }
        ensures rows { IfOk result (λ lens. CardIn (entry_ops M.Measure.ops).zero (says sheet.now).face.inputs card.new lens) }
    {
        let names = read_names(sheet);
        let below = Below {
            kept: *self,
            names: &names[..sheet.count(Item::Instance)],
        };
        if !is_fit(sheet, &below) {
            return Err(Refusal::NoBlock { place: 0 });
        }
        let lens = networks::parted::card_in::<M, R, Below<'_, '_, M>>(sheet, &below, rows, card)?;
        Ok(lens)
    }

    // Works the card of a block whose names were checked, in 2,816 rows and in the 256 of `card`, whose first 128 then hold it, and answers the eight lengths.
    pub(crate) fn work<R: Reducer<M>>(
        &self,
        sheet: &Checked<'_>,
        rows: &mut [Entry<M>],
        card: &mut [Entry<M>],
    ) -> Result<[usize; 8], Refusal>
        requires width { sheet.now.width.bytes ≡ M.Measure.wide }
        requires named { NamedBy (faces_kept self.now.index.now (says sheet.now).instances) (says sheet.now) (says sheet.now).face.kind }
        requires rows { 2816 ≤ length rows.old }
        requires card { 256 ≤ length card.old }
        ensures answer { Fit (network_of (says sheet.now) (faces_kept self.now.index.now (says sheet.now).instances)) (cards_kept self.now.index.now self.now.cards.now (says sheet.now).instances) → MatchResult result (λ lens. CardOver (rules M.Measure.ops M.Measure.wide M.Measure.meant R.Reducer.gives) (faces_kept self.now.index.now (says sheet.now).instances) (cards_kept self.now.index.now self.now.cards.now (says sheet.now).instances) (says sheet.now) (list_at card.new lens)) (λ e. StopsBy (rules M.Measure.ops M.Measure.wide M.Measure.meant R.Reducer.gives) (faces_kept self.now.index.now (says sheet.now).instances) (cards_kept self.now.index.now self.now.cards.now (says sheet.now).instances) (says sheet.now) (says sheet.now).face.kind (told e)) }
        ensures rows { IfOk result (λ lens. CardIn (entry_ops M.Measure.ops).zero (says sheet.now).face.inputs card.new lens) }
    {
        match sheet.interface().kind {
            Kind::Composite => self.work_wires::<R>(sheet, rows, card),
            _ => work_chart::<M, R>(sheet, rows, card),
        }
    }
}

// The card of a composite block, worked in rows that the caller has parted.
ghost use Rattle.std.specs.Prelude.{◌≡◌, ◌≤◌, length, IfOk, MatchResult};
ghost use Rattle.costs.specs.Entries.{entry_ops};
ghost use Rattle.networks.specs.Networks.{says, network_of, Named, Fit};
ghost use Rattle.networks.specs.Rows.{list_at, Finished};
ghost use Rattle.networks.specs.Refusals.{Unworked, Carded};

use crate::beneath::Beneath;
use crate::graph::Places;
use crate::net::{Net, read_connections};
use crate::refusal::Refusal;
use costs::entry::Entry;
use costs::measure::Measure;
use costs::reducer::Reducer;
use sheets::opened::Checked;
use sheets::words::Item;

// The same as `card`, where the working rows are parted by the caller: 2,816 rows, and 256 in whose first 128 the card stands afterwards.
// On a refusal these hold anything too.
pub fn card_in<M: Measure, R: Reducer<M>, B: Beneath<M>>(
    sheet: &Checked<'_>,
    beneath: &B,
    rows: &mut [Entry<M>],
    gathered: &mut [Entry<M>],
) -> Result<[usize; 8], Refusal>
    requires named { Named (network_of (says sheet.now) (B.faces beneath.now)) }
    requires fit { Fit (network_of (says sheet.now) (B.faces beneath.now)) (B.cards beneath.now) }
    requires rows { 2816 ≤ length rows.old }
    requires gathered { 256 ≤ length gathered.old }
    ensures answer { MatchResult result (λ lens. Carded M.Measure.ops R.Reducer.gives (network_of (says sheet.now) (B.faces beneath.now)) (B.cards beneath.now) (list_at gathered.new lens)) (Unworked M.Measure.ops R.Reducer.gives (network_of (says sheet.now) (B.faces beneath.now)) (B.cards beneath.now)) }
    ensures rows { IfOk result (λ lens. Finished (entry_ops M.Measure.ops).zero (says sheet.now).face.inputs gathered.new lens × (length lens ≡ 8)) }
{
    let wires = read_connections(sheet);
    let face = sheet.interface();
    let net = Net {
        inputs: face.inputs as usize,
        outputs: face.outputs as usize,
        instances: sheet.count(Item::Instance),
        connections: &wires[..sheet.count(Item::Connection)],
    };
    let places = Places::new(net, &*beneath);
    places.work::<R>(rows, gathered)
}

// What lies beneath a composite, by the tables: the rows and cards of the blocks that its instances name. Every reader answers on any memory.
ghost use Rattle.std.specs.Prelude.{◌≡◌, ◌*◌, min, slice_index_or};
ghost use Rattle.library.specs.Placing.{faces_kept, cards_kept};
ghost use Rattle.library.specs.Tables.{kept_list};

use crate::Kept;
use crate::tables::part;
use costs::entry::Entry;
use costs::measure::Measure;
use networks::beneath::{Beneath, Face};

// The tables, and the number of each instance's block.
#[derive(Drop)]
pub(crate) struct Below<'k, 'n, M> {
    pub(crate) kept: Kept<'k, M>,
    pub(crate) names: &'n [u8],
}

// Where the rows of event f begin, 16 for each event, or the end.
fn event_start(rows: usize, f: usize) -> usize
    ensures { result ≡ min (16 * f) rows }
{
    f.saturating_mul(16).min(rows)
}

impl<'a, M: Measure> Kept<'a, M> {
    // The list of event f on the card of block n.
    fn list(&self, n: u8, f: usize) -> &'a [Entry<M>]
        ensures { result.now ≡ kept_list self.now.index.now self.now.cards.now n f }
    {
        let row = self.row(n as usize);
        let card = part(self.cards, 128 * n as usize, self.cards.len());
        part(
            card,
            event_start(card.len(), f),
            row.lens.get(f).copied().unwrap_or(0),
        )
    }
}

impl<'k, 'n, M> Below<'k, 'n, M> {
    // The number of instance i's block; 255, which is no block of 64, past the last: what the definitions say of such an instance is said of that row.
    fn name(&self, i: usize) -> u8
        ensures { result ≡ slice_index_or self.now.names.now i 255 }
    {
        self.names.get(i).copied().unwrap_or(255)
    }
}

impl<'k, 'n, M: Measure> Beneath<M> for Below<'k, 'n, M> {
    ghost faces = { λ s. faces_kept s.kept.index.now s.names.now };

    ghost cards = { λ s. cards_kept s.kept.index.now s.kept.cards.now s.names.now };

    ghost runs = { λ _ _ _ _ _. ⊥ };

    fn face(&self, i: usize) -> Face {
        let row = self.kept.row(self.name(i) as usize);
        Face {
            inputs: row.inputs as usize,
            outputs: row.outputs as usize,
        }
    }

    fn card(&self, i: usize, f: usize) -> &[Entry<M>] {
        self.kept.list(self.name(i), f)
    }
}

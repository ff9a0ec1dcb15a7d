// What lies beneath a composite block: the interfaces and cards of the blocks that its instances name.
ghost use Rattle.std.specs.Prelude.{◌≡◌, ℕ, List};
ghost use Rattle.costs.specs.Runs.{Sent};
ghost use Rattle.costs.specs.declared.entry.Entry.{Entry};
ghost use Rattle.networks.specs.declared.beneath.Face.{Face};

use costs::entry::Entry;
use costs::measure::Measure;

// How many input and output events a block has.
#[derive(Clone, Copy)]
pub struct Face {
    pub inputs: usize,
    pub outputs: usize,
}

// The blocks of the instances, by instance number.
pub trait Beneath<M: Measure> {
    // the interface of the block of instance i
    ghost faces: { Self → ℕ → Face };

    // the list for event f on the card of the block of instance i
    ghost cards: { Self → ℕ → ℕ → List (Entry M) };

    // the runs of that block on event f: their amounts, and how often each output is sent
    ghost runs: { Self → ℕ → ℕ → M → Sent → Type 0 };

    fn face(&self, i: usize) -> Face
        ensures { result ≡ faces self.now i };

    fn card(&self, i: usize, f: usize) -> &[Entry<M>]
        ensures { result.now ≡ cards self.now i f };
}

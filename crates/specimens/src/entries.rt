// Entries in ticks, for tests.
use costs::counts::Counts;
use costs::entry::Entry;
use costs::ticks::Ticks;

// So many ticks, and these counts of the first outputs.
pub(crate) fn entry(amount: u32, counts: &[u8]) -> Entry<Ticks> {
    Entry {
        amount: Ticks { value: amount },
        counts: Counts::read(counts),
    }
}

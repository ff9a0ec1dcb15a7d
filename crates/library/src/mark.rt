// Marking rows out of date, in place.
ghost use Rattle.std.specs.Prelude.{◌≡◌, ◌<◌, ◌≤◌, length};
ghost use Rattle.library.specs.Lent.{SameTables};
ghost use Rattle.library.specs.Marks.{Marked};

use crate::Library;
use costs::measure::Measure;

impl<'a, M: Measure> Library<'a, M> {
    // Marks the row of a block and, from the lowest number on, each row whose kept sheet names a marked one: so those of all blocks above it.
    pub(crate) fn mark(&mut self, block: usize, count: usize)
        requires within { count ≤ length self.old.index.now }
        requires block { block < count }
        ensures tables { SameTables self.old self.new }
        ensures shelf { self.new.shelf.now ≡ self.old.shelf.now }
        ensures marked { Marked M.wide self.old.shelf.now block count self.old.index.now self.new.index.now }
        ensures cards { self.new.cards.now ≡ self.old.cards.now }
    {
        // by number: each turn reads all rows as the turns before it left them, and writes one
        for n in 0..count {
            if n == block || self.kept().leans_on(n, n) {
                self.index[n].old = true;
            }
        }
    }
}

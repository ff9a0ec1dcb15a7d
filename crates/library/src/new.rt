// Beginning a library.
ghost use Rattle.std.specs.Prelude.{◌≡◌, length, replicate};
ghost use Rattle.costs.specs.Entries.{entry_ops};
ghost use Rattle.library.specs.Books.{rules, empty};
ghost use Rattle.library.specs.Law.{Sound};
ghost use Rattle.library.specs.Lent.{SameTables};
ghost use Rattle.library.specs.Memory.{Stands};
ghost use Rattle.library.specs.Tables.{no_row};

use crate::Library;
use crate::row::Row;
use crate::tables::fill;
use costs::entry::Entry;
use costs::measure::Measure;
use costs::reducer::Reducer;

impl<'a, M: Measure> Library<'a, M> {
    // An empty library in these tables, whatever they held.
    pub fn new<R: Reducer<M>>(
        shelf: &'a mut [u8],
        index: &'a mut [Row],
        cards: &'a mut [Entry<M>],
    ) -> Library<'a, M>
        ensures names { (result.shelf.ghost_name ≡ shelf.entry.ghost_name) × (result.index.ghost_name ≡ index.entry.ghost_name) × (result.cards.ghost_name ≡ cards.entry.ghost_name) }
        ensures shelf { result.shelf.now ≡ replicate (length shelf.old) 0 }
        ensures index { result.index.now ≡ replicate (length index.old) no_row }
        ensures cards { result.cards.now ≡ replicate (length cards.old) (entry_ops M.Measure.ops).zero }
        ensures book { Stands (rules M.Measure.ops M.Measure.wide M.Measure.meant R.Reducer.gives) empty result.shelf.now result.index.now result.cards.now × Sound (rules M.Measure.ops M.Measure.wide M.Measure.meant R.Reducer.gives) empty result.index.now result.cards.now }
    {
        let mut library = Library {
            shelf,
            index,
            cards,
        };
        library.begin::<R>();
        library
    }

    // Empties the library: zero bytes, unused rows and zero entries.
    pub fn begin<R: Reducer<M>>(&mut self)
        ensures tables { SameTables self.old self.new }
        ensures shelf { self.new.shelf.now ≡ replicate (length self.old.shelf.now) 0 }
        ensures index { self.new.index.now ≡ replicate (length self.old.index.now) no_row }
        ensures cards { self.new.cards.now ≡ replicate (length self.old.cards.now) (entry_ops M.Measure.ops).zero }
        ensures book { Stands (rules M.Measure.ops M.Measure.wide M.Measure.meant R.Reducer.gives) empty self.new.shelf.now self.new.index.now self.new.cards.now × Sound (rules M.Measure.ops M.Measure.wide M.Measure.meant R.Reducer.gives) empty self.new.index.now self.new.cards.now }
    {
        self.shelf.fill(0);
        self.index.fill(Row::unused());
        fill(self.cards, Entry::zero());
    }
}

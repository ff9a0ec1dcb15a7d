// Lists that are being formed, in lent rows.
ghost use Rattle.std.specs.Prelude.{◌≡◌, ◌+◌, ◌*◌, ◌≤◌, [], ◌∷◌, ◌++◌, length, take};
ghost use Rattle.costs.specs.Forming.{Reduces};
ghost use Rattle.costs.specs.Lists.{Sized};
ghost use Rattle.networks.specs.Cards.{Joins, Times};
ghost use Rattle.networks.specs.Forming.{Forms};

use costs::entry::Entry;
use costs::join::join;
use costs::lists::{append, reduce_short};
use costs::measure::Measure;
use costs::reducer::Reducer;

// A list being formed: it stands in the first rows, and has 1 to 16 entries.
#[derive(Drop)]
pub(crate) struct Draft<'a, M> {
    rows: &'a mut [Entry<M>],
    len: usize,
    ghost room: { 256 ≤ length rows.now },
    ghost some: { 1 ≤ len },
    ghost few: { len ≤ 16 },
}

impl<'a, M: Measure> Draft<'a, M> {
    // What stands in the first row is its one entry.
    pub(crate) fn new(rows: &'a mut [Entry<M>]) -> Draft<'a, M>
        requires { 256 ≤ length rows.old }
    {
        Draft { rows, len: 1 }
    }

    // The list so far.
    pub(crate) fn list(&self) -> &[Entry<M>]
        ensures list { result.now ≡ take self.now.len self.now.rows.now }
        ensures sized { Sized result.now }
    {
        &self.rows[..self.len]
    }

    // Begins anew, with one entry.
    pub(crate) fn begin(&mut self, entry: Entry<M>)
        ensures { take self.new.len self.new.rows.now ≡ entry ∷ [] }
    {
        self.rows[0] = entry;
        self.len = 1;
    }

    // Makes the list what the reducer gives for these entries; none where that is above 16.
    pub(crate) fn reduce<R: Reducer<M>>(&mut self, from: &[Entry<M>]) -> Option<()>
        requires some { 1 ≤ length from.now }
        requires few { length from.now ≤ 256 }
        ensures { Forms (Reduces R.gives from.now) (take self.new.len self.new.rows.now) result }
    {
        self.len = reduce_short::<M, R>(from, self.rows)?;
        Some(())
    }

    // Joins the list with another, and reduces that; none where the result is above 16.
    pub(crate) fn join<R: Reducer<M>>(
        &mut self,
        other: &[Entry<M>],
        joined: &mut [Entry<M>],
    ) -> Option<()>
        requires other { Sized other.now }
        requires room { 16 * length other.now ≤ length joined.old }
        ensures { Forms (Joins M.Measure.ops R.gives (take self.old.len self.old.rows.now) other.now) (take self.new.len self.new.rows.now) result }
    {
        let k = join(self.list(), other, joined);
        let (rows, _) = joined.split_at(k);
        self.reduce::<R>(rows)
    }

    // The same n times.
    pub(crate) fn join_times<R: Reducer<M>>(
        &mut self,
        n: u8,
        other: &[Entry<M>],
        joined: &mut [Entry<M>],
    ) -> Option<()>
        requires other { Sized other.now }
        requires room { 16 * length other.now ≤ length joined.old }
        ensures { Forms (Times M.Measure.ops R.gives n other.now (take self.old.len self.old.rows.now)) (take self.new.len self.new.rows.now) result }
    {
        // so many times, with nothing to go over; each turn joins what the one before left
        for _ in 0..n {
            self.join::<R>(other, joined)?;
        }
        Some(())
    }
}

// Entries put after one another: they stand in the first rows.
#[derive(Drop)]
pub(crate) struct Pile<'a, M> {
    rows: &'a mut [Entry<M>],
    len: usize,
    ghost room: { 256 ≤ length rows.now },
    ghost within: { len ≤ 256 },
}

impl<'a, M: Measure> Pile<'a, M> {
    pub(crate) fn new(rows: &'a mut [Entry<M>]) -> Pile<'a, M>
        requires { 256 ≤ length rows.old }
    {
        Pile { rows, len: 0 }
    }

    // The entries so far.
    pub(crate) fn entries(&self) -> &[Entry<M>]
        ensures { result.now ≡ take self.now.len self.now.rows.now }
    {
        &self.rows[..self.len]
    }

    pub(crate) fn clear(&mut self)
        ensures { self.new.len ≡ 0 }
    {
        self.len = 0;
    }

    // Puts the list behind the entries so far.
    pub(crate) fn push(&mut self, list: &[Entry<M>])
        requires { self.old.len + length list.now ≤ 256 }
        ensures entries { take self.new.len self.new.rows.now ≡ take self.old.len self.old.rows.now ++ list.now }
        ensures count { self.new.len ≡ self.old.len + length list.now }
    {
        self.len = append(list, self.rows, self.len);
    }
}

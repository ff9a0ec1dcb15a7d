// Rows lent for forming a list.
ghost use Rattle.std.specs.Prelude.{◌≡◌, ◌<◌, ◌≤◌, [], ◌∷◌, length, take};
ghost use Rattle.costs.specs.Entries.{entry_ops};
ghost use Rattle.costs.specs.Forming.{Reduces};
ghost use Rattle.costs.specs.Lent.{Came};
ghost use Rattle.costs.specs.Lists.{sums};
ghost use Rattle.charts.specs.Rows.{Formed};

use costs::entry::Entry;
use costs::join::join;
use costs::lists::reduce_short;
use costs::measure::Measure;
use costs::reducer::Reducer;

// Reduces the first n rows into the first of `into`, and answers how many these are; none where the result is above 16.
// A function beside the struct, as the next: in a method, a part of one lent field cannot be lent beside another field.
// How many rows are gathered goes with them as a number: the loops that fill them (`gather`, `serve`) answer it, and the room outlives one gathering.
fn reduce_first<M: Measure, R: Reducer<M>>(
    rows: &mut [Entry<M>],
    n: usize,
    into: &mut [Entry<M>],
) -> Option<usize>
    requires given { (1 ≤ n) × (n ≤ 1024) }
    requires room { (n ≤ length rows.old) × (n ≤ length into.old) }
    ensures { Came (Reduces R.gives (take n rows.old)) into.new result }
{
    let (given, _) = rows.split_at(n);
    reduce_short::<M, R>(given, into)
}

// Joins the one list with the first n rows, and answers how many rows that takes.
fn join_first<M: Measure>(
    one: &mut [Entry<M>],
    rows: &mut [Entry<M>],
    n: usize,
    joined: &mut [Entry<M>],
) -> usize
    requires one { length one.old ≡ 1 }
    requires room { (n ≤ 1024) × ((n ≤ length rows.old) × (n ≤ length joined.old)) }
    ensures { (result ≡ n) × (take n joined.new ≡ sums (entry_ops M.Measure.ops) one.old (take n rows.old)) }
{
    let (given, _) = rows.split_at(n);
    join(one, given, joined)
}

// Rows lent for forming a list: what is gathered, and what it is joined to and reduced.
#[derive(Drop)]
pub(crate) struct Room<'a, M> {
    // An entry of any measure cannot be lent as a list, since its size is not known; so there is a row for one.
    one: &'a mut [Entry<M>],
    pub(crate) gathered: &'a mut [Entry<M>],
    joined: &'a mut [Entry<M>],
    ghost single: { length one.now ≡ 1 },
    ghost gathers: { 1024 ≤ length gathered.now },
    ghost joins: { 1024 ≤ length joined.now },
}

impl<'a, M: Measure> Room<'a, M> {
    // Of at least 2,049 rows.
    pub(crate) fn new(rows: &'a mut [Entry<M>]) -> Room<'a, M>
        requires { 2049 ≤ length rows.old }
    {
        let (one, rest) = rows.split_at_mut(1);
        let (gathered, joined) = rest.split_at_mut(1024);
        Room {
            one,
            gathered,
            joined,
        }
    }

    // The entry as a list.
    pub(crate) fn alone(&mut self, entry: Entry<M>) -> &[Entry<M>]
        ensures { result.now ≡ entry ∷ [] }
    {
        self.one[0] = entry;
        self.one
    }

    // The first n gathered rows, reduced.
    pub(crate) fn reduced<R: Reducer<M>>(&mut self, n: usize) -> Option<&[Entry<M>]>
        requires { (1 ≤ n) × (n ≤ 1024) }
        ensures { Formed (Reduces R.gives (take n self.old.gathered.now)) result }
    {
        let m = reduce_first::<M, R>(self.gathered, n, self.joined)?;
        Some(&self.joined[..m])
    }

    // The cost joined with the first n gathered rows, reduced.
    pub(crate) fn joined<R: Reducer<M>>(&mut self, cost: Entry<M>, n: usize) -> Option<&[Entry<M>]>
        requires { (1 ≤ n) × (n ≤ 1024) }
        ensures { Formed (Reduces R.gives (sums (entry_ops M.Measure.ops) (cost ∷ []) (take n self.old.gathered.now))) result }
    {
        self.one[0] = cost;
        let m = join_first(self.one, self.gathered, n, self.joined);
        let k = reduce_first::<M, R>(self.joined, m, self.gathered)?;
        Some(&self.gathered[..k])
    }
}

// Lists in lent rows: storing and reading them, reducing to at most 16 entries, and copying rows.
ghost use Rattle.std.specs.Prelude.{◌≡◌, ℕ, ◌+◌, ◌*◌, ◌<◌, ◌≤◌, ◌++◌, length, take, slice_index, slice_index_or};
ghost use Rattle.costs.specs.Entries.{entry_ops};
ghost use Rattle.costs.specs.Lists.{Sized, Written};
ghost use Rattle.costs.specs.Forming.{Reduces};
ghost use Rattle.costs.specs.Lent.{list_at, Lent, Came, Stored};

use crate::entry::Entry;
use crate::measure::Measure;
use crate::reducer::Reducer;

// Most entries that a list has.
const MOST: usize = 16;

// N lists: list k stands in rows 16 k and on, and has as many entries as its length says. One that is not worked has length 0.
#[derive(Drop)]
pub struct Lists<'a, M, const N: usize> {
    pub rows: &'a mut [Entry<M>],
    pub lens: [usize; N],
    pub ghost lent: { Lent rows.now lens },
    pub ghost all: { length lens ≡ N },
}

impl<'a, M: Measure, const N: usize> Lists<'a, M, N> {
    // No list is worked yet. The rows stay.
    pub fn new(rows: &'a mut [Entry<M>]) -> Lists<'a, M, N>
        requires room { 16 * N ≤ length rows.old }
        ensures same_rows { result.rows.ghost_name ≡ rows.entry.ghost_name }
        ensures rows { result.rows.now ≡ rows.old }
        ensures none { (k : ℕ) → slice_index result.lens k ≡ 0 }
    {
        Lists { rows, lens: [0; N] }
    }

    // List k.
    pub fn list(&self, k: usize) -> &[Entry<M>]
        requires { k < N }
        ensures { result.now ≡ list_at self.now.rows.now self.now.lens k }
    {
        let start = MOST * k;
        &self.rows[start..start + self.lens[k]]
    }

    // Makes this list k. The other lists and their rows stay.
    pub fn store(&mut self, k: usize, list: &[Entry<M>])
        requires place { k < N }
        requires sized { Sized list.now }
        ensures same_rows { self.new.rows.ghost_name ≡ self.old.rows.ghost_name }
        ensures stored { Stored (λ es. es ≡ list.now) k self.old.rows.now self.old.lens self.new.rows.now self.new.lens }
    {
        let start = MOST * k;
        self.rows[start..start + list.len()].copy_from_slice(list);
        self.lens[k] = list.len();
    }
}

// Reduces the given entries into the first rows of `into`, and answers how many these are; none where the result is above 16.
pub fn reduce_short<M: Measure, R: Reducer<M>>(
    from: &[Entry<M>],
    into: &mut [Entry<M>],
) -> Option<usize>
    requires some { 1 ≤ length from.now }
    requires few { length from.now ≤ 1024 }
    requires room { length from.now ≤ length into.old }
    ensures { Came (Reduces R.gives from.now) into.new result }
{
    let n = R::reduce(from, into);
    if n > MOST {
        return None;
    }
    Some(n)
}

// Copies the given entries behind the first n rows, and answers how many there are then.
pub fn append<M: Measure>(from: &[Entry<M>], into: &mut [Entry<M>], n: usize) -> usize
    requires { n + length from.now ≤ length into.old }
    ensures rows { take result into.new ≡ take n into.old ++ from.now }
    ensures count { result ≡ n + length from.now }
{
    let end = n + from.len();
    into[n..end].copy_from_slice(from);
    end
}

// Makes every row the zero entry.
pub fn blank<M: Measure>(rows: &mut [Entry<M>])
    ensures { (q : ℕ) → slice_index_or rows.new q (entry_ops M.Measure.ops).zero ≡ (entry_ops M.Measure.ops).zero }
{
    rows.fill_with(|| Entry::zero());
}

// Copies the first n rows. The other rows of `out` stay.
pub fn copy_rows<M: Measure>(from: &[Entry<M>], n: usize, out: &mut [Entry<M>])
    requires { (n ≤ length from.now) × (n ≤ length out.old) }
    ensures { Written out.old out.new n (take n from.now) }
{
    out[..n].copy_from_slice(&from[..n]);
}

// Keep on up to 1,024 entries of which none covers another, so many times: the hot loop of everything, for timing.
#![tactic(auto)]

ghost use Rattle.std.specs.Prelude.{◌≡◌, ◌<◌, ◌≤◌};

use costs::counts::Counts;
use costs::entry::Entry;
use costs::keep::Keep;
use costs::measure::Measure;
use costs::reducer::Reducer;
use costs::ticks::Ticks;
use std::{array, env};

// Entry n of 1,024: the more ticks, the fewer events are sent.
fn entry(n: u32) -> Entry<Ticks>
    requires { n < 1024 }
    ensures { result.amount.value ≡ n }
{
    let rest = 1023 - n;
    Entry {
        amount: Ticks { value: n },
        counts: Counts::read(&[0, 0, 0, 0, 0, 0, (rest / 4) as u8, (rest % 4) as u8]),
    }
}

// One keep of the first `size` rows, with another pair of them exchanged each time, added to a checksum of what is kept.
fn turn(
    n: usize,
    size: usize,
    rows: &mut [Entry<Ticks>; 1024],
    into: &mut [Entry<Ticks>; 1024],
    sum: u64,
) -> u64
    requires some { 1 ≤ size }
    requires few { size ≤ 1024 }
{
    rows.swap(n % size, (n % size * 7 + 3) % size);
    let k = Keep::reduce(&rows[..size], into);
    let shown = into[n % size].amount.value;
    sum.wrapping_mul(31)
        .wrapping_add(k as u64)
        .wrapping_add(u64::from(shown))
}

fn run(times: usize, size: usize) -> u64
    requires some { 1 ≤ size }
    requires few { size ≤ 1024 }
{
    // in mixed order
    let mut rows = array::from_fn(|i| entry((i * 389 % 1024) as u32));
    let mut into = [Entry::zero(); 1024];
    let mut sum = 0;
    // the number of the turn chooses the rows that are exchanged
    for n in 0..times {
        sum = turn(n, size, &mut rows, &mut into, sum);
    }
    sum
}

// The words are how many times, and how many entries, 1 to 1,024.
fn main(rt: HostRuntime) -> anyhow::Result<()> {
    let mut words = env::args(&rt)?.skip(1);
    let times = words.next().map_or(Ok(1), |word| word.parse::<usize>())?;
    // of further words the last counts
    let size = words.try_fold(1024, |_, word| word.parse::<usize>())?;
    let sum = run(times, size.clamp(1, 1024));
    println!(rt; "{times} {sum}")?;
    Ok(())
}

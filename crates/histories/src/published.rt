// A splitter, two drivers and the composite over them, entered one after another.
use crate::tables::*;
use costs::counts::Counts;
use costs::entry::Entry;
use costs::keep::Keep;
use costs::measure::Measure;
use costs::merge::Merge;
use costs::reducer::Reducer;
use costs::ticks::Ticks;
use library::refusal::Refusal;
use std::alloc::Global;
use std::process::Abort;
use std::test::Fail;

// One entry, (1; 1, 2).
const SPLITTER: &[u8] = b"\x01\x00\x03\x02\x01\x02\x05\x00\x07\x00\x00\x00\x00\x01\x01\x02";
// (10; 2) and (30; 1).
const FIRST: &[u8] =
    b"\x01\x00\x03\x02\x01\x01\x05\x00\x06\x00\x00\x00\x00\x0a\x02\x05\x00\x06\x00\x00\x00\x00\x1e\x01";
// (300; 1, 0) and (100; 1, 1).
const SECOND: &[u8] =
    b"\x01\x00\x03\x02\x01\x02\x05\x00\x07\x00\x00\x00\x01\x2c\x01\x00\x05\x00\x07\x00\x00\x00\x00\x64\x01\x01";
// The event goes to the splitter, its outputs to the two drivers, and theirs outside.
const COMPOSITE: &[u8] =
    b"\x01\x00\x03\x03\x01\x03\x06\x00\x01\x00\x06\x00\x01\x01\x06\x00\x01\x02\x07\x00\x04\xff\x00\x00\x00\x07\x00\x04\x00\x00\x01\x00\x07\x00\x04\x00\x01\x02\x00\x07\x00\x04\x01\x00\xff\x00\x07\x00\x04\x02\x00\xff\x01\x07\x00\x04\x02\x01\xff\x02";

// So many ticks, and these counts of the first outputs.
fn entry(amount: u32, counts: &[u8]) -> Entry<Ticks> {
    Entry {
        amount: Ticks { value: amount },
        counts: Counts::read(counts),
    }
}

// The first 16 rows of the composite's card, and the length of its list, or why the last call is refused.
fn worked<R: Reducer<Ticks>>(
    rt: &impl Abort,
    heap: Global,
    out: &mut [Entry<Ticks>],
) -> Result<Result<usize, Refusal>, Fail> {
    let mut tables = begun::<R>(heap, 512, 8, 1024)?;
    for sheet in [SPLITTER, FIRST, SECOND, COMPOSITE] {
        assert!(rt; add::<R>(&mut tables, sheet).is_ok());
    }
    Ok(look::<R>(&tables, 3, out))
}

#[test]
fn six_entries(rt: HostRuntime) -> Result<(), Fail> {
    let mut out = [Entry::zero(); 16];
    assert_eq!(rt; worked::<Keep>(&rt, rt.alloc(), &mut out)?, Ok(6));
    let wanted = [
        entry(611, &[2, 2, 0]),
        entry(411, &[2, 2, 1]),
        entry(211, &[2, 2, 2]),
        entry(631, &[1, 2, 0]),
        entry(431, &[1, 2, 1]),
        entry(231, &[1, 2, 2]),
    ];
    assert_eq!(rt; &out[..6], wanted.as_slice());
    Ok(())
}

#[test]
fn merged(rt: HostRuntime) -> Result<(), Fail> {
    let mut out = [Entry::zero(); 16];
    assert_eq!(rt; worked::<Merge>(&rt, rt.alloc(), &mut out)?, Ok(1));
    assert_eq!(rt; out[0], entry(631, &[2, 2, 2]));
    Ok(())
}

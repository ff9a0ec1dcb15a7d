// Another amount at the bottom of four levels, and the cards above it worked again.
use crate::tables::*;
use costs::entry::Entry;
use costs::keep::Keep;
use costs::measure::Measure;
use costs::ticks::Ticks;
use std::alloc::Global;
use std::process::Abort;
use std::test::Fail;

// One algorithm of 7 ticks, which an event runs; it sends the output once.
const CHART: &[u8] =
    b"\x01\x00\x03\x01\x01\x01\x02\x00\x04\x00\x00\x00\x07\x03\x00\x00\x03\x00\x02\x00\x00\x04\x00\x03\x00\x01\x00\x04\x00\x03\x01\x00\xff";
// Its one event runs through one instance, of block 0, 1 or 2, and outside.
const OVER_0: &[u8] =
    b"\x01\x00\x03\x03\x01\x01\x06\x00\x01\x00\x07\x00\x04\xff\x00\x00\x00\x07\x00\x04\x00\x00\xff\x00";

const OVER_1: &[u8] =
    b"\x01\x00\x03\x03\x01\x01\x06\x00\x01\x01\x07\x00\x04\xff\x00\x00\x00\x07\x00\x04\x00\x00\xff\x00";

const OVER_2: &[u8] =
    b"\x01\x00\x03\x03\x01\x01\x06\x00\x01\x02\x07\x00\x04\xff\x00\x00\x00\x07\x00\x04\x00\x00\xff\x00";

// Four levels, entered.
fn four_levels(rt: &impl Abort, heap: Global) -> Result<Tables, Fail> {
    let mut tables = begun::<Keep>(heap, 512, 8, 1024)?;
    for sheet in [CHART, OVER_0, OVER_1, OVER_2] {
        assert!(rt; add::<Keep>(&mut tables, sheet).is_ok());
    }
    Ok(tables)
}

#[test]
fn retimed_at_the_bottom(rt: HostRuntime) -> Result<(), Fail> {
    let mut tables = four_levels(&rt, rt.alloc())?;
    shows::<Keep>(&rt, &tables, 3, 1, 7, 1);
    assert!(rt; change::<Keep>(&mut tables, 0, 0, b"\x00\x00\x00\x09").is_ok());
    for block in 0..4 {
        hides::<Keep>(&rt, &tables, block, 4, block);
    }
    refused(&rt, again::<Keep>(&mut tables, 3), 4, 4, 0);
    refused(&rt, again::<Keep>(&mut tables, 1), 4, 4, 0);
    for block in 0..4 {
        assert!(rt; again::<Keep>(&mut tables, block).is_ok());
        shows::<Keep>(&rt, &tables, block, 1, 9, 1);
    }
    Ok(())
}

#[test]
fn calls_that_name_nothing(rt: HostRuntime) -> Result<(), Fail> {
    let mut tables = four_levels(&rt, rt.alloc())?;
    let t = &mut tables;
    refused(&rt, change::<Keep>(t, 0, 0, b"\x00\x00\x09"), 2, 4, 3);
    refused(&rt, change::<Keep>(t, 4, 0, b"\x00\x00\x00\x09"), 3, 4, 4);
    refused(&rt, change::<Keep>(t, 0, 1, b"\x00\x00\x00\x09"), 5, 4, 1);
    refused(&rt, change::<Keep>(t, 1, 0, b"\x00\x00\x00\x09"), 5, 4, 0);
    refused(&rt, again::<Keep>(t, 4), 3, 4, 4);
    for block in 0..4 {
        shows::<Keep>(&rt, t, block, 1, 7, 1);
    }
    hides::<Keep>(&rt, t, 4, 3, 4);
    Ok(())
}

#[test]
fn too_few_rows_lent(rt: HostRuntime) -> Result<(), Fail> {
    let tables = four_levels(&rt, rt.alloc())?;
    let mut few = [Entry::zero(); 15];
    refused(&rt, look::<Keep>(&tables, 0, &mut few), 7, 4, 5);
    Ok(())
}

#[test]
fn a_refused_one_between(rt: HostRuntime) -> Result<(), Fail> {
    let mut tables = begun::<Keep>(rt.alloc(), 512, 8, 1024)?;
    assert_eq!(rt; add::<Keep>(&mut tables, CHART), Ok(0));
    refused(&rt, add::<Keep>(&mut tables, OVER_1), 3, 4, 0);
    assert_eq!(rt; add::<Keep>(&mut tables, OVER_0), Ok(1));
    assert_eq!(rt; add::<Keep>(&mut tables, OVER_1), Ok(2));
    shows::<Keep>(&rt, &tables, 2, 1, 7, 1);
    Ok(())
}

#[test]
fn no_room(rt: HostRuntime) -> Result<(), Fail> {
    let mut shelf = begun::<Keep>(rt.alloc(), 56, 8, 1024)?;
    assert_eq!(rt; add::<Keep>(&mut shelf, CHART), Ok(0));
    refused(&rt, add::<Keep>(&mut shelf, OVER_0), 7, 4, 1);
    let mut index = begun::<Keep>(rt.alloc(), 57, 1, 1024)?;
    assert_eq!(rt; add::<Keep>(&mut index, CHART), Ok(0));
    refused(&rt, add::<Keep>(&mut index, OVER_0), 7, 4, 2);
    let mut cards = begun::<Keep>(rt.alloc(), 57, 2, 255)?;
    assert_eq!(rt; add::<Keep>(&mut cards, CHART), Ok(0));
    refused(&rt, add::<Keep>(&mut cards, OVER_0), 7, 4, 3);
    let mut enough = begun::<Keep>(rt.alloc(), 57, 2, 256)?;
    assert_eq!(rt; add::<Keep>(&mut enough, CHART), Ok(0));
    assert_eq!(rt; add::<Keep>(&mut enough, OVER_0), Ok(1));
    Ok(())
}

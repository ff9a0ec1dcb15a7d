// An amount that makes a list too long, and a count without a bound.
use crate::tables::*;
use costs::keep::Keep;
use costs::ticks::Ticks;
use std::alloc::{AllocError, Global};
use std::test::Fail;

// A driver that sends 255 or more, and a block over it that passes these on.
const FLOOD: &[u8] = b"\x01\x00\x03\x02\x01\x01\x05\x00\x06\x00\x00\x00\x00\x01\xff";

const OVER_FLOOD: &[u8] =
    b"\x01\x00\x03\x03\x01\x01\x06\x00\x01\x00\x07\x00\x04\xff\x00\x00\x00\x07\x00\x04\x00\x00\xff\x00";

// An event that leads to 17 states: one runs an algorithm of no ticks, and 16 send two of eight outputs each, another two each time.
// So keep leaves 16 entries, and 17 once the algorithm costs something.
fn wide(heap: Global) -> Result<Vec<u8>, AllocError> {
    let mut sheet = Vec::new(heap);
    sheet.extend_from_slice(
        b"\x01\x00\x03\x01\x01\x08\x02\x00\x04\x00\x00\x00\x00\x03\x00\x02\x00\xff",
    )?;
    for k in 0..16u8 {
        sheet.extend_from_slice(&[3, 0, 4, 255, k / 4, 255, 4 + k % 4])?;
    }
    for k in 0..17u8 {
        sheet.extend_from_slice(&[4, 0, 3, 0, k, 0])?;
    }
    Ok(sheet)
}

#[test]
fn too_long_once_retimed(rt: HostRuntime) -> Result<(), Fail> {
    let mut tables = begun::<Keep>(rt.alloc(), 512, 8, 1024)?;
    let sheet = wide(rt.alloc())?;
    assert_eq!(rt; add::<Keep>(&mut tables, FLOOD), Ok(0));
    assert_eq!(rt; add::<Keep>(&mut tables, &sheet), Ok(1));
    shows::<Keep>(&rt, &tables, 1, 16, 0, 1);
    assert!(rt; change::<Keep>(&mut tables, 1, 0, b"\x00\x00\x00\x05").is_ok());
    refused(&rt, again::<Keep>(&mut tables, 1), 10, 2, 256);
    hides::<Keep>(&rt, &tables, 1, 4, 1);
    shows::<Keep>(&rt, &tables, 0, 1, 1, 255);
    assert!(rt; change::<Keep>(&mut tables, 1, 0, b"\x00\x00\x00\x00").is_ok());
    assert!(rt; again::<Keep>(&mut tables, 1).is_ok());
    shows::<Keep>(&rt, &tables, 1, 16, 0, 1);
    Ok(())
}

#[test]
fn without_a_bound(rt: HostRuntime) -> Result<(), Fail> {
    let mut tables = begun::<Keep>(rt.alloc(), 512, 8, 1024)?;
    assert_eq!(rt; add::<Keep>(&mut tables, FLOOD), Ok(0));
    refused(&rt, add::<Keep>(&mut tables, OVER_FLOOD), 9, 3, 0);
    Ok(())
}

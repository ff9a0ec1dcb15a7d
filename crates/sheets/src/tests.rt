// The example sheet, a sheet at each limit, and one just past each.
use crate::opened::Checked;
use crate::refusal::Refusal;
use crate::width::Width;
use std::alloc::{AllocError, Global};
use std::process::Abort;
use std::test::Fail;

const BASIC: [u8; 13] = [1, 0, 3, 1, 1, 1, 2, 0, 4, 0, 0, 0, 7];

const SERVICE: [u8; 6] = [1, 0, 3, 2, 1, 1];

const COMPOSITE: [u8; 6] = [1, 0, 3, 3, 1, 1];

// What the checks say at a width of four bytes; of a checked sheet, its length in bytes.
fn checked(bytes: &[u8]) -> Result<usize, Refusal> {
    Checked::read(bytes, Width { bytes: 4 }).map(|sheet| sheet.len())
}

// A sheet's beginning, then the same field so many times.
fn repeated(heap: Global, head: &[u8], field: &[u8], times: usize) -> Result<Vec<u8>, AllocError> {
    let mut sheet = Vec::from_slice(heap, head)?;
    for _ in 0..times {
        sheet.extend_from_slice(field)?;
    }
    Ok(sheet)
}

fn accepts(
    rt: &impl Abort,
    heap: Global,
    head: &[u8],
    field: &[u8],
    most: usize,
) -> Result<(), Fail> {
    let sheet = repeated(heap, head, field, most)?;
    assert_eq!(rt; checked(sheet.as_slice()), Ok(sheet.len()));
    Ok(())
}

fn refuses(
    rt: &impl Abort,
    heap: Global,
    head: &[u8],
    field: &[u8],
    most: usize,
) -> Result<(), Fail> {
    let sheet = repeated(heap, head, field, most)?;
    let over = repeated(heap, sheet.as_slice(), field, 1)?;
    assert_eq!(rt;
        checked(over.as_slice()),
        Err(Refusal::Grammar { at: sheet.len() })
    );
    Ok(())
}

#[test]
fn example(rt: HostRuntime) {
    let sheet = [
        1, 0, 3, 1, 1, 1, 2, 0, 4, 0, 0, 0, 7, 3, 0, 0, 3, 0, 2, 0, 0, 4, 0, 3, 0, 1, 0, 4, 0, 3,
        1, 0, 255,
    ];
    assert_eq!(rt; checked(&sheet), Ok(33));
    assert_eq!(rt; checked(&sheet[0..32]), Err(Refusal::Cut { at: 27 }));
    assert_eq!(rt; checked(&BASIC), Err(Refusal::Grammar { at: 13 }));
    assert_eq!(rt; checked(&[]), Err(Refusal::Grammar { at: 0 }));
}

#[test]
fn limits(rt: HostRuntime) -> Result<(), Fail> {
    let heap = rt.alloc();
    accepts(&rt, heap, &BASIC, &[3, 0, 0], 32)?;
    accepts(&rt, heap, &SERVICE, &[5, 0, 6, 0, 0, 0, 0, 5, 1], 16)?;
    accepts(&rt, heap, &COMPOSITE, &[6, 0, 1, 0], 16)
}

#[test]
fn past_limits(rt: HostRuntime) -> Result<(), Fail> {
    let heap = rt.alloc();
    refuses(&rt, heap, &BASIC, &[3, 0, 0], 32)?;
    refuses(&rt, heap, &SERVICE, &[5, 0, 6, 0, 0, 0, 0, 5, 1], 16)?;
    refuses(&rt, heap, &COMPOSITE, &[6, 0, 1, 0], 16)
}

#[test]
fn late_limits(rt: HostRuntime) -> Result<(), Fail> {
    let heap = rt.alloc();
    let basic = repeated(heap, &BASIC, &[3, 0, 0], 1)?;
    let composite = repeated(heap, &COMPOSITE, &[6, 0, 1, 0], 1)?;
    accepts(&rt, heap, basic.as_slice(), &[4, 0, 3, 0, 0, 255], 64)?;
    refuses(&rt, heap, basic.as_slice(), &[4, 0, 3, 0, 0, 255], 64)?;
    accepts(
        &rt,
        heap,
        composite.as_slice(),
        &[7, 0, 4, 255, 0, 0, 0],
        64,
    )?;
    refuses(
        &rt,
        heap,
        composite.as_slice(),
        &[7, 0, 4, 255, 0, 0, 0],
        64,
    )
}

// The amounts of sixteen algorithms, and of seventeen.
#[test]
fn amounts(rt: HostRuntime) -> Result<(), Fail> {
    let heap = rt.alloc();
    let sixteen = repeated(heap, &[1, 0, 3, 1, 1, 1, 2, 0, 64], &[0, 0, 0, 7], 16)?;
    accepts(&rt, heap, sixteen.as_slice(), &[3, 0, 0], 1)?;
    let more = repeated(heap, &[1, 0, 3, 1, 1, 1, 2, 0, 68], &[0, 0, 0, 7], 17)?;
    let sheet = repeated(heap, more.as_slice(), &[3, 0, 0], 1)?;
    assert_eq!(rt; checked(sheet.as_slice()), Err(Refusal::Grammar { at: 6 }));
    Ok(())
}

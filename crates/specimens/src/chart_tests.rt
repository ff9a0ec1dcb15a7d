// A chart whose event leads to one state alone and to one that a free transition leaves, and lists of 16 and of 17 entries of which none covers another, in ticks with keep.
ghost use Rattle.std.specs.Prelude.{◌≤◌, length};

use crate::entries::entry;
use charts::card::card;
use charts::names::names;
use charts::refusal::Refusal;
use costs::entry::Entry;
use costs::keep::Keep;
use costs::measure::Measure;
use costs::ticks::Ticks;
use sheets::opened::Checked;
use sheets::width::Width;
use sheets::words::Kind;
use std::alloc::{AllocError, Global};
use std::test::Fail;

// The answer of the working, or what its numbers are refused for; none where the sheet is refused before, or is another kind's.
fn worked(
    bytes: &[u8],
    rows: &mut [Entry<Ticks>],
    out: &mut [Entry<Ticks>],
) -> Option<Result<[usize; 8], Refusal>>
    requires { (3072 ≤ length rows.old) × (128 ≤ length out.old) }
{
    let sheet = Checked::read(bytes, Width::new(4)?).ok()?;
    if let Err(refusal) = names(&sheet) {
        return Some(Err(refusal));
    }
    if let Kind::Composite = sheet.interface().kind {
        return None;
    }
    Some(card::<Ticks, Keep>(&sheet, rows, out))
}

// How long the list of event 0 is, or what is answered instead.
fn length_of(heap: Global, bytes: &[u8]) -> Result<Option<Result<usize, Refusal>>, AllocError> {
    let mut rows = vec![in heap; Entry::zero(); 3072]?;
    let mut out = vec![in heap; Entry::zero(); 128]?;
    Ok(worked(bytes, &mut rows, &mut out).map(|answer| answer.map(|lens| lens[0])))
}

// A state without actions, then so many that each send two outputs, no two the same pair.
fn pairs(heap: Global, many: u8) -> Result<Vec<u8>, AllocError> {
    let mut sheet = vec![in heap; 1, 0, 3, 1, 1, 8, 2, 0, 0, 3, 0, 0]?;
    for k in 0..many {
        let a = k % 8;
        let b = (a + 1 + k / 8) % 8;
        sheet.extend_from_slice(&[3, 0, 4, 255, a, 255, b])?;
    }
    Ok(sheet)
}

// Transitions from state 0 to each of them, all guarded by the event, or event-free by 255; then one that event 0 guards.
fn branches(heap: Global, many: u8, event: u8) -> Result<Vec<u8>, AllocError> {
    let mut sheet = pairs(heap, many)?;
    for k in 0..many {
        sheet.extend_from_slice(&[4, 0, 3, 0, k.saturating_add(1), event])?;
    }
    if event == 255 {
        sheet.extend_from_slice(&[4, 0, 3, 0, 0, 0])?;
    }
    Ok(sheet)
}

#[test]
fn too_long_at_state(rt: HostRuntime) -> Result<(), Fail> {
    let heap = rt.alloc();
    let sheet = branches(heap, 17, 255)?;
    assert_eq!(rt;
        length_of(heap, &sheet)?,
        Some(Err(Refusal::TooLong { place: 0 }))
    );
    let sheet = branches(heap, 16, 255)?;
    assert_eq!(rt; length_of(heap, &sheet)?, Some(Ok(16)));
    Ok(())
}

#[test]
fn too_long_at_event(rt: HostRuntime) -> Result<(), Fail> {
    let heap = rt.alloc();
    let sheet = branches(heap, 17, 0)?;
    assert_eq!(rt;
        length_of(heap, &sheet)?,
        Some(Err(Refusal::TooLong { place: 256 }))
    );
    let sheet = branches(heap, 16, 0)?;
    assert_eq!(rt; length_of(heap, &sheet)?, Some(Ok(16)));
    Ok(())
}

#[test]
fn published_chart(rt: HostRuntime) -> Result<(), Fail> {
    let heap = rt.alloc();
    let mut rows = vec![in heap; Entry::zero(); 3072]?;
    let mut out = vec![in heap; Entry::zero(); 128]?;
    let sheet = vec![in heap;
        1, 0, 3, 1, 1, 2, 2, 0, 12, 0, 0, 0, 10, 0, 0, 0, 3, 0, 0, 0, 5, 3, 0, 0, 3, 0, 2, 0, 0, 3,
        0, 2, 1, 0, 3, 0, 2, 2, 1, 4, 0, 3, 0, 1, 0, 4, 0, 3, 0, 2, 0, 4, 0, 3, 2, 3, 255,
    ]?;
    let lens = worked(&sheet, &mut rows, &mut out).and_then(|answer| answer.ok());
    assert_eq!(rt; lens.map(|lens| lens[0]), Some(2));
    assert_eq!(rt; out[0], entry(10, &[1]));
    assert_eq!(rt; out[1], entry(8, &[1, 1]));
    Ok(())
}

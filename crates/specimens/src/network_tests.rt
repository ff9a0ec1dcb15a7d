// Composites of two instances of one block, worked with ticks and keep.
ghost use Rattle.std.specs.Prelude.{◌≤◌, length, if◌then◌else◌, nat_eq};
ghost use Rattle.costs.specs.Lists.{Sized};

use crate::entries::entry;
use crate::network_sheets::{CIRCLE, FEEDBACK, MANY, SELF_LOOP, UNCOUNTED};
use costs::entry::Entry;
use costs::keep::Keep;
use costs::measure::Measure;
use costs::ticks::Ticks;
use networks::beneath::{Beneath, Face};
use networks::card::card;
use networks::naming::names;
use networks::refusal::Refusal;
use sheets::opened::Checked;
use sheets::width::Width;

// The block of both instances has two inputs and two outputs: one entry for event 0, two for event 1.
#[derive(Drop)]
struct Blocks {
    first: [Entry<Ticks>; 1],
    other: [Entry<Ticks>; 2],
}

impl Beneath<Ticks> for Blocks {
    ghost faces = { λ b i. record { inputs = 2; outputs = 2 } };

    ghost cards = { λ b i f. (if nat_eq f 0 then b.first else b.other) };

    ghost runs = { λ b i f a ns. ⊥ };

    fn face(&self, i: usize) -> Face {
        Face {
            inputs: 2,
            outputs: 2,
        }
    }

    fn card(&self, i: usize, f: usize) -> &[Entry<Ticks>] {
        if f == 0 { &self.first } else { &self.other }
    }
}

// The answer of the working; none where the sheet is refused before.
fn worked(
    bytes: &[u8],
    blocks: &Blocks,
    out: &mut [Entry<Ticks>],
) -> Option<Result<[usize; 8], Refusal>>
    requires lists { Sized blocks.now.first × Sized blocks.now.other }
    requires out { 128 ≤ length out.old }
{
    let sheet = Checked::read(bytes, Width::new(4)?).ok()?;
    names::<Ticks, Blocks>(&sheet, blocks).ok()?;
    let mut rows = [Entry::zero(); 3072];
    Some(card::<Ticks, Keep, Blocks>(&sheet, blocks, &mut rows, out))
}

// Event 0 costs 10 and sends output 0, event 1 costs 5 and sends output 1.
fn plain_blocks() -> Blocks
    ensures { Sized result.first × Sized result.other }
{
    Blocks {
        first: [entry(10, &[1])],
        other: [entry(5, &[0, 1]), entry(5, &[0, 1])],
    }
}

// The amount of the one entry for event 0, in ticks, and its count at output 0; none where there is no such card.
fn alone(bytes: &[u8]) -> Option<(u32, u8)> {
    let mut out = [Entry::zero(); 128];
    let lens = worked(bytes, &plain_blocks(), &mut out)?.ok()?;
    (lens[0] == 1).then_some((out[0].amount.value, out[0].counts.count(0)))
}

// From outside straight outside.
const STRAIGHT: [u8; 17] = [1, 0, 3, 3, 1, 1, 6, 0, 1, 0, 7, 0, 4, 255, 0, 255, 0];

#[test]
fn accepted(rt: HostRuntime) {
    assert_eq!(rt; alone(&FEEDBACK), Some((25, 1)));
    assert_eq!(rt; alone(&SELF_LOOP), Some((15, 1)));
    assert_eq!(rt; alone(&UNCOUNTED), Some((10, 0)));
    assert_eq!(rt; alone(&STRAIGHT), Some((0, 1)));
}

#[test]
fn circle(rt: HostRuntime) {
    let mut out = [Entry::zero(); 128];
    let answer = worked(&CIRCLE, &plain_blocks(), &mut out);
    assert_eq!(rt; answer, Some(Err(Refusal::Circle { place: 0 })));
}

// So many events to (30; 1), (10; 2): the length of the list.
fn events(n: u8) -> Option<Result<usize, Refusal>> {
    let blocks = Blocks {
        first: [entry(0, &[n])],
        other: [entry(30, &[1]), entry(10, &[2])],
    };
    let mut out = [Entry::zero(); 128];
    worked(&MANY, &blocks, &mut out).map(|answer| answer.map(|lens| lens[0]))
}

#[test]
fn many_events(rt: HostRuntime) {
    assert_eq!(rt; events(15), Some(Ok(16)));
    assert_eq!(rt; events(16), Some(Err(Refusal::TooLong { place: 0 })));
}

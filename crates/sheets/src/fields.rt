// The fields of some bytes in turn, each with its place.
ghost use Rattle.std.specs.Prelude.{◌≡◌, ◌+◌, ◌<◌, ◌^◌, length};
ghost use Rattle.std.specs.Iterator.{YieldsFirstBy, item_count};
ghost use Rattle.sheets.specs.Frames.{fields, laid};
ghost use Rattle.sheets.specs.Parts.{raw};

use crate::part::{Part, first};

// A field, and the offsets at which it begins and ends, in bytes.
#[derive(Clone, Copy)]
pub struct Placed<'a> {
    pub at: usize,
    pub part: Part<'a>,
    pub end: usize,
    ghost long: { end ≡ at + (3 + length part.content.now) },
}

// The fields that are left of some bytes: none after the last one that ends within them.
#[derive(Clone, Copy)]
pub struct Fields<'a> {
    rest: &'a [u8],
    // the offset at which they begin
    at: usize,
    ghost within: { at + length rest.now < 2 ^ 64 },
}

impl<'a> Fields<'a> {
    // All fields of the bytes, from the first.
    pub fn of(bytes: &'a [u8]) -> Fields<'a>
        ensures { laid result.at (fields result.rest.now) ≡ laid 0 (fields bytes.now) }
    {
        Fields { rest: bytes, at: 0 }
    }
}

impl<'a> Iterator for Fields<'a> {
    type Item = Placed<'a>;

    ghost next_gives = { YieldsFirstBy (λ p. (p.at, raw p.part)) (λ s. laid s.at (fields s.rest.now)) };

    ghost remaining = { item_count (λ s. laid s.at (fields s.rest.now)) };

    fn next(&mut self) -> Option<Placed<'a>> {
        let (part, rest) = first(self.rest)?;
        let at = self.at;
        let end = at + (3 + part.content.len());
        *self = Fields { rest, at: end };
        Some(Placed { at, part, end })
    }
}

// What the check of the grammar remembers of the fields before.
ghost use Rattle.std.specs.Prelude.{◌≤◌};

use crate::words::Kind;

// The interface, the highest tag, how many of each tag, and how many entries of each event.
#[derive(Clone, Copy)]
pub(crate) struct Seen {
    pub(crate) kind: Kind,
    pub(crate) inputs: u8,
    pub(crate) outputs: u8,
    // by its number, as the next field's is compared
    pub(crate) last: u8,
    pub(crate) counts: [u8; 8],
    pub(crate) entries: [u8; 8],
    ghost few: { inputs ≤ 8 },
}

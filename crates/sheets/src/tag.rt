// Which fields a sheet has, by the byte that stands first in each.
ghost use Rattle.std.specs.Prelude.{◌≡◌, ◌<◌, ◌⊎◌, MatchResult};
ghost use Rattle.sheets.specs.Tags.{number};
ghost use Rattle.sheets.specs.Sheets.{tag_of};

use crate::words::Item;

// In the order in which they stand in a sheet.
#[derive(Clone, Copy, PartialEq, Eq, Debug)]
pub(crate) enum Tag {
    Interface = 1,
    Amounts,
    State,
    Transition,
    Entry,
    Instance,
    Connection,
}

impl Tag {
    // The byte.
    pub(crate) fn number(self) -> u8
        ensures value { result ≡ number self }
        ensures few { result < 8 }
    {
        self as u8
    }
}

// A byte that is no field's comes back.
impl TryFrom<u8> for Tag {
    type Error = u8;

    ghost try_from_gives = { λ byte result. MatchResult result (λ tag. number tag ≡ byte) (λ _. (byte ≡ 0) ⊎ (7 < byte)) };

    fn try_from(byte: u8) -> Result<Tag, u8> {
        match byte {
            1 => Ok(Tag::Interface),
            2 => Ok(Tag::Amounts),
            3 => Ok(Tag::State),
            4 => Ok(Tag::Transition),
            5 => Ok(Tag::Entry),
            6 => Ok(Tag::Instance),
            7 => Ok(Tag::Connection),
            _ => Err(byte),
        }
    }
}

impl From<Item> for Tag {
    ghost from_gives = { λ item tag. number tag ≡ tag_of item };

    fn from(item: Item) -> Tag {
        match item {
            Item::State => Tag::State,
            Item::Transition => Tag::Transition,
            Item::Entry => Tag::Entry,
            Item::Instance => Tag::Instance,
            Item::Connection => Tag::Connection,
        }
    }
}

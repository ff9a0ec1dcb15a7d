// Looking a field up by its tag, and what it yields.
ghost use Rattle.std.specs.Prelude.{◌≡◌, length};
ghost use Rattle.std.specs.Option.{option_map};
ghost use Rattle.std.specs.List.{slice_get};
ghost use Rattle.sheets.specs.Frames.{fields};
ghost use Rattle.sheets.specs.Places.{found_at};
ghost use Rattle.sheets.specs.Shown.{said};
ghost use Rattle.sheets.specs.Reading.{said_at};
ghost use Rattle.sheets.specs.Tags.{number};
ghost use Rattle.sheets.specs.Sheets.{placed, tagged, amounts_at, actions_at};

use crate::field::{Field, optional, read};
use crate::fields::{Fields, Placed};
use crate::tag::Tag;
use crate::width::Width;
use crate::words::Action;

// The k-th field of a tag, with its place.
pub(crate) fn find<'a>(bytes: &'a [u8], tag: Tag, k: usize) -> Option<Placed<'a>>
    ensures { found_at result ≡ slice_get (placed (number tag) 0 (fields bytes.now)) k }
{
    Fields::of(bytes)
        .filter(|field| field.part.tag == tag.number())
        .nth(k)
}

// How many fields have the tag.
pub(crate) fn count_parts(bytes: &[u8], tag: Tag) -> usize
    ensures { result ≡ length (tagged (number tag) (fields bytes.now)) }
{
    Fields::of(bytes)
        .filter(|field| field.part.tag == tag.number())
        .count()
}

// What the k-th field of a tag says.
pub(crate) fn field<'a>(bytes: &'a [u8], tag: Tag, k: usize) -> Option<Field<'a>>
    ensures { option_map said result ≡ said_at (number tag) k bytes.now }
{
    read(find(bytes, tag, k)?.part)
}

// Part k of the content, each part as wide as an amount.
pub(crate) fn piece<'a>(content: &'a [u8], width: Width, k: usize) -> Option<&'a [u8]>
    ensures { option_map (λ a. a.now) result ≡ slice_get (amounts_at width.bytes content.now) k }
{
    // by its place, since going through the parts before it takes a step for each
    let at = k.checked_mul(width.bytes)?;
    content.get(at..)?.get(..width.bytes)
}

pub(crate) fn action_at(content: &[u8], j: usize) -> Option<Action>
    ensures { result ≡ slice_get (actions_at content.now) j }
{
    let action = content.chunks_exact(2).nth(j)?;
    Some(Action {
        algorithm: optional(action[0]),
        output: optional(action[1]),
    })
}

// What a checked sheet says, item by item. Each reader walks the fields from the front.
ghost use Rattle.std.specs.Prelude.{◌≡◌, ◌≤◌, [], length, MatchOption, slice_index_or};
ghost use Rattle.std.specs.Option.{option_map};
ghost use Rattle.std.specs.List.{slice_get};
ghost use Rattle.sheets.specs.Form.{AmountAt};
ghost use Rattle.sheets.specs.Reading.{said_at, as_amounts, as_actions};
ghost use Rattle.sheets.specs.Shown.{shown_entry};
ghost use Rattle.sheets.specs.Sheets.{count_of, offsets_of, sheet_of};

use crate::field::{Field, ServiceEntry};
use crate::lookup::*;
use crate::opened::Checked;
use crate::tag::Tag;
use crate::width::Width;
use crate::words::{Action, Connection, Interface, Item, Transition};

// The interface takes six bytes, and the tag and length of the amounts' field three.
const AMOUNTS: usize = 9;

impl<'a> Checked<'a> {
    // The sheet's length, in bytes.
    pub fn len(&self) -> usize
        ensures { result ≡ length self.now.bytes.now }
    {
        self.bytes.len()
    }

    // How many bytes an amount of this sheet takes.
    pub fn width(&self) -> Width
        ensures { result ≡ self.now.width }
    {
        self.width
    }

    // The kind of block, its inputs and its outputs.
    pub fn interface(&self) -> Interface
        ensures { result ≡ (sheet_of self.now.width.bytes self.now.bytes.now).face }
    {
        field(self.bytes, Tag::Interface, 0)
            .unwrap()
            .as_interface()
            .unwrap()
    }

    // How many of an item there are.
    pub fn count(&self, item: Item) -> usize
        ensures { result ≡ count_of item (sheet_of self.now.width.bytes self.now.bytes.now) }
    {
        count_parts(self.bytes, item.into())
    }

    // The offset of the k-th of an item, in bytes.
    pub fn offset(&self, item: Item, k: usize) -> Option<usize>
        ensures { result ≡ slice_get (offsets_of item self.now.bytes.now) k }
    {
        find(self.bytes, item.into(), k).map(|field| field.at)
    }

    // All amounts, one after another.
    fn amount_bytes(&self) -> &'a [u8]
        ensures { result.now ≡ as_amounts (said_at 2 0 self.now.bytes.now) }
    {
        field(self.bytes, Tag::Amounts, 0)
            .map(Field::as_amounts)
            .unwrap_or(&[])
    }

    // How many algorithms have an amount.
    pub fn amounts(&self) -> usize
        ensures { result ≡ length (sheet_of self.now.width.bytes self.now.bytes.now).amounts }
    {
        self.amount_bytes().len() / self.width.bytes
    }

    // The bytes of the amount of algorithm k.
    pub fn amount(&self, k: usize) -> Option<&'a [u8]>
        ensures { option_map (λ a. a.now) result ≡ slice_get (sheet_of self.now.width.bytes self.now.bytes.now).amounts k }
    {
        piece(self.amount_bytes(), self.width, k)
    }

    // Where the amount of algorithm k stands, in bytes from the sheet's first: other bytes of its width may be written there.
    pub fn amount_place(&self, k: usize) -> Option<usize>
        ensures { MatchOption result (length (sheet_of self.now.width.bytes self.now.bytes.now).amounts ≤ k) (AmountAt self.now.width.bytes self.now.bytes.now k) }
    {
        if k >= self.amounts() {
            return None;
        }
        Some(AMOUNTS + k * self.width.bytes)
    }

    // The actions of state k, two bytes each; none where there is no such state.
    fn action_bytes(&self, k: usize) -> &'a [u8]
        ensures { result.now ≡ as_actions (said_at 3 k self.now.bytes.now) }
    {
        field(self.bytes, Tag::State, k)
            .map(Field::as_actions)
            .unwrap_or(&[])
    }

    // How many actions state k has.
    pub fn actions(&self, k: usize) -> usize
        ensures { result ≡ length (slice_index_or (sheet_of self.now.width.bytes self.now.bytes.now).states k []) }
    {
        self.action_bytes(k).len() / 2
    }

    // Action j of state k.
    pub fn action(&self, k: usize, j: usize) -> Option<Action>
        ensures { result ≡ slice_get (slice_index_or (sheet_of self.now.width.bytes self.now.bytes.now).states k []) j }
    {
        action_at(self.action_bytes(k), j)
    }

    pub fn transition(&self, k: usize) -> Option<Transition>
        ensures { result ≡ slice_get (sheet_of self.now.width.bytes self.now.bytes.now).transitions k }
    {
        field(self.bytes, Tag::Transition, k)?.as_transition()
    }

    // Entry k of a service block.
    pub fn entry(&self, k: usize) -> Option<ServiceEntry<'a>>
        ensures { option_map shown_entry result ≡ slice_get (sheet_of self.now.width.bytes self.now.bytes.now).entries k }
    {
        field(self.bytes, Tag::Entry, k)?.as_entry(self.width)
    }

    // The number of the block of instance k.
    pub fn instance(&self, k: usize) -> Option<u8>
        ensures { result ≡ slice_get (sheet_of self.now.width.bytes self.now.bytes.now).instances k }
    {
        field(self.bytes, Tag::Instance, k)?.as_instance()
    }

    pub fn connection(&self, k: usize) -> Option<Connection>
        ensures { result ≡ slice_get (sheet_of self.now.width.bytes self.now.bytes.now).connections k }
    {
        field(self.bytes, Tag::Connection, k)?.as_connection()
    }
}

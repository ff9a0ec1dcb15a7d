// The lines of lists and cards that stand in rows.
ghost use Rattle.std.specs.Prelude.{◌≡◌, ◌<◌, ◌++◌, take, drop, string_bytes, OnOk};
ghost use Rattle.networks.specs.Rows.{list_at};
ghost use Rattle.listing.specs.Cards.{row_line, list_lines, card_lines, block_lines, rows_lines};

use crate::amount::Spelt;
use crate::lines::push_entry;
use costs::entry::Entry;
use library::row::Row;
use std::alloc::AllocError;

// The first n, or all if there are fewer.
pub(crate) fn front<T>(xs: &[T], n: usize) -> &[T]
    ensures { result.now ≡ take n xs.now }
{
    &xs[..n.min(xs.len())]
}

// Those from one on; none if there are fewer.
fn rest_from<T>(xs: &[T], at: usize) -> &[T]
    ensures { result.now ≡ drop at xs.now }
{
    xs.get(at..).unwrap_or(&[])
}

// The list of event e in a card's rows.
fn list_of<'a, M>(rows: &'a [Entry<M>], lens: &[usize], e: u8) -> &'a [Entry<M>]
    ensures { result.now ≡ list_at rows.now lens.now e }
{
    let len = lens.get(e as usize).copied().unwrap_or(0);
    front(rest_from(rows, 16 * e as usize), len)
}

// What the lines of a card share: the word that they begin with, the block, where it is told, and how many outputs the block has.
#[derive(Clone, Copy)]
pub struct Heading<'a> {
    pub word: &'a str,
    pub block: Option<usize>,
    pub outputs: usize,
}

impl Heading<'_> {
    // The line of one entry: the block, where it is told, the event, the position, the amount and the counts.
    fn push_row<M: Spelt>(
        &self,
        text: &mut String,
        event: usize,
        at: usize,
        entry: Entry<M>,
    ) -> Result<(), AllocError>
        ensures { OnOk result (string_bytes text.new ≡ string_bytes text.old ++ row_line M.Spelt.text self.now.word.now self.now.block event at entry self.now.outputs) }
    {
        match self.block {
            Some(n) => push_entry(text, self.word, &[n, event, at], entry, self.outputs),
            None => push_entry(text, self.word, &[event, at], entry, self.outputs),
        }
    }

    // The lines of a list.
    pub fn push_list<M: Spelt>(
        &self,
        text: &mut String,
        event: usize,
        list: &[Entry<M>],
    ) -> Result<(), AllocError>
        ensures { OnOk result (string_bytes text.new ≡ string_bytes text.old ++ list_lines M.Spelt.text self.now.word.now self.now.block event self.now.outputs 0 list.now) }
    {
        for (at, entry) in list.iter().enumerate() {
            self.push_row(text, event, at, *entry)?;
        }
        Ok(())
    }

    // The lines of a card with so many inputs that stands at the front of these rows.
    pub fn push_card<M: Spelt>(
        &self,
        text: &mut String,
        rows: &[Entry<M>],
        lens: &[usize],
        inputs: u8,
    ) -> Result<(), AllocError>
        ensures { OnOk result (string_bytes text.new ≡ string_bytes text.old ++ card_lines M.Spelt.text self.now.word.now self.now.block self.now.outputs (list_at rows.now lens.now) 0 inputs) }
    {
        // by number: a list stands where its event's number says, whatever the lengths of the others
        for e in 0..inputs {
            self.push_list(text, e as usize, list_of(rows, lens, e))?;
        }
        Ok(())
    }
}

// The lines of block n's card, if it is current; 128 rows hold a block's card.
fn push_block<M: Spelt>(
    text: &mut String,
    n: usize,
    row: &Row,
    cards: &[Entry<M>],
) -> Result<(), AllocError>
    requires { n < 64 }
    ensures { OnOk result (string_bytes text.new ≡ string_bytes text.old ++ block_lines M.Spelt.text cards.now n row.now) }
{
    if row.old {
        return Ok(());
    }
    let heading = Heading {
        word: "card",
        block: Some(n),
        outputs: row.outputs as usize,
    };
    heading.push_card(text, rest_from(cards, 128 * n), &row.lens, row.inputs)
}

// The lines of all current cards, in the order of their blocks.
pub fn push_cards<M: Spelt>(
    text: &mut String,
    index: &[Row],
    cards: &[Entry<M>],
) -> Result<(), AllocError>
    ensures { OnOk result (string_bytes text.new ≡ string_bytes text.old ++ rows_lines M.Spelt.text cards.now 0 (take 64 index.now)) }
{
    let blocks = front(index, 64);
    for (n, row) in blocks.iter().enumerate() {
        if !row.used {
            return Ok(());
        }
        push_block(text, n, row, cards)?;
    }
    Ok(())
}

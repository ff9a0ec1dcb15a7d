// A line about an entry: a word, numbers, the amount, and the counts of a block's outputs.
ghost use Rattle.std.specs.Prelude.{◌≡◌, ◌++◌, string_bytes, OnOk};
ghost use Rattle.listing.specs.Lines.{words, entry_line};

use crate::amount::Spelt;
use costs::entry::Entry;
use std::alloc::AllocError;

// Numbers, each behind a blank.
pub fn push_words(text: &mut String, numbers: &[usize]) -> Result<(), AllocError>
    ensures { OnOk result (string_bytes text.new ≡ string_bytes text.old ++ words numbers.now) }
{
    for n in numbers {
        write!(text, " {n}")?;
    }
    Ok(())
}

// The line about an entry of a block with so many outputs, eight at most.
pub fn push_entry<M: Spelt>(
    text: &mut String,
    word: &str,
    numbers: &[usize],
    entry: Entry<M>,
    outputs: usize,
) -> Result<(), AllocError>
    ensures { OnOk result (string_bytes text.new ≡ string_bytes text.old ++ entry_line M.Spelt.text word.now numbers.now entry outputs) }
{
    text.push_str(word)?;
    push_words(text, numbers)?;
    write!(text, " {}", entry.amount)?;
    // counts are bytes, where `push_words` takes numbers of 64 bits: one function of both would say less plainly what it writes
    for n in &entry.counts.at[..outputs.min(8)] {
        write!(text, " {n}")?;
    }
    writeln!(text)
}

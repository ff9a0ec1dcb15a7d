// The lines about calls and their answers, about a fault of the file, and about marks.
ghost use Rattle.std.specs.Prelude.{◌≡◌, ◌++◌, None, codes, take, string_bytes, OnOk};
ghost use Rattle.library.specs.Calls.{asked};
ghost use Rattle.library.specs.Refusals.{told as as_told};
ghost use Rattle.library.specs.Tables.{row_at};
ghost use Rattle.listing.specs.Answers.{tag_of, outputs_of, outputs_asked, event_asked, number_line, refusal_line, word_line, answer_lines, answers_lines, fault_line, mark_word, mark_lines};

use crate::amount::Spelt;
use crate::cards::{Heading, front};
use crate::lines::push_words;
use crate::told::Told;
use costs::entry::Entry;
use costs::measure::Measure;
use library::calls::{Accepted, Answer, Call};
use library::refusal::Refusal;
use library::row::Row;
use sheets::opened::Checked;
use sheets::width::Width;
use std::alloc::AllocError;

// The tags of the calls in a file, which its format fixes; a line about a call begins with its tag.
pub const ENTER: u8 = 9;

pub const PREVIEW: u8 = 10;

pub const RETIME: u8 = 11;

pub const REWORK: u8 = 12;

pub const CARD: u8 = 13;

// The tag of a call.
fn tag(call: &Call<'_>) -> u8
    ensures { result ≡ tag_of (asked call.now) }
{
    match call {
        Call::Enter { .. } => ENTER,
        Call::Preview { .. } => PREVIEW,
        Call::Retime { .. } => RETIME,
        Call::Rework { .. } => REWORK,
        Call::Card { .. } => CARD,
    }
}

// How many outputs the block of a sheet has; none if the bytes make no sheet.
fn sheet_outputs<M: Measure>(sheet: &[u8]) -> usize
    ensures { result ≡ outputs_of M.Measure.wide sheet.now }
{
    let width = Width::new(M::width()).unwrap();
    Checked::read(sheet, width).map_or(0, |sheet| sheet.interface().outputs as usize)
}

// How many outputs the block has whose lists a call asks for.
fn outputs<M: Measure>(index: &[Row], call: &Call<'_>) -> usize
    ensures { result ≡ outputs_asked M.Measure.wide index.now (asked call.now) }
{
    match call {
        Call::Preview { sheet, .. } => sheet_outputs::<M>(sheet),
        Call::Card { block, .. } => index.get(*block).map_or(0, |row| row.outputs as usize),
        _ => 0,
    }
}

// The event asked for.
fn event(call: &Call<'_>) -> usize
    ensures { result ≡ event_asked (asked call.now) }
{
    match call {
        Call::Card { event, .. } => *event,
        _ => 0,
    }
}

// A line of numbers, the tag first.
fn push_numbers(text: &mut String, tag: u8, numbers: &[usize]) -> Result<(), AllocError>
    ensures { OnOk result (string_bytes text.new ≡ string_bytes text.old ++ number_line tag numbers.now) }
{
    write!(text, "{tag}")?;
    push_words(text, numbers)?;
    writeln!(text)
}

// A line with a word and a number.
fn push_word(text: &mut String, word: &str, n: usize) -> Result<(), AllocError>
    ensures { OnOk result (string_bytes text.new ≡ string_bytes text.old ++ word_line word.now n) }
{
    writeln!(text, "{word} {n}")
}

// The line of a refusal: tag, refusal, level and place.
fn push_refused(text: &mut String, tag: u8, refusal: Refusal) -> Result<(), AllocError>
    ensures { OnOk result (string_bytes text.new ≡ string_bytes text.old ++ refusal_line tag (as_told refusal)) }
{
    let told = Told::from(refusal);
    push_numbers(text, tag, &[told.number, told.level, told.place])
}

// What stands at the head of each entry of a call's lists. It is made where there are lists alone: the outputs of a preview take both checks of its sheet.
fn entries<M: Measure>(index: &[Row], call: &Call<'_>) -> Heading<'static>
    ensures word { result.word.now ≡ codes "entry" }
    ensures block { result.block ≡ None }
    ensures outputs { result.outputs ≡ outputs_asked M.Measure.wide index.now (asked call.now) }
{
    Heading {
        word: "entry",
        block: None,
        outputs: outputs::<M>(index, call),
    }
}

// The lines of an answer; its lists stand in these rows.
fn push_answer<M: Spelt>(
    text: &mut String,
    index: &[Row],
    call: &Call<'_>,
    answer: &Answer,
    rows: &[Entry<M>],
) -> Result<(), AllocError>
    ensures { OnOk result (string_bytes text.new ≡ string_bytes text.old ++ answer_lines M.Spelt.text M.Measure.wide index.now (asked call.now) answer.now rows.now) }
{
    match answer {
        Ok(Accepted::Entered { block }) => push_numbers(text, tag(call), &[0, *block]),
        Ok(Accepted::Previewed { lens }) => {
            push_numbers(text, tag(call), &[0])?;
            entries::<M>(index, call).push_card(text, rows, lens, 8)
        }
        Ok(Accepted::Done) => push_numbers(text, tag(call), &[0]),
        Ok(Accepted::Shown { len }) => {
            push_numbers(text, tag(call), &[0, *len])?;
            entries::<M>(index, call).push_list(text, event(call), front(rows, *len))
        }
        Err(refusal) => push_refused(text, tag(call), *refusal),
    }
}

// The lines of all answers, each with the rows that its call took.
pub fn push_answers<M: Spelt>(
    text: &mut String,
    index: &[Row],
    calls: &[Call<'_>],
    answers: &[Answer],
    out: &[Entry<M>],
) -> Result<(), AllocError>
    ensures { OnOk result (string_bytes text.new ≡ string_bytes text.old ++ answers_lines M.Spelt.text M.Measure.wide index.now calls.now answers.now out.now) }
{
    let mut rest = out;
    for (call, answer) in calls.iter().zip(answers) {
        let (rows, after) = rest.split_at(call.taken(rest.len()));
        push_answer(text, index, call, answer, rows)?;
        rest = after;
    }
    Ok(())
}

// Where reading ended, if that is before the end of the file.
pub fn push_fault(text: &mut String, end: usize, total: usize) -> Result<(), AllocError>
    ensures { OnOk result (string_bytes text.new ≡ string_bytes text.old ++ fault_line end total) }
{
    if end == total {
        Ok(())
    } else {
        push_word(text, "file", end)
    }
}

// The word of a mark.
fn mark_word(old: bool) -> &'static str
    ensures { result.now ≡ mark_word old }
{
    if old { "stale" } else { "current" }
}

// A line for each block, whether its card is current.
pub fn push_marks(text: &mut String, index: &[Row]) -> Result<(), AllocError>
    ensures { OnOk result (string_bytes text.new ≡ string_bytes text.old ++ mark_lines 0 (take 64 index.now)) }
{
    for (n, row) in front(index, 64).iter().enumerate() {
        if !row.used {
            return Ok(());
        }
        push_word(text, mark_word(row.old), n)?;
    }
    Ok(())
}

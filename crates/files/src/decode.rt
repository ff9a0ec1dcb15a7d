// The calls of a file.
ghost use Rattle.std.specs.Prelude.{◌≡◌, ◌-◌, ◌^◌, min, map, IfOk};
ghost use Rattle.sheets.specs.Frames.{fields};
ghost use Rattle.sheets.specs.Parts.{raw};
ghost use Rattle.files.specs.Files.{made_of, shown_call, retime_of, rework_of, card_of, call_of, calls_of, end_of, rows_asked};

use crate::form::Form;
use library::calls::Call;
use listing::answers::{CARD, ENTER, PREVIEW, RETIME, REWORK};
use sheets::fields::Fields;
use sheets::part::Part;
use sheets::width::Width;
use std::alloc::{AllocError, Global};

// How many rows a call is lent to work in.
pub(crate) const ROWS: usize = 3072;

// Block, algorithm and the amount's bytes.
fn read_retime<'a>(content: &'a [u8]) -> Option<Call<'a>>
    ensures { shown_call result ≡ retime_of content.now }
{
    let [block, algorithm, amount @ ..] = content else {
        return None;
    };
    Some(Call::Retime {
        block: *block as usize,
        algorithm: *algorithm as usize,
        amount,
    })
}

// The block alone.
fn read_rework<'a>(content: &'a [u8]) -> Option<Call<'a>>
    ensures { shown_call result ≡ rework_of content.now }
{
    let [block] = content else {
        return None;
    };
    Some(Call::Rework {
        block: *block as usize,
        rows: ROWS,
    })
}

// Block and event.
fn read_card<'a>(content: &'a [u8]) -> Option<Call<'a>>
    ensures { shown_call result ≡ card_of content.now }
{
    let [block, event] = content else {
        return None;
    };
    Some(Call::Card {
        block: *block as usize,
        event: *event as usize,
        out: 16,
    })
}

// The call of a field in a file of this form; none if it holds no such tag, or the content does not have the tag's length.
fn read_call<'a>(form: Form, part: Part<'a>) -> Option<Call<'a>>
    ensures { shown_call result ≡ call_of form (raw part.entry) }
{
    match (form, part.tag) {
        (_, ENTER) => Some(Call::Enter {
            sheet: part.content,
            rows: ROWS,
        }),
        (Form::Report, _) => None,
        (Form::Journal, PREVIEW) => Some(Call::Preview {
            sheet: part.content,
            width: Width { bytes: 4 },
            rows: ROWS,
            out: 128,
        }),
        (Form::Journal, RETIME) => read_retime(part.content),
        (Form::Journal, REWORK) => read_rework(part.content),
        (Form::Journal, CARD) => read_card(part.content),
        (Form::Journal, _) => None,
    }
}

// The calls, up to the first field that makes none, and the offset in bytes behind them.
pub(crate) fn decode<'a>(
    heap: Global,
    form: Form,
    bytes: &'a [u8],
) -> Result<(Vec<Call<'a>>, usize), AllocError>
    ensures calls { IfOk result (λ p. map made_of p.0.items ≡ calls_of form (fields bytes.now)) }
    ensures end { IfOk result (λ p. p.1 ≡ end_of form 0 (fields bytes.now)) }
{
    let mut calls = Vec::new(heap);
    let mut end = 0;
    for field in Fields::of(bytes) {
        let Some(call) = read_call(form, field.part) else {
            return Ok((calls, end));
        };
        // the error is converted before `?`: a `?` that converts what gives a call back is not proved in this loop
        calls.push(call).map_err(AllocError::from)?;
        end = field.end;
    }
    Ok((calls, end))
}

// How many of the caller's rows the calls take in all.
pub(crate) fn rows_taken(calls: &[Call<'_>]) -> usize
    ensures { result ≡ min (rows_asked calls.now) (2 ^ 64 - 1) }
{
    calls
        .iter()
        .fold(0usize, |n, call| n.saturating_add(call.taken(usize::MAX)))
}

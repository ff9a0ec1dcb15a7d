// What the report answers for each sheet of a file.
ghost use Rattle.std.specs.Prelude.{◌≡◌, length, IfOk};
ghost use Rattle.report.specs.Lines.{answer_of, lines_of};

use crate::line::Line;
use sheets::fields::Fields;
use sheets::opened::Checked;
use sheets::width::Width;
use std::alloc::{AllocError, Global};

// The tag of a sheet in a file.
const SHEET: u8 = 9;

// What is said of a checked sheet: its length in bytes.
fn length_of(sheet: &Checked<'_>) -> usize
    ensures { result ≡ length sheet.now.bytes.now }
{
    sheet.len()
}

// What is said of a sheet: checks 1 and 2 come first.
fn answer(bytes: &[u8], width: Width) -> Line
    ensures { result ≡ answer_of width.bytes bytes.now }
{
    match Checked::read(bytes, width) {
        Ok(sheet) => Line::Checked {
            len: length_of(&sheet),
        },
        Err(refusal) => Line::Refused(refusal),
    }
}

// The lines of a file of sheets.
pub fn answers(heap: Global, bytes: &[u8], width: Width) -> Result<Vec<Line>, AllocError>
    ensures { IfOk result (λ v. v.items ≡ lines_of width.bytes bytes.now) }
{
    let mut lines = Vec::new(heap);
    let mut end = 0;
    for field in Fields::of(bytes) {
        if field.part.tag != SHEET {
            lines.push(Line::Fault { at: field.at })?;
            return Ok(lines);
        }
        lines.push(answer(field.part.content, width))?;
        end = field.end;
    }
    if end != bytes.len() {
        lines.push(Line::Fault { at: end })?;
    }
    Ok(lines)
}

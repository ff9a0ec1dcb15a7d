// A line of the report, and how it is spelt.
ghost use Rattle.std.specs.Prelude.{Some};
ghost use Rattle.report.specs.Lines.{spelt};

use sheets::refusal::Refusal;
use std::fmt;

#[derive(Clone, Copy)]
pub enum Line {
    // the sheet passed its checks; its length in bytes
    Checked { len: usize },
    // the sheet is refused
    Refused(Refusal),
    // the file ends within a field, or has a field of another tag, at this offset in bytes
    Fault { at: usize },
}

impl fmt::Display for Line {
    ghost output = { λ line. Some (spelt line) };

    fn fmt<W: fmt::Write>(&self, f: &mut fmt::Formatter<W>) -> fmt::Result {
        match self {
            Line::Checked { len } => write!(f, "checked {len}"),
            Line::Refused(refusal) => {
                let n = refusal.number();
                let l = refusal.level();
                let p = refusal.place();
                write!(f, "9 {n} {l} {p}")
            }
            Line::Fault { at } => write!(f, "file {at}"),
        }
    }
}

// Opened and checked sheets. Checks go by reference and may refuse; the makings cannot.
ghost use Rattle.std.specs.Prelude.{◌≡◌, true, is_ok, IfOk, OnOk};
ghost use Rattle.std.specs.Result.{result_map_both};
ghost use Rattle.sheets.specs.Form.{Form};
ghost use Rattle.sheets.specs.Sheets.{sheet_of};
ghost use Rattle.sheets.specs.Lawful.{Grammatical};
ghost use Rattle.sheets.specs.Split.{Framing};
ghost use Rattle.sheets.specs.Refusals.{framing_of, check_of, both_of};

use crate::fields::Fields;
use crate::refusal::Refusal;
use crate::seen::Seen;
use crate::width::Width;

// Check 1: the first field that runs past the end is refused.
pub fn framing(bytes: &[u8]) -> Result<(), Refusal>
    ensures value { result ≡ framing_of bytes.now }
    ensures means { Framing bytes.now result }
{
    let end = Fields::of(bytes).last().map_or(0, |field| field.end);
    if end == bytes.len() {
        Ok(())
    } else {
        Err(Refusal::Cut { at: end })
    }
}

// Check 2: the first field that cannot follow is refused, or the end where more is needed.
fn grammar(bytes: &[u8], width: Width) -> Result<(), Refusal>
    ensures { result ≡ check_of width.bytes bytes.now }
{
    let mut fields = Fields::of(bytes);
    let mut seen = fields
        .next()
        .and_then(|head| Seen::start(head.part))
        .ok_or(Refusal::Grammar { at: 0 })?;
    // the interface takes six bytes
    let mut end = 6;
    for field in fields {
        if !seen.follow(width, field.part) {
            return Err(Refusal::Grammar { at: field.at });
        }
        end = field.end;
    }
    if seen.complete() {
        Ok(())
    } else {
        Err(Refusal::Grammar { at: end })
    }
}

// A sheet that has passed check 1: its bytes are fields end to end.
#[derive(Drop)]
pub struct Opened<'a> {
    pub(crate) bytes: &'a [u8],
    ghost framed: { is_ok (framing_of bytes.now) ≡ true },
}

impl<'a> Opened<'a> {
    // The making asks that `framing` accepted these bytes.
    pub fn new(bytes: &'a [u8]) -> Opened<'a>
        requires { is_ok (framing_of bytes.now) ≡ true }
        ensures { result.bytes.now ≡ bytes.now }
    {
        Opened { bytes }
    }

    // Check 2 for one width of amounts; a refused sheet stays opened.
    pub fn check(&self, width: Width) -> Result<(), Refusal>
        ensures value { result ≡ check_of width.bytes self.now.bytes.now }
        ensures means { Grammatical width.bytes self.now.bytes.now result }
    {
        grammar(self.bytes, width)
    }

    // The making asks that `check` accepted this width; the opened sheet is used up.
    pub fn into_checked(self, width: Width) -> Checked<'a>
        requires { is_ok (check_of width.bytes self.bytes.now) ≡ true }
        ensures bytes { result.bytes.now ≡ self.entry.bytes.now }
        ensures width { result.width ≡ width }
        ensures form { Form width.bytes (sheet_of width.bytes self.entry.bytes.now) }
    {
        let Opened { bytes } = self;
        Checked { bytes, width }
    }
}

// A sheet that has passed checks 1 and 2 for its width.
#[derive(Drop)]
pub struct Checked<'a> {
    pub(crate) bytes: &'a [u8],
    pub(crate) width: Width,
    ghost framed: { is_ok (framing_of bytes.now) ≡ true },
    ghost right: { is_ok (check_of width.bytes bytes.now) ≡ true },
}

impl<'a> Checked<'a> {
    // Both checks and both makings: the checked sheet, or what the first check that refuses says.
    pub fn read(bytes: &'a [u8], width: Width) -> Result<Checked<'a>, Refusal>
        ensures value { result_map_both (λ _. tt) (λ e. e) result ≡ both_of width.bytes bytes.now }
        ensures bytes { IfOk result (λ s. s.bytes.now ≡ bytes.now) }
        ensures width { IfOk result (λ s. s.width ≡ width) }
        ensures form { OnOk result (Form width.bytes (sheet_of width.bytes bytes.now)) }
    {
        framing(bytes)?;
        let opened = Opened::new(bytes);
        opened.check(width)?;
        Ok(opened.into_checked(width))
    }
}

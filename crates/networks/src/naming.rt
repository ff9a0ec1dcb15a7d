// The checks of a composite against what lies beneath: every connection names something, and none is repeated.
ghost use Rattle.std.specs.Prelude.{◌≡◌, ◌<◌, length, Some, Decides, MatchOption, MatchResult};
ghost use Rattle.std.specs.List.{slice_get};
ghost use Rattle.sheets.specs.Sheets.{offsets_of};
ghost use Rattle.sheets.specs.declared.words.Item.TheVariants.{Connection as OfConnection};
ghost use Rattle.networks.specs.Networks.{says, network_of, Source, Target, NamedConnection, Named};
ghost use Rattle.networks.specs.Refusals.{FirstUnnamed, RepeatedBy, FirstRepeated, Distinct, Misnamed};

use crate::beneath::Beneath;
use crate::net::{connection_at, read_connections};
use crate::refusal::Refusal;
use costs::measure::Measure;
use sheets::opened::Checked;
use sheets::words::{Connection, End, Item};

// Whether the end names an event from outside or an output of an instance.
fn is_source<M: Measure, B: Beneath<M>>(sheet: &Checked<'_>, beneath: &B, s: End) -> bool
    ensures { Decides result (Source (network_of (says sheet.now) (B.faces beneath.now)) s) }
{
    match s {
        End::Outside { port } => port < sheet.interface().inputs,
        End::Inside { instance, port } => (instance as usize) < sheet.count(Item::Instance)
            && (port as usize) < beneath.face(instance as usize).outputs,
    }
}

// Whether the end names an output to outside or a place. One function for this and `is_source` would take the two bounds as parameters, and name each
// of them at both calls.
fn is_target<M: Measure, B: Beneath<M>>(sheet: &Checked<'_>, beneath: &B, t: End) -> bool
    ensures { Decides result (Target (network_of (says sheet.now) (B.faces beneath.now)) t) }
{
    match t {
        End::Outside { port } => port < sheet.interface().outputs,
        End::Inside { instance, port } => (instance as usize) < sheet.count(Item::Instance)
            && (port as usize) < beneath.face(instance as usize).inputs,
    }
}

// Whether both ends of the connection name something.
fn is_named<M: Measure, B: Beneath<M>>(sheet: &Checked<'_>, beneath: &B, c: Connection) -> bool
    ensures { Decides result (NamedConnection (network_of (says sheet.now) (B.faces beneath.now)) c) }
{
    is_source(sheet, beneath, c.source) && is_target(sheet, beneath, c.target)
}

// The first of the sheet's connections with an end that names nothing. Those behind it are not read.
fn unnamed<M: Measure, B: Beneath<M>>(sheet: &Checked<'_>, beneath: &B) -> Option<usize>
    ensures { MatchOption result (Named (network_of (says sheet.now) (B.faces beneath.now))) (FirstUnnamed (network_of (says sheet.now) (B.faces beneath.now))) }
{
    (0..sheet.count(Item::Connection)).find(|k| !is_named(sheet, beneath, connection_at(sheet, *k)))
}

// Whether connection k stands among those before it.
fn is_repeated(cs: &[Connection], k: usize) -> bool
    requires { k < length cs.now }
    ensures { Decides result (RepeatedBy cs.now k) }
{
    cs[..k].iter().any(|c| *c == cs[k])
}

// The first connection that stands among those before it.
fn repeated(cs: &[Connection]) -> Option<usize>
    ensures { MatchOption result (Distinct cs.now) (FirstRepeated cs.now) }
{
    (0..cs.len()).find(|k| is_repeated(cs, *k))
}

// The offset of connection k's field, in bytes.
fn offset_at(sheet: &Checked<'_>, k: usize) -> usize
    requires { k < length (says sheet.now).connections }
    ensures { slice_get (offsets_of OfConnection sheet.now.bytes.now) k ≡ Some result }
{
    sheet.offset(Item::Connection, k).unwrap()
}

// Check 5: a connection's instance or port names nothing. Then check 6: a connection repeated. Each over the whole sheet, at the first place.
pub fn names<M: Measure, B: Beneath<M>>(sheet: &Checked<'_>, beneath: &B) -> Result<(), Refusal>
    ensures { MatchResult result (λ _. Named (network_of (says sheet.now) (B.faces beneath.now)) × Distinct (says sheet.now).connections) (Misnamed (network_of (says sheet.now) (B.faces beneath.now)) (offsets_of OfConnection sheet.now.bytes.now)) }
{
    if let Some(k) = unnamed(sheet, beneath) {
        return Err(Refusal::Unnamed {
            at: offset_at(sheet, k),
        });
    }
    let wires = read_connections(sheet);
    if let Some(second) = repeated(&wires[..sheet.count(Item::Connection)]) {
        return Err(Refusal::Repeated {
            at: offset_at(sheet, second),
        });
    }
    Ok(())
}

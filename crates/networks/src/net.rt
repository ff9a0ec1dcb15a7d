// The connections of a composite, read off its sheet once.
ghost use Rattle.std.specs.Prelude.{◌≡◌, ◌<◌, length, take};
ghost use Rattle.networks.specs.Networks.{says, targets};
ghost use Rattle.networks.specs.Refusals.{nth_connection};
ghost use Rattle.networks.specs.Rows.{has_some};

use sheets::opened::Checked;
use sheets::words::{Connection, End, Item};
use std::array;

// Stands past the connections of a sheet: there is no heap, and an array has a value at each place.
const UNUSED: Connection = Connection {
    source: End::Outside { port: 0 },
    target: End::Outside { port: 0 },
};

// A composite block as the working needs it.
#[derive(Clone, Copy)]
pub struct Net<'a> {
    pub inputs: usize,
    pub outputs: usize,
    pub instances: usize,
    pub connections: &'a [Connection],
}

// Whether a connection runs from the source s.
pub(crate) fn is_connected(cs: &[Connection], s: End) -> bool
    ensures { result ≡ has_some (targets cs.now s) }
{
    cs.iter().any(|c| c.source == s)
}

// Connection k of the sheet.
pub(crate) fn connection_at(sheet: &Checked<'_>, k: usize) -> Connection
    requires { k < length (says sheet.now).connections }
    ensures { result ≡ nth_connection (says sheet.now).connections k }
{
    sheet.connection(k).unwrap()
}

// The sheet's connections: as many as it has, and unused ones past them. The sheet is not asked for these: it is walked whole where it has none.
pub(crate) fn read_connections(sheet: &Checked<'_>) -> [Connection; 64]
    ensures { take (length (says sheet.now).connections) result ≡ (says sheet.now).connections }
{
    let n = sheet.count(Item::Connection);
    array::from_fn(|k| if k < n {
        sheet.connection(k).unwrap_or(UNUSED)
    } else {
        UNUSED
    })
}

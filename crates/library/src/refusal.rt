// Why a call is turned down.
ghost use Rattle.std.specs.Prelude.{◌≡◌};
ghost use Rattle.library.specs.declared.refusal.Refusal.TheVariants.{Sheet, Chart, Network, NoRoom};

use charts::refusal::Refusal as ChartRefusal;
use networks::refusal::Refusal as NetworkRefusal;
use sheets::refusal::Refusal as SheetRefusal;

// What there is no room in, by the number that tells it.
#[derive(Clone, Copy, PartialEq, Eq, Debug)]
pub enum Table {
    Shelf = 1,
    Index,
    Cards,
    // the working rows
    Rows,
    // the caller's rows
    Out,
}

#[derive(Clone, Copy, PartialEq, Eq, Debug)]
pub enum Refusal {
    // the bytes make no sheet
    Sheet(SheetRefusal),
    // an amount or a sheet of another width than the library's; the width given, in bytes
    Width { given: usize },
    // no such block; the instance, or the number asked for
    NoBlock { place: usize },
    // a block's card is out of date; the instance, or the number asked for
    OutOfDate { place: usize },
    // a basic or a service sheet is turned down
    Chart(ChartRefusal),
    // a composite sheet is turned down
    Network(NetworkRefusal),
    // the block has no algorithm or event of that number
    NoNumber { number: usize },
    // a table is too short
    NoRoom { table: Table },
}

impl From<SheetRefusal> for Refusal {
    ghost from_gives = { λ e r. r ≡ Sheet e };

    fn from(e: SheetRefusal) -> Refusal {
        Refusal::Sheet(e)
    }
}

impl From<ChartRefusal> for Refusal {
    ghost from_gives = { λ e r. r ≡ Chart e };

    fn from(e: ChartRefusal) -> Refusal {
        Refusal::Chart(e)
    }
}

impl From<NetworkRefusal> for Refusal {
    ghost from_gives = { λ e r. r ≡ Network e };

    fn from(e: NetworkRefusal) -> Refusal {
        Refusal::Network(e)
    }
}

impl From<Table> for Refusal {
    ghost from_gives = { λ table r. r ≡ NoRoom table };

    fn from(table: Table) -> Refusal {
        Refusal::NoRoom { table }
    }
}

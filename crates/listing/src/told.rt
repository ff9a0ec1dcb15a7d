// A refusal as it is told: by number, level and place.

ghost use Rattle.library.specs.Refusals.{told as as_told, by_sheet, by_chart, by_network};
ghost use Rattle.listing.specs.Telling.{Tells};
ghost use Rattle.std.specs.Prelude.{◌≡◌};

use charts::refusal::Refusal as ChartRefusal;
use library::refusal::Refusal;
use networks::refusal::Refusal as NetworkRefusal;
use sheets::refusal::Refusal as SheetRefusal;

// A refusal by its number, level and place.
#[derive(Clone, Copy, PartialEq, Eq, Debug)]
pub struct Told {
    pub number: usize,
    pub level: usize,
    pub place: usize,
}

// Of a sheet's bytes.
impl From<SheetRefusal> for Told {
    ghost from_gives = { λ e t. Tells t (by_sheet e) };

    fn from(refusal: SheetRefusal) -> Told {
        Told {
            number: refusal.number(),
            level: refusal.level(),
            place: refusal.place(),
        }
    }
}

// Of a chart: level 1 where it is seen in the sheet, and else 2.
impl From<ChartRefusal> for Told {
    ghost from_gives = { λ e t. Tells t (by_chart e) };

    fn from(refusal: ChartRefusal) -> Told {
        let (number, level, place) = match refusal {
            ChartRefusal::Unnamed { at } => (5, 1, at),
            ChartRefusal::Circle { state } => (8, 2, state),
            ChartRefusal::TooLong { place } => (10, 2, place),
        };
        Told {
            number,
            level,
            place,
        }
    }
}

// Of a network: level 1 where it is seen in the sheet, and else 3.
impl From<NetworkRefusal> for Told {
    ghost from_gives = { λ e t. Tells t (by_network e) };

    fn from(refusal: NetworkRefusal) -> Told {
        let (number, level, place) = match refusal {
            NetworkRefusal::Unnamed { at } => (5, 1, at),
            NetworkRefusal::Repeated { at } => (6, 1, at),
            NetworkRefusal::Circle { place } => (8, 3, place),
            NetworkRefusal::Full { place } => (9, 3, place),
            NetworkRefusal::TooLong { place } => (10, 3, place),
        };
        Told {
            number,
            level,
            place,
        }
    }
}

// Of the library, level 4, or of a layer beneath it.
impl From<Refusal> for Told {
    ghost from_gives = { λ e t. Tells t (as_told e) };

    fn from(refusal: Refusal) -> Told {
        let (number, place) = match refusal {
            Refusal::Sheet(e) => return Told::from(e),
            Refusal::Chart(e) => return Told::from(e),
            Refusal::Network(e) => return Told::from(e),
            Refusal::Width { given } => (2, given),
            Refusal::NoBlock { place } => (3, place),
            Refusal::OutOfDate { place } => (4, place),
            Refusal::NoNumber { number } => (5, number),
            Refusal::NoRoom { table } => (7, table as usize),
        };
        Told {
            number,
            level: 4,
            place,
        }
    }
}

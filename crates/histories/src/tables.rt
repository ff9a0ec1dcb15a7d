// A small library in ticks, and the working rows that its calls are lent.
use costs::entry::Entry;
use costs::measure::Measure;
use costs::reducer::Reducer;
use costs::ticks::Ticks;
use library::refusal::Refusal;
use library::row::Row;
use library::{Kept, Library};
use listing::told::Told;
use std::alloc::{AllocError, Global};
use std::process::Abort;

#[derive(Drop)]
pub(crate) struct Tables {
    pub(crate) shelf: Vec<u8>,
    pub(crate) index: Vec<Row>,
    pub(crate) cards: Vec<Entry<Ticks>>,
    pub(crate) rows: Vec<Entry<Ticks>>,
}

impl Tables {
    // The library in these tables, and the working rows.
    fn library(&mut self) -> (Library<'_, Ticks>, &mut [Entry<Ticks>]) {
        let library = Library {
            shelf: &mut self.shelf,
            index: &mut self.index,
            cards: &mut self.cards,
        };
        (library, &mut self.rows)
    }
}

// Tables with a shelf of so many bytes, and so many index rows and rows of cards, begun.
pub(crate) fn begun<R: Reducer<Ticks>>(
    heap: Global,
    shelf: usize,
    index: usize,
    cards: usize,
) -> Result<Tables, AllocError> {
    let mut tables = Tables {
        shelf: vec![in heap; 0u8; shelf]?,
        index: vec![in heap; Row::unused(); index]?,
        cards: vec![in heap; Entry::zero(); cards]?,
        rows: vec![in heap; Entry::zero(); 3072]?,
    };
    Library::new::<R>(&mut tables.shelf, &mut tables.index, &mut tables.cards);
    Ok(tables)
}

pub(crate) fn add<R: Reducer<Ticks>>(tables: &mut Tables, sheet: &[u8]) -> Result<usize, Refusal> {
    let (mut library, rows) = tables.library();
    library.enter::<R>(rows, sheet)
}

pub(crate) fn look<R: Reducer<Ticks>>(
    tables: &Tables,
    block: usize,
    out: &mut [Entry<Ticks>],
) -> Result<usize, Refusal> {
    let kept = Kept {
        shelf: &tables.shelf,
        index: &tables.index,
        cards: &tables.cards,
    };
    kept.card::<R>(block, 0, out)
}

pub(crate) fn change<R: Reducer<Ticks>>(
    tables: &mut Tables,
    block: usize,
    algorithm: usize,
    amount: &[u8],
) -> Result<(), Refusal> {
    let (mut library, _) = tables.library();
    library.retime::<R>(block, algorithm, amount)
}

pub(crate) fn again<R: Reducer<Ticks>>(tables: &mut Tables, block: usize) -> Result<(), Refusal> {
    let (mut library, rows) = tables.library();
    library.rework::<R>(rows, block)
}

// That a call is refused with this number, level and place.
pub(crate) fn refused<T: Copy>(
    rt: &impl Abort,
    answer: Result<T, Refusal>,
    number: usize,
    level: usize,
    place: usize,
) {
    let told = answer.err().map(|e| Told::from(e));
    let wanted = Told {
        number,
        level,
        place,
    };
    assert_eq!(rt; told, Some(wanted));
}

// That the list of a block's one event has so many entries, and the first one this amount and count at its first output.
pub(crate) fn shows<R: Reducer<Ticks>>(
    rt: &impl Abort,
    tables: &Tables,
    block: usize,
    len: usize,
    amount: u32,
    count: u8,
) {
    let mut out = [Entry::zero(); 16];
    assert_eq!(rt; look::<R>(tables, block, &mut out), Ok(len));
    assert_eq!(rt; out[0].amount.value, amount);
    assert_eq!(rt; out[0].counts.count(0), count);
}

// That a look at a block's card is refused with this number and place.
pub(crate) fn hides<R: Reducer<Ticks>>(
    rt: &impl Abort,
    tables: &Tables,
    block: usize,
    number: usize,
    place: usize,
) {
    let mut out = [Entry::zero(); 16];
    refused(rt, look::<R>(tables, block, &mut out), number, 4, place);
}

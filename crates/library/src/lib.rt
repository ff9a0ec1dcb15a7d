// The library: blocks kept with their cards in lent tables, and the law over every history of calls.
#![tactic(auto)]

mod apply;
mod beneath;
pub mod calls;
pub mod card;
mod enter;
mod instances;
mod mark;
mod new;
mod place;
mod preview;
mod readers;
pub mod refusal;
mod replay;
pub mod retime;
pub mod rework;
pub mod row;
mod tables;

use crate::row::Row;
use costs::entry::Entry;

// A library: the lent tables that it keeps its blocks in. It may stand on any memory, also such as `new` did not begin: every call is safe there.
#[derive(Drop)]
pub struct Library<'a, M> {
    // the sheets' bytes, end to end
    pub shelf: &'a mut [u8],
    // a row for each block
    pub index: &'a mut [Row],
    // 128 rows for each block, 16 for each event
    pub cards: &'a mut [Entry<M>],
}

// A library's tables, to read.
#[derive(Clone, Copy)]
pub struct Kept<'a, M> {
    pub shelf: &'a [u8],
    pub index: &'a [Row],
    pub cards: &'a [Entry<M>],
}

// Networks: the card of a composite block from the cards beneath it.
#![tactic(auto)]

pub mod beneath;
pub mod card;
mod draft;
mod graph;
mod lists;
pub mod naming;
mod net;
pub mod parted;
pub mod refusal;
mod room;
mod table;
mod work;

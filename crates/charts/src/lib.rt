// The cards of basic and service blocks, formed from their sheets.
#![tactic(auto)]

pub mod card;
mod cost;
mod forming;
mod graph;
pub mod names;
pub mod refusal;
mod room;
mod work;

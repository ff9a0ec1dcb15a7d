// Lines of text about refusals, entries and cards, as the programs print them.
#![tactic(auto)]

pub mod amount;
pub mod answers;
pub mod cards;
pub mod lines;
pub mod told;

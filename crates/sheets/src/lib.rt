// Sheets: the bytes of one block's description, opened, checked, and read.
#![tactic(auto)]

pub mod field;
pub mod fields;
mod grammar;
mod lookup;
pub mod opened;
pub mod part;
pub mod reads;
pub mod refusal;
mod seen;
mod tag;
#[cfg(test)]
mod tests;
pub mod width;
pub mod words;

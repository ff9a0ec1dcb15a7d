// Measures, entries, lists and reducers: what a run of a function block costs at most.
#![tactic(auto)]

pub mod counting;
pub mod counts;
pub mod entry;
pub mod join;
pub mod keep;
pub mod laws;
pub mod lists;
pub mod measure;
pub mod memory;
pub mod merge;
pub mod reducer;
pub mod tick_measure;
pub mod ticks;

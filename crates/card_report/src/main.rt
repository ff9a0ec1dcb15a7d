// Reads a file of sheets from standard input, enters each into a library, and prints the answers and the cards.
// The words `memory` and `merge` as arguments choose another measure and another reducer than ticks and keep.
#![tactic(auto)]

mod run;
mod words;

use anyhow::Context;
use run::run;
use std::env;
use std::io::Read;
use words::Words;

fn report(rt: &HostRuntime) -> anyhow::Result<()> {
    let heap = rt.alloc();
    let mut words = Words::default();
    for word in env::args(rt)?.skip(1) {
        words = words
            .with(word.as_str())
            .context("the words are memory and merge")?;
    }
    let mut file = Vec::new(heap);
    rt.stdin().read_to_end(&mut file)?;
    rt.print(run(heap, words, file.as_slice())?)?;
    Ok(())
}

fn main(rt: HostRuntime) -> anyhow::Result<()> {
    report(&rt)
}

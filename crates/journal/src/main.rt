// Reads a journal of calls from standard input, makes them, and prints what each answers and what the library then holds.
#![tactic(auto)]

mod run;

use run::run;
use std::io;
use std::io::Read;

fn main(rt: HostRuntime) -> io::Result<()> {
    let heap = rt.alloc();
    let mut file = Vec::new(heap);
    rt.stdin().read_to_end(&mut file)?;
    rt.print(run(heap, file.as_slice())?)?;
    Ok(())
}

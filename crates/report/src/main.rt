// Reads a file of sheets from standard input, and prints a line for each.
#![tactic(auto)]

mod answers;
mod line;

use answers::answers;
use sheets::width::Width;
use std::io;
use std::io::Read;

fn main(rt: HostRuntime) -> io::Result<()> {
    let heap = rt.alloc();
    let mut file = Vec::new(heap);
    rt.stdin().read_to_end(&mut file)?;
    let lines = answers(heap, file.as_slice(), Width { bytes: 4 })?;
    for line in lines.iter() {
        rt.println(line)?;
    }
    Ok(())
}

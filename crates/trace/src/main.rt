// Reads a scenario from standard input and prints its trace. The status is 0 where the file ran
// to its end, and 1 after a stop line.
#![tactic(auto)]

use anyhow::ensure;
use replay::{LONGEST_FILE, trace_file};
use std::io::Read;

fn main(rt: HostRuntime) -> anyhow::Result<()> {
    let mut file = Vec::new(rt.alloc());
    // One byte more than a file may have tells that it is too long.
    rt.stdin()
        .take(LONGEST_FILE as u64 + 1)
        .read_to_end(&mut file)?;
    let trace = trace_file(rt.alloc(), file.as_slice())?;
    rt.print(trace.text.as_str())?;
    ensure!(trace.stop.is_none(), "the scenario stopped");
    Ok(())
}

//! The rack program: records from standard input, a line for each on standard output.
#![tactic(auto)]

use std::io::{Read, Write};

// What is past it is not read.
const INPUT_BYTES: u64 = 65536;

fn main(rt: HostRuntime) -> anyhow::Result<()> {
    let mut input = Vec::new(rt.alloc());
    rt.stdin().take(INPUT_BYTES).read_to_end(&mut input)?;
    let text = records::answer_input(rt.alloc(), &input)?;
    rt.stdout().write_all(text.as_bytes())?;
    Ok(())
}

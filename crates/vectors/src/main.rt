//! The standard's whole-band example, step by step, and the refusals around it. The file stdout holds the published
//! values.
#![tactic(auto)]

mod example;
mod refusals;
mod steps;
mod text;

fn run(rt: &HostRuntime) -> anyhow::Result<()> {
    steps::show(rt)?;
    refusals::show(rt)
}

fn main(rt: HostRuntime) -> anyhow::Result<()> {
    run(&rt)
}

//! Times the search, where a word is given.
#![tactic(auto)]

mod counted;
mod heard;
mod tables;

use counted::Counted;
use heard::Heard;
use std::time::Instant;
use std::{env, io};
use trellis::{PATH_BITS, Trellis, WORK_WORDS, search};

// The least of many runs, in nanoseconds.
fn least_nanos<T: Trellis>(
    rt: &HostRuntime,
    trellis: &T,
    runs: u32,
    work: &mut [u64],
    path: &mut [bool; PATH_BITS],
) -> io::Result<u32> {
    // where a minimum starts; with a first search before the loop in its place, the narrow search took 15.0 to 15.3 ns a
    // stage, past the bar of 15
    let mut least = u32::MAX;
    for _ in 0..runs {
        let start = Instant::now(rt)?;
        let found = search(trellis, work, path);
        let nanos = start.elapsed(rt)?.subsec_nanos();
        least = least.min(nanos);
    }
    Ok(least)
}

fn time<T: Trellis>(rt: &HostRuntime, trellis: &T, runs: u32) -> io::Result<u32> {
    let mut work = [0u64; WORK_WORDS];
    let mut path = [false; PATH_BITS];
    least_nanos(rt, trellis, runs, &mut work, &mut path)
}

fn time_heard(rt: &HostRuntime, narrow: bool) -> io::Result<u32> {
    let heard = Heard {
        kinds: &tables::kinds(),
        costs: &tables::costs(),
        totals: &tables::totals(),
        narrow,
    };
    time(rt, &heard, 1000)
}

fn time_counted(rt: &HostRuntime) -> io::Result<u32> {
    let counted = Counted {
        stages: PATH_BITS,
        steps: &tables::steps(),
    };
    time(rt, &counted, 50)
}

fn report(rt: &HostRuntime, searched: &str, nanos: u32) -> io::Result<()> {
    println!(rt; "{searched}: {nanos} ns for {} stages", PATH_BITS)
}

fn time_all(rt: &HostRuntime) -> io::Result<()> {
    report(rt, "64 states, costs in 16 bits", time_heard(rt, true)?)?;
    report(rt, "64 states, costs in 32 bits", time_heard(rt, false)?)?;
    report(rt, "2560 states, the cost alone", time_counted(rt)?)
}

fn main(rt: HostRuntime) -> io::Result<()> {
    let mut words = env::args(&rt)?;
    words.next();
    match words.next() {
        Some(_) => time_all(&rt),
        None => println!(rt; "search_bench: give any word to time the search"),
    }
}

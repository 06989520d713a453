//! A row of what was measured: who, what a round is, the threads, the best, median and worst
//! nanoseconds a round, and the rounds of a run; tabs between them.
#![tactic(auto)]

use std::rt::Clock;
use std::time::Instant;

/// The nanoseconds since the start, if all rounds went as they should.
pub fn nanoseconds_since(rt: &impl Clock, start: Instant, done: bool) -> anyhow::Result<u64> {
    let nanoseconds = start.elapsed(rt)?.as_nanos();
    if !done {
        anyhow::bail!("a round went otherwise");
    }
    Ok(u64::try_from(nanoseconds).unwrap_or(u64::MAX))
}

/// Nanoseconds a round, in hundredths.
pub fn each(nanoseconds: u64, count: u64) -> u64 {
    nanoseconds.saturating_mul(100) / count.max(1)
}

/// Prints a row: the best, median and worst of the times, in hundredths of nanoseconds a round.
pub fn tell<R: Print>(
    rt: &R,
    peer: &str,
    word: &str,
    threads: u32,
    mut times: Vec<u64>,
    count: u64,
) -> anyhow::Result<()> {
    times.sort()?;
    let best = times.first().copied().unwrap_or(0);
    let median = times.get(times.len() / 2).copied().unwrap_or(0);
    let worst = times.last().copied().unwrap_or(0);
    print!(rt; "{peer}\t{word}\t{threads}")?;
    for hundredths in [best, median, worst] {
        print!(rt; "\t{}.{:02}", hundredths / 100, hundredths % 100)?;
    }
    println!(rt; "\t{count}")?;
    Ok(())
}

//! Times the replies of workers to requests, as `cqs limit` makes them: the making of the tenants,
//! what the workers ask, and the text. The requests are read before.
//!
//! By the word WORKERS it prints one line: `limit`, its nanoseconds, the bytes of the text, their
//! sum, and how many requests there are.

ghost use Rattle.std.specs.Prelude.{◌≤◌};

use crate::sum_of;
use crate::words::usage;
use cqs_cli_streams::LONGEST_INPUT;
use cqs_limiter::limit_run;
use cqs_limiter_requests::read_requests;
use cqs_limiter_workers::OpenGate;
use std::env::Args;
use std::io::Read;
use std::process::ExitCode;
use std::rt::Clock;
use std::sync::Wait;
use std::thread::Threads;
use std::time::Instant;

/// Times so many workers on the requests of these bytes.
fn time_limit<R: Threads + Wait + Sync + Clock + Print + AllocGlobal>(
    rt: &R,
    bytes: &[u8],
    workers: u32,
) -> anyhow::Result<()>
    requires some { 1 ≤ workers }
    requires few { workers ≤ 16 }
{
    let alloc = rt.alloc();
    if bytes.len() > LONGEST_INPUT {
        anyhow::bail!("the input is too long");
    }
    let Ok(requests) = read_requests(alloc, bytes) else {
        anyhow::bail!("the input is no requests");
    };
    let start = Instant::now(rt)?;
    let Ok(limited) = limit_run(rt, alloc, &requests, workers, &OpenGate) else {
        anyhow::bail!("no memory for the replies");
    };
    let nanoseconds = start.elapsed(rt)?.as_nanos();
    let text = limited.text.as_slice();
    println!(rt;
        "limit {nanoseconds} bytes {} sum {} requests {}",
        text.len(),
        sum_of(text),
        requests.asks.len()
    )?;
    Ok(())
}

/// Times the replies to the requests that the input says, by as many workers as the first word
/// says.
pub fn measure<R: Threads + Wait + Sync + Clock + Print + AllocGlobal, I: Read>(
    rt: &R,
    words: Args,
    input: &mut I,
) -> anyhow::Result<ExitCode> {
    let mut words = words;
    let Some(workers) = words.next().and_then(|text| text.parse::<u32>().ok()) else {
        return Ok(usage(rt)?);
    };
    if workers < 1 || workers > 16 {
        return Ok(usage(rt)?);
    }
    let mut bytes = Vec::new(rt.alloc());
    input.read_to_end(&mut bytes)?;
    time_limit(rt, &bytes, workers)?;
    Ok(ExitCode::SUCCESS)
}

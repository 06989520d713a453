//! An example with threads, to be read after `cqs_example_semaphore`. One hands a permit over to
//! the other (`handing`), by a semaphore that leaves none to a caller unseen.
#![tactic(auto)]

mod handing;

use cqs_rule::Config;
use cqs_sync_semaphore::{SyncAcquired, SyncReleased, SyncSemaphore};
use handing::hand_over;

/// A pass for each thread, and few slots, which are used again.
const CONFIG: Config = Config {
    passes: 2,
    limit: 1 << 36,
    slots: 6,
};

/// A release looks so often at a permit that it holds out before it takes the permit back.
const LOOKS: u32 = 16;

fn main(rt: HostRuntime) -> anyhow::Result<()> {
    let Ok((semaphore, mut giver)) = SyncSemaphore::new(rt.alloc(), 1, CONFIG, LOOKS) else {
        anyhow::bail!("no memory for the semaphore");
    };
    let Ok(taker) = semaphore.split(&mut giver) else {
        anyhow::bail!("no further pass may be made");
    };
    let Ok(SyncAcquired::Now(permit)) = semaphore.acquire(&mut giver) else {
        anyhow::bail!("no permit was free");
    };
    println!(rt; "the giver has the permit")?;
    let (_, (mut taker, permit)) = hand_over(&rt, &semaphore, giver, permit, taker);
    println!(rt; "the taker has the permit")?;
    let Ok(SyncReleased::Freed) = semaphore.release(&mut taker, permit) else {
        anyhow::bail!("somebody waits");
    };
    println!(rt;
        "the permit is back, and the state is {}",
        semaphore.state(&mut taker)
    )?;
    Ok(())
}

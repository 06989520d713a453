//! Plans made by chance from a seed, the same for the same seed.

use std::alloc::Global;
use std::fmt::Write;

/// The most resources of a plan.
const MOST_RESOURCES: u32 = 3;

/// Numbers by chance: a linear congruential generator with the constants of Knuth's MMIX.
#[derive(Drop)]
struct Chance {
    state: u64,
}

impl Chance {
    /// A number from 1 to `most`.
    fn up_to(&mut self, most: u32) -> u32 {
        self.state = self
            .state
            .wrapping_mul(6_364_136_223_846_793_005)
            .wrapping_add(1_442_695_040_888_963_407);
        let high = (self.state >> 33) as u32;
        (high % most.max(1)).saturating_add(1)
    }
}

/// A resource of a plan that is made by chance.
#[derive(Clone, Copy, Drop)]
enum Resource {
    Semaphore { size: u32 },
    Mutex,
    Pool { size: u32 },
    Latch { count: u32 },
    Barrier { parties: u32, rounds: u32 },
}

impl Resource {
    /// One of each kind, of few permits, elements, counts, parties and rounds.
    fn by_chance(chance: &mut Chance) -> Resource {
        let kind = chance.up_to(5);
        let most = chance.up_to(3);
        let rounds = chance.up_to(3);
        match kind {
            1 => Resource::Semaphore { size: most },
            2 => Resource::Mutex,
            3 => Resource::Pool { size: most },
            4 => Resource::Latch { count: most },
            _ => Resource::Barrier {
                parties: most,
                rounds,
            },
        }
    }
}

/// The resources of a plan, by their places. There are at most three.
#[derive(Drop)]
struct Resources {
    all: Vec<Resource>,
}

impl Resources {
    fn by_chance(alloc: Global, chance: &mut Chance) -> anyhow::Result<Resources> {
        let mut all = Vec::new(alloc);
        for _ in 0..chance.up_to(MOST_RESOURCES) {
            all.push(Resource::by_chance(chance))?;
        }
        Ok(Resources { all })
    }

    /// Their tables in a plan.
    fn write(&self, text: &mut String) -> anyhow::Result<()> {
        for (at, resource) in self.all.iter().enumerate() {
            match resource {
                Resource::Semaphore { size } => write!(text, "[semaphore.r{at}]\nsize = {size}\n")?,
                Resource::Mutex => write!(text, "[mutex.r{at}]\n")?,
                Resource::Pool { size } => write!(text, "[pool.r{at}]\nsize = {size}\n")?,
                Resource::Latch { count } => write!(text, "[latch.r{at}]\ncount = {count}\n")?,
                Resource::Barrier { parties, rounds } => write!(
                    text,
                    "[barrier.r{at}]\nparties = {parties}\nrounds = {rounds}\n"
                )?,
            }
        }
        Ok(())
    }
}

/// The text of a plan of this version: few resources, of few permits each, and jobs that take, work
/// and give, count down, wait and arrive. A third of the jobs have deadlines. Half the jobs of
/// version 2 say how long their waits may last, and two thirds of these may begin them again.
pub fn plan_text(alloc: Global, version: u32, seed: u64) -> anyhow::Result<String> {
    let mut chance = Chance { state: seed };
    let mut text = String::new(alloc);
    write!(text, "version = {version}\nturns = {}\n", chance.up_to(40))?;
    let resources = Resources::by_chance(alloc, &mut chance)?;
    resources.write(&mut text)?;
    for job in 1..=chance.up_to(12) {
        write!(text, "[[job]]\nname = \"j{job}\"\n")?;
        add_steps(&mut text, &mut chance, &resources, job)?;
        if chance.up_to(3) == 1 {
            write!(text, "deadline = {}\n", chance.up_to(16))?;
        }
        if version == 2 {
            add_patience(&mut text, &mut chance)?;
        }
    }
    Ok(text)
}

/// How long the waits of a job may last, and how often it may begin one again.
fn add_patience(text: &mut String, chance: &mut Chance) -> anyhow::Result<()> {
    if chance.up_to(2) == 1 {
        write!(text, "within = {}\n", chance.up_to(5))?;
        if chance.up_to(3) != 1 {
            write!(text, "retry = {}\n", chance.up_to(3))?;
        }
    }
    Ok(())
}

/// The steps of a job. It gives only what it took before, and arrives at a barrier only where it is
/// one of its parties, and no oftener than there are rounds.
fn add_steps(
    text: &mut String,
    chance: &mut Chance,
    resources: &Resources,
    job: u32,
) -> anyhow::Result<()> {
    // how much it holds of each resource, or how often it arrived there
    let mut counts = [0u32; MOST_RESOURCES as usize];
    let many = u32::try_from(resources.all.len()).unwrap_or(MOST_RESOURCES);
    text.push_str("steps = [")?;
    for _ in 0..chance.up_to(8) {
        let at = chance.up_to(many).saturating_sub(1) as usize;
        let wish = chance.up_to(6);
        let (Some(resource), Some(count)) = (resources.all.get(at), counts.get_mut(at)) else {
            anyhow::bail!("no such resource");
        };
        if wish == 1 {
            write!(text, "\"work {}\", ", chance.up_to(4))?;
            continue;
        }
        match *resource {
            Resource::Latch { .. } => {
                let verb = if wish == 2 { "down" } else { "wait" };
                write!(text, "\"{verb} r{at}\", ")?;
            }
            Resource::Barrier { parties, rounds } => {
                if job <= parties && *count < rounds {
                    *count = count.saturating_add(1);
                    write!(text, "\"arrive r{at}\", ")?;
                }
            }
            Resource::Semaphore { .. } | Resource::Mutex | Resource::Pool { .. } => {
                if wish <= 3 && *count > 0 {
                    *count -= 1;
                    write!(text, "\"give r{at}\", ")?;
                } else {
                    *count = count.saturating_add(1);
                    write!(text, "\"take r{at}\", ")?;
                }
            }
        }
    }
    text.push_str("]\n")?;
    Ok(())
}

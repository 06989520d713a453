//! The plain fold of a plan over the kit's own parse of its bytes: ordinary data, and no
//! contract. The whole program is measured beside it on plans of many events, so that both
//! read by the same parser.

ghost use Rattle.std.specs.Prelude.{◌<◌, length, IfSome};

use std::alloc::Global;
use std::collections::VecDeque;
use std::fmt::Write;
use toml::{Table, Value};

#[derive(Clone, Copy)]
enum Step {
    Take(usize),
    Give(usize),
    Work(u32),
}

#[derive(Drop)]
struct Job {
    name: String,
    steps: Vec<Step>,
    deadline: Option<u32>,
}

#[derive(Drop)]
struct Plan {
    turns: u32,
    resources: Vec<(String, u32)>,
    jobs: Vec<Job>,
}

fn number_at(table: &Table, key: &str) -> Option<u32> {
    u32::try_from(table.get(key)?.as_integer()?).ok()
}

/// The resources stand in byte order of their names, as the parser's table does.
fn place_of(resources: &[(String, u32)], name: &str) -> Option<usize> {
    let bytes = name.as_bytes();
    resources
        .binary_search_by(|resource| resource.0.as_bytes().cmp(&bytes))
        .ok()
}

fn step_of(resources: &[(String, u32)], text: &str) -> Option<Step> {
    let (verb, argument) = text.split_once(' ')?;
    match verb {
        "take" => Some(Step::Take(place_of(resources, argument)?)),
        "give" => Some(Step::Give(place_of(resources, argument)?)),
        "work" => Some(Step::Work(argument.parse().ok()?)),
        _ => None,
    }
}

fn job_of(alloc: Global, resources: &[(String, u32)], value: &Value) -> Option<Job> {
    let table = value.as_table()?;
    let texts = table.get("steps")?.as_array()?;
    let mut steps = Vec::with_capacity(alloc, texts.len()).ok()?;
    for text in texts.iter() {
        steps.push(step_of(resources, text.as_str()?)?).ok()?;
    }
    Some(Job {
        name: String::from_str(alloc, table.get("name")?.as_str()?).ok()?,
        steps,
        deadline: number_at(table, "deadline"),
    })
}

fn read(alloc: Global, bytes: &[u8]) -> Option<Plan> {
    let table = toml::table_from_slice(alloc, bytes).ok()?;
    let mut resources = Vec::new(alloc);
    for (name, semaphore) in table.get("semaphore")?.as_table()?.iter() {
        let size = number_at(semaphore.as_table()?, "size")?;
        resources
            .push((String::from_str(alloc, name.as_str()).ok()?, size))
            .ok()?;
    }
    let values = table.get("job")?.as_array()?;
    let mut jobs = Vec::with_capacity(alloc, values.len()).ok()?;
    for value in values.iter() {
        jobs.push(job_of(alloc, resources.as_slice(), value)?).ok()?;
    }
    Some(Plan {
        turns: number_at(&table, "turns")?,
        resources,
        jobs,
    })
}

#[derive(Clone, Copy, PartialEq, Eq)]
enum Wait {
    InLine,
    Served,
    Gone,
}

#[derive(Drop)]
struct Semaphore {
    free: u32,
    line: VecDeque<usize>,
    waits: Vec<Wait>,
    inside: u32,
}

impl Semaphore {
    fn new(alloc: Global, permits: u32) -> Semaphore {
        Semaphore {
            free: permits,
            line: VecDeque::new(alloc),
            waits: Vec::new(alloc),
            inside: 0,
        }
    }

    /// The number of the wait, where no permit is free.
    fn take(&mut self) -> Option<Option<usize>> {
        if self.free > 0 {
            self.free -= 1;
            return Some(None);
        }
        let number = self.waits.len();
        self.waits.push(Wait::InLine).ok()?;
        self.line.push_back(number).ok()?;
        self.inside = self.inside.saturating_add(1);
        Some(Some(number))
    }

    /// The number of the wait that was served, if one was.
    fn give(&mut self) -> Option<usize> {
        for _ in 0..self.line.len() {
            let number = self.line.pop_front()?;
            if let Some(wait) = self.waits.get_mut(number) {
                if *wait == Wait::InLine {
                    *wait = Wait::Served;
                    self.inside = self.inside.saturating_sub(1);
                    return Some(number);
                }
            }
        }
        self.free = self.free.saturating_add(1);
        None
    }

    fn is_served(&self, number: usize) -> bool {
        match self.waits.get(number) {
            Some(wait) => *wait == Wait::Served,
            None => false,
        }
    }

    fn leave(&mut self, number: usize) {
        if let Some(wait) = self.waits.get_mut(number) {
            *wait = Wait::Gone;
        }
        self.inside = self.inside.saturating_sub(1);
    }
}

#[derive(Clone, Copy, PartialEq, Eq)]
enum Progress {
    Ready(usize),
    Working(usize, u32),
    Waiting(usize, usize, usize),
    Done,
    GaveUp,
    Late,
}

#[derive(Drop)]
struct State {
    progress: Progress,
    holds: Vec<usize>,
}

#[derive(Drop)]
struct Run {
    semaphores: Vec<Semaphore>,
    report: String,
}

/// A job in a turn.
#[derive(Clone, Copy)]
struct Actor<'a> {
    plan: &'a Plan,
    turn: u32,
    job: &'a Job,
}

fn tell(run: &mut Run, actor: Actor<'_>, verb: &str, r: usize) -> Option<()> {
    let Actor { plan, turn, job } = actor;
    let resource = plan.resources.get(r)?.0.as_str();
    let name = job.name.as_str();
    write!(run.report, "{turn} {name} {verb} {resource}").ok()
}

fn tell_number(run: &mut Run, actor: Actor<'_>, verb: &str, r: usize, number: usize) -> Option<()> {
    tell(run, actor, verb, r)?;
    write!(run.report, " {number}\n").ok()
}

fn give(run: &mut Run, actor: Actor<'_>, r: usize) -> Option<()> {
    let served = run.semaphores.get_mut(r)?.give();
    tell(run, actor, "gives", r)?;
    match served {
        None => run.report.push_str(" free\n").ok(),
        Some(number) => write!(run.report, " sent {number}\n").ok(),
    }
}

fn give_all(run: &mut Run, actor: Actor<'_>, holds: &mut Vec<usize>) -> Option<()> {
    for r in holds.iter() {
        give(run, actor, *r)?;
    }
    holds.clear();
    Some(())
}

fn oldest_of(holds: &[usize], r: usize) -> Option<usize>
    ensures { IfSome result (λ place. place < length holds.now) }
{
    holds.iter().position(|held| *held == r)
}

fn is_due(actor: Actor<'_>) -> bool {
    match actor.job.deadline {
        Some(deadline) => deadline <= actor.turn,
        None => false,
    }
}

/// The job gives its wait up, and gives back all that it holds.
fn give_up(
    run: &mut Run,
    actor: Actor<'_>,
    state: &mut State,
    r: usize,
    number: usize,
) -> Option<()> {
    if run.semaphores.get(r)?.is_served(number) {
        tell_number(run, actor, "late", r, number)?;
        state.holds.push(r).ok()?;
        state.progress = Progress::Late;
    } else {
        run.semaphores.get_mut(r)?.leave(number);
        tell_number(run, actor, "gaveup", r, number)?;
        state.progress = Progress::GaveUp;
    }
    give_all(run, actor, &mut state.holds)
}

/// The job makes its steps from this one on.
fn make_steps(run: &mut Run, actor: Actor<'_>, state: &mut State, first: usize) -> Option<()> {
    for at in first..actor.job.steps.len() {
        match *actor.job.steps.get(at)? {
            Step::Work(turns) => {
                state.progress = Progress::Working(at, actor.turn.saturating_add(turns));
                return Some(());
            }
            Step::Take(r) => {
                if let Some(number) = run.semaphores.get_mut(r)?.take()? {
                    tell_number(run, actor, "waits", r, number)?;
                    state.progress = Progress::Waiting(at, r, number);
                    return Some(());
                }
                tell(run, actor, "takes", r)?;
                run.report.push_str("\n").ok()?;
                state.holds.push(r).ok()?;
            }
            Step::Give(r) => {
                if let Some(place) = oldest_of(state.holds.as_slice(), r) {
                    state.holds.remove(place);
                }
                give(run, actor, r)?;
            }
        }
    }
    give_all(run, actor, &mut state.holds)?;
    let turn = actor.turn;
    let name = actor.job.name.as_str();
    write!(run.report, "{turn} {name} done\n").ok()?;
    state.progress = Progress::Done;
    Some(())
}

fn act(run: &mut Run, actor: Actor<'_>, state: &mut State) -> Option<()> {
    match state.progress {
        Progress::Ready(at) => make_steps(run, actor, state, at),
        Progress::Working(_, until) if actor.turn < until => Some(()),
        Progress::Working(at, _) => make_steps(run, actor, state, at.saturating_add(1)),
        Progress::Waiting(_, r, number) if is_due(actor) => give_up(run, actor, state, r, number),
        Progress::Waiting(at, r, number) => {
            if !run.semaphores.get(r)?.is_served(number) {
                return Some(());
            }
            tell_number(run, actor, "served", r, number)?;
            state.holds.push(r).ok()?;
            make_steps(run, actor, state, at.saturating_add(1))
        }
        Progress::Done | Progress::GaveUp | Progress::Late => Some(()),
    }
}

fn one_turn(run: &mut Run, plan: &Plan, turn: u32, states: &mut Vec<State>) -> Option<()> {
    for (place, job) in plan.jobs.iter().enumerate() {
        act(run, Actor { plan, turn, job }, states.get_mut(place)?)?;
    }
    Some(())
}

fn tell_ends(run: &mut Run, plan: &Plan) -> Option<()> {
    for (r, resource) in plan.resources.iter().enumerate() {
        let semaphore = run.semaphores.get(r)?;
        let free = semaphore.free;
        let held = resource.1.saturating_sub(free);
        let line = semaphore.inside;
        write!(
            run.report,
            "end {} free {free} held {held} line {line}\n",
            resource.0
        )
        .ok()?;
    }
    Some(())
}

fn count(states: &[State], progress: Progress) -> usize {
    states
        .iter()
        .filter(|state| state.progress == progress)
        .count()
}

/// The report of the plan that these bytes say.
pub fn report_of(alloc: Global, bytes: &[u8]) -> Option<String> {
    let plan = read(alloc, bytes)?;
    let mut run = Run {
        semaphores: Vec::with_capacity(alloc, plan.resources.len()).ok()?,
        report: String::new(alloc),
    };
    for resource in plan.resources.iter() {
        run.semaphores.push(Semaphore::new(alloc, resource.1)).ok()?;
    }
    let mut states = Vec::with_capacity(alloc, plan.jobs.len()).ok()?;
    for _ in plan.jobs.iter() {
        states
            .push(State {
                progress: Progress::Ready(0),
                holds: Vec::new(alloc),
            })
            .ok()?;
    }
    for turn in 0..plan.turns {
        one_turn(&mut run, &plan, turn, &mut states)?;
    }
    tell_ends(&mut run, &plan)?;
    let done = count(states.as_slice(), Progress::Done);
    let gaveup = count(states.as_slice(), Progress::GaveUp);
    let late = count(states.as_slice(), Progress::Late);
    let unfinished = states
        .len()
        .saturating_sub(done)
        .saturating_sub(gaveup)
        .saturating_sub(late);
    write!(
        run.report,
        "total done {done} gaveup {gaveup} late {late} unfinished {unfinished}\n"
    )
    .ok()?;
    Some(run.report)
}

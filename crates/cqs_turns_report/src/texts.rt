//! The text of the report's lines, byte by byte.

ghost use Rattle.std.specs.Prelude.{◌≡◌, ◌++◌, OnOk, count_by, map, decimal};
ghost use Rattle.cqs_plan.specs.Language.{is_barrier};
ghost use Rattle.cqs_turns_report.specs.Lines.{name_at, is_pool, is_pool_at, is_barrier_at, place_text, wait_text, element_text, told_text, line_text, end_words, end_text, total_text};
ghost use Rattle.cqs_turns_report.specs.Counted.{is_counted};

use crate::lines::Told;
use crate::states::{JobState, Progress};
use cqs_core::Memory;
use cqs_plan::{FloorEnd, Kind, Resource};
use itoa::Buffer;

fn push_words(line: &mut Vec<u8>, words: &[u8]) -> Result<(), Memory>
    ensures { OnOk result (line.new.items ≡ line.old.items ++ words.now) }
{
    line.extend_from_slice(words)?;
    Ok(())
}

fn push_number(line: &mut Vec<u8>, number: u64) -> Result<(), Memory>
    ensures { OnOk result (line.new.items ≡ line.old.items ++ decimal number) }
{
    let mut buffer = Buffer::new();
    line.extend_from_slice(buffer.format(number).as_bytes())?;
    Ok(())
}

/// A label and then a number.
fn push_labelled(line: &mut Vec<u8>, label: &[u8], number: u64) -> Result<(), Memory>
    ensures { OnOk result (line.new.items ≡ line.old.items ++ label.now ++ decimal number) }
{
    line.extend_from_slice(label)?;
    push_number(line, number)
}

/// A verb and what it is done to.
fn push_verb(line: &mut Vec<u8>, verb: &[u8], name: &[u8]) -> Result<(), Memory>
    ensures { OnOk result (line.new.items ≡ line.old.items ++ verb.now ++ name.now) }
{
    line.extend_from_slice(verb)?;
    line.extend_from_slice(name)?;
    Ok(())
}

/// The name of the resource at a place.
fn name_of(resources: &[Resource], at: u32) -> &[u8]
    ensures { result.now ≡ name_at resources.now at }
{
    match resources.get(at as usize) {
        Some(resource) => resource.name.as_slice(),
        None => &[],
    }
}

fn is_pool(kind: Kind) -> bool
    ensures { result ≡ is_pool kind }
{
    matches!(kind, Kind::Pool(_))
}

/// Whether the resource at a place is a pool.
fn is_pool_at(resources: &[Resource], at: u32) -> bool
    ensures { result ≡ is_pool_at resources.now at }
{
    match resources.get(at as usize) {
        Some(resource) => is_pool(resource.kind),
        None => false,
    }
}

fn is_barrier(kind: Kind) -> bool
    ensures { result ≡ is_barrier kind }
{
    matches!(kind, Kind::Rounds { .. })
}

/// The resource at a place is a barrier.
fn is_barrier_at(resources: &[Resource], at: u32) -> bool
    ensures { result ≡ is_barrier_at resources.now at }
{
    match resources.get(at as usize) {
        Some(resource) => is_barrier(resource.kind),
        None => false,
    }
}

/// A verb and what it is done to, where that is a barrier with the round.
fn push_place(
    line: &mut Vec<u8>,
    verb: &[u8],
    resources: &[Resource],
    at: u32,
    round: u32,
) -> Result<(), Memory>
    ensures { OnOk result (line.new.items
        ≡ line.old.items ++ verb.now ++ place_text resources.now at round) }
{
    push_verb(line, verb, name_of(resources, at))?;
    if is_barrier_at(resources, at) {
        push_labelled(line, b".", u64::from(round))?;
    }
    Ok(())
}

/// A verb and the wait that it is done to.
fn push_wait(
    line: &mut Vec<u8>,
    verb: &[u8],
    resources: &[Resource],
    at: u32,
    round: u32,
    number: u64,
) -> Result<(), Memory>
    ensures { OnOk result (line.new.items
        ≡ line.old.items ++ verb.now ++ wait_text resources.now at round number) }
{
    push_place(line, verb, resources, at, round)?;
    push_labelled(line, b" ", number)
}

/// A verb, what it is done to, and a word.
fn push_worded(line: &mut Vec<u8>, verb: &[u8], name: &[u8], word: &[u8]) -> Result<(), Memory>
    ensures { OnOk result (line.new.items ≡ line.old.items ++ verb.now ++ name.now ++ word.now) }
{
    push_verb(line, verb, name)?;
    line.extend_from_slice(word)?;
    Ok(())
}

/// An element, where the resource at a place is a pool.
fn push_element(
    line: &mut Vec<u8>,
    resources: &[Resource],
    at: u32,
    element: u32,
) -> Result<(), Memory>
    ensures { OnOk result (line.new.items
        ≡ line.old.items ++ element_text resources.now at element) }
{
    if is_pool_at(resources, at) {
        push_labelled(line, b" element ", u64::from(element))?;
    }
    Ok(())
}

/// A verb, the resource that it is done to, and the element, where that is a pool.
fn push_moved(
    line: &mut Vec<u8>,
    verb: &[u8],
    resources: &[Resource],
    at: u32,
    element: u32,
) -> Result<(), Memory>
    ensures { OnOk result (line.new.items
        ≡ line.old.items ++ verb.now ++ name_at resources.now at
        ++ element_text resources.now at element) }
{
    push_verb(line, verb, name_of(resources, at))?;
    push_element(line, resources, at, element)
}

fn push_told(line: &mut Vec<u8>, resources: &[Resource], told: Told) -> Result<(), Memory>
    ensures { OnOk result (line.new.items ≡ line.old.items ++ told_text resources.now told) }
{
    match told {
        Told::Takes { at, element } => push_moved(line, b"takes ", resources, at, element),
        Told::Waits { at, round, number } => {
            push_wait(line, b"waits ", resources, at, round, number)
        }
        Told::Served {
            at,
            round,
            number,
            element,
        } => {
            push_wait(line, b"served ", resources, at, round, number)?;
            push_element(line, resources, at, element)
        }
        Told::GivesFree { at, element } => {
            push_moved(line, b"gives ", resources, at, element)?;
            push_words(line, b" free")
        }
        Told::GivesSent {
            at,
            element,
            number,
        } => {
            push_moved(line, b"gives ", resources, at, element)?;
            push_labelled(line, b" sent ", number)
        }
        Told::GaveUp { at, round, number } => {
            push_wait(line, b"gaveup ", resources, at, round, number)
        }
        Told::Retries { at, round, number } => {
            push_wait(line, b"retries ", resources, at, round, number)
        }
        Told::Late { at, round, number } => {
            push_wait(line, b"late ", resources, at, round, number)
        }
        Told::Passes { at } => push_verb(line, b"passes ", name_of(resources, at)),
        Told::DownsLeft { at, left } => {
            push_verb(line, b"downs ", name_of(resources, at))?;
            push_labelled(line, b" left ", u64::from(left))
        }
        Told::DownsOpen { at } => push_worded(line, b"downs ", name_of(resources, at), b" open"),
        Told::DownsAlready { at } => {
            push_worded(line, b"downs ", name_of(resources, at), b" already")
        }
        Told::ArrivesLast { at, round } => {
            push_place(line, b"arrives ", resources, at, round)?;
            push_words(line, b" last")
        }
        Told::Done => push_words(line, b"done"),
    }
}

/// The line of an event.
pub fn push_line(
    line: &mut Vec<u8>,
    resources: &[Resource],
    turn: u32,
    name: &[u8],
    told: Told,
) -> Result<(), Memory>
    ensures { OnOk result (line.new.items
        ≡ line.old.items ++ line_text resources.now turn name.now told) }
{
    push_number(line, u64::from(turn))?;
    push_verb(line, b" ", name)?;
    line.extend_from_slice(b" ")?;
    push_told(line, resources, told)?;
    line.extend_from_slice(b"\n")?;
    Ok(())
}

fn push_end_words(line: &mut Vec<u8>, end: FloorEnd) -> Result<(), Memory>
    ensures { OnOk result (line.new.items ≡ line.old.items ++ end_words end) }
{
    match end {
        FloorEnd::Permits {
            free,
            held,
            line: waits,
        } => {
            push_labelled(line, b" free ", u64::from(free))?;
            push_labelled(line, b" held ", u64::from(held))?;
            push_labelled(line, b" line ", u64::from(waits))
        }
        FloorEnd::Latch { count, line: waits } => {
            push_labelled(line, b" count ", u64::from(count))?;
            push_labelled(line, b" line ", u64::from(waits))
        }
        FloorEnd::Rounds { over } => push_labelled(line, b" rounds ", u64::from(over)),
    }
}

/// How a resource stands at the end.
pub fn push_end(line: &mut Vec<u8>, name: &[u8], end: FloorEnd) -> Result<(), Memory>
    ensures { OnOk result (line.new.items ≡ line.old.items ++ end_text name.now end) }
{
    push_verb(line, b"end ", name)?;
    push_end_words(line, end)?;
    line.extend_from_slice(b"\n")?;
    Ok(())
}

/// Which jobs are counted at the end: those that came to this end, or to none.
#[derive(Clone, Copy)]
pub enum Counted {
    Done,
    GaveUp,
    Late,
    Unfinished,
}

fn is_counted(counted: Counted, progress: Progress) -> bool
    ensures { result ≡ is_counted counted progress }
{
    match counted {
        Counted::Done => progress.is_done(),
        Counted::GaveUp => progress.has_given_up(),
        Counted::Late => progress.is_late(),
        Counted::Unfinished => progress.is_unfinished(),
    }
}

fn count(states: &[JobState], counted: Counted) -> usize
    ensures { result ≡ count_by (is_counted counted) (map (λ state. state.progress) states.now) }
{
    states
        .iter()
        .map(|state| state.progress)
        .filter(|progress| is_counted(counted, *progress))
        .count()
}

/// How many jobs came to each end, and how many to none.
pub fn push_total(line: &mut Vec<u8>, states: &[JobState]) -> Result<(), Memory>
    ensures { OnOk result (line.new.items ≡ line.old.items
        ++ total_text (map (λ state. state.progress) states.now)) }
{
    push_labelled(line, b"total done ", count(states, Counted::Done) as u64)?;
    push_labelled(line, b" gaveup ", count(states, Counted::GaveUp) as u64)?;
    push_labelled(line, b" late ", count(states, Counted::Late) as u64)?;
    push_labelled(
        line,
        b" unfinished ",
        count(states, Counted::Unfinished) as u64,
    )?;
    line.extend_from_slice(b"\n")?;
    Ok(())
}

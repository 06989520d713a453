//! The lines of the text of `work`, byte by byte.

ghost use Rattle.std.specs.Prelude.{◌≡◌, ◌++◌, ◌≤◌, OnOk, decimal, length};
ghost use Rattle.cqs_turns_report.specs.Lines.{name_at};
ghost use Rattle.cqs_cli_top.specs.WorkText.{end_word, job_text, name_of_job, total_text, wait_text};

use cqs_core::Memory;
use cqs_plan::{Job, Plan, Resource};
use cqs_work::{JobEnd, WaitLine, totals_of};
use itoa::Buffer;

/// A label and then a number.
fn push_labelled(text: &mut Vec<u8>, label: &[u8], number: u64) -> Result<(), Memory>
    ensures { OnOk result (text.new.items ≡ text.old.items ++ label.now ++ decimal number) }
{
    let mut digits = Buffer::new();
    text.extend_from_slice(label)?;
    text.extend_from_slice(digits.format(number).as_bytes())?;
    Ok(())
}

/// A label and then a name.
fn push_named(text: &mut Vec<u8>, label: &[u8], name: &[u8]) -> Result<(), Memory>
    ensures { OnOk result (text.new.items ≡ text.old.items ++ label.now ++ name.now) }
{
    text.extend_from_slice(label)?;
    text.extend_from_slice(name)?;
    Ok(())
}

/// The word for how a job ended.
fn word_of(end: JobEnd) -> &'static str
    ensures { result.now ≡ end_word end }
{
    match end {
        JobEnd::Done => "done",
        JobEnd::GaveUp => "gaveup",
        JobEnd::Late => "late",
        JobEnd::Crowded => "crowded",
        JobEnd::Unfinished => "unfinished",
    }
}

/// How a job ended.
pub fn push_job(text: &mut Vec<u8>, name: &[u8], end: JobEnd) -> Result<(), Memory>
    ensures { OnOk result (text.new.items ≡ text.old.items ++ job_text name.now end) }
{
    push_named(text, b"job ", name)?;
    push_named(text, b" ", word_of(end).as_bytes())?;
    text.extend_from_slice(b"\n")?;
    Ok(())
}

/// The name of the resource at a place.
fn name_of_resource(resources: &[Resource], at: u32) -> &[u8]
    ensures { result.now ≡ name_at resources.now at }
{
    match resources.get(at as usize) {
        Some(resource) => resource.name.as_slice(),
        None => &[],
    }
}

/// The name of the job at a place.
fn name_of_job(jobs: &[Job], place: u32) -> &[u8]
    ensures { result.now ≡ name_of_job jobs.now place }
{
    match jobs.get(place as usize) {
        Some(job) => job.name.as_slice(),
        None => &[],
    }
}

/// Whose a wait was.
pub fn push_wait(text: &mut Vec<u8>, plan: &Plan, wait: WaitLine) -> Result<(), Memory>
    ensures { OnOk result (text.new.items ≡ text.old.items ++ wait_text plan.now wait) }
{
    let resource = name_of_resource(plan.resources.as_slice(), wait.at);
    let job = name_of_job(plan.jobs.as_slice(), wait.job);
    push_named(text, b"waits ", resource)?;
    push_labelled(text, b" ", wait.number)?;
    push_named(text, b" ", job)?;
    text.extend_from_slice(b"\n")?;
    Ok(())
}

/// How many jobs ended in each way.
pub fn push_total(text: &mut Vec<u8>, ends: &[JobEnd]) -> Result<(), Memory>
    requires { length ends.now ≤ 4096 }
    ensures { OnOk result (text.new.items ≡ text.old.items ++ total_text ends.now) }
{
    let totals = totals_of(ends);
    push_labelled(text, b"total done ", u64::from(totals.done))?;
    push_labelled(text, b" gaveup ", u64::from(totals.gave_up))?;
    push_labelled(text, b" late ", u64::from(totals.late))?;
    push_labelled(text, b" crowded ", u64::from(totals.crowded))?;
    push_labelled(text, b" unfinished ", u64::from(totals.unfinished))?;
    text.extend_from_slice(b"\n")?;
    Ok(())
}

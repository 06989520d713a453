//! The picture of a report, as an SVG.

use crate::filling::write_filled;
use crate::lines::Kind;
use crate::rows::{End, Job, Level, Mark, Resource, Rows, Span, State, Told};
use std::alloc::Global;
use std::io::Write;

/// Pixels of the whole picture, of the names at its left, where the longest that a plan may have is
/// seen whole, and of the turns beside them.
const WIDTH: u64 = 1050;

const NAMES: u64 = 260;

const TURNS: u64 = 760;
/// Pixels of the legend above the rows, of a job's row and of its bar, and of a resource's row.
const LEGEND: u64 = 60;

const JOB_ROW: u64 = 20;

const JOB_BAR: u64 = 14;

const RESOURCE_ROW: u64 = 44;
/// Pixels of the highest level of a resource.
const LEVEL: u64 = 16;

/// Pixels of a screen: a higher picture has the turns above its rows, too.
const SCREEN: u64 = 600;

/// The picture, its title, and its ground: the width and height, how many jobs and turns there are,
/// and the width and height again.
const PICTURE: &str = "<svg xmlns=\"http://www.w3.org/2000/svg\" role=\"img\" width=\"@\" \
                       height=\"@\" viewBox=\"0 0 @ @\">\n<title>Report of a plan: jobs @, turns \
                       @</title>\n<rect class=\"ground\" width=\"@\" height=\"@\"/>\n";

/// What stands before the rows: the colours of a light and of a dark page, the patterns, by which
/// the colours are told apart, too, and the legend.
const HEAD: &str =
    r##"<style>text{font:12px sans-serif;fill:#1e293b}.small{font-size:10px;fill:#475569}
.name{font-family:monospace}.ground{fill:#ffffff}.line{stroke:#334155;fill:none}
@media (prefers-color-scheme:dark){text{fill:#e2e8f0}.small{fill:#cbd5e1}
.ground{fill:#0f172a}.line{stroke:#cbd5e1}}</style>
<defs>
<pattern id="waiting" width="6" height="6" patternUnits="userSpaceOnUse"
patternTransform="rotate(45)"><rect width="6" height="6" fill="#fde68a"/>
<rect width="3" height="6" fill="#d97706"/></pattern>
<pattern id="holding" width="5" height="5" patternUnits="userSpaceOnUse">
<rect width="5" height="5" fill="#2563eb"/><circle cx="2.5" cy="2.5" r="1" fill="#dbeafe"/>
</pattern>
</defs>
<g transform="translate(90 0)">
<rect x="170" y="14" width="26" height="14" fill="#cbd5e1"/><text x="202" y="25">works</text>
<rect x="250" y="14" width="26" height="14" fill="url(#waiting)"/><text x="282" y="25">waits</text>
<rect x="330" y="14" width="26" height="14" fill="url(#holding)"/><text x="362" y="25">holds</text>
<circle cx="423" cy="21" r="5" fill="#16a34a"/><text x="436" y="25">done</text>
<path d="M485 16l10 10m0-10l-10 10" stroke="#b91c1c" stroke-width="2.5"/>
<text x="502" y="25">gave up</text>
<path d="M571 27l6-11l6 11z" fill="#7c3aed"/><text x="590" y="25">late</text>
<path class="line" d="M632 15l6 6l-6 6" stroke-width="2.5"/>
<text x="646" y="25">not ended</text>
"##;

/// What stands beside the legend where there is a latch or a barrier.
const PASSED_HEAD: &str = r##"<path d="M740 17l4 4l-4 4l-4-4z" fill="#0f766e" stroke="#ffffff"/>
<text x="750" y="25">opens, or is the last</text>
<path d="M882 14V28" stroke="#0f766e" stroke-width="3"/><text x="888" y="25">counts</text>
"##;

/// What stands before the legend where a job came to a line again.
const AGAIN_HEAD: &str = r##"<path d="M80 21l9-6v12z" fill="#b91c1c" stroke="#ffffff"/>
<text x="95" y="25">tries again</text>
"##;

/// What ends the legend.
const HEAD_END: &str = "</g>\n";

/// How many pixels from the left edge a turn begins.
fn place_of(turn: u64, turns: u64) -> u64 {
    let across = turn.min(turns).saturating_mul(TURNS) / turns.max(1);
    NAMES.saturating_add(across)
}

/// A name as text of an SVG: what has a meaning there is written by its number, and what can't be
/// written at all as a question mark.
fn escape(alloc: Global, name: &str) -> anyhow::Result<String> {
    let mut text = String::new(alloc);
    for sign in name.chars() {
        match sign {
            '&' => text.push_str("&#38;")?,
            '<' => text.push_str("&#60;")?,
            '>' => text.push_str("&#62;")?,
            '"' => text.push_str("&#34;")?,
            '\u{0}'..='\u{1f}' | '\u{fffe}' | '\u{ffff}' => text.push('?')?,
            _ => text.push(sign)?,
        }
    }
    Ok(text)
}

/// The bar of what a job is at: its left edge, top, width and height, and from which turn to which.
fn bar_of(state: State) -> &'static str {
    match state {
        State::Working => {
            "<rect x=\"@\" y=\"@\" width=\"@\" height=\"@\" fill=\"#cbd5e1\"><title>works from \
             turn @ to @</title></rect>\n"
        }
        State::Waiting => {
            "<rect x=\"@\" y=\"@\" width=\"@\" height=\"@\" fill=\"url(#waiting)\"><title>waits \
             from turn @ to @</title></rect>\n"
        }
        State::Holding => {
            "<rect x=\"@\" y=\"@\" width=\"@\" height=\"@\" fill=\"url(#holding)\"><title>holds \
             from turn @ to @</title></rect>\n"
        }
    }
}

fn draw_span<W: Write>(out: &mut W, span: Span, turns: u64, top: u64) -> anyhow::Result<()> {
    let left = place_of(span.from, turns);
    let width = place_of(span.to, turns).saturating_sub(left).max(1);
    let numbers = [left, top, width, JOB_BAR, span.from, span.to];
    write_filled(out, bar_of(span.state), &numbers)
}

/// The marks at the end of a job's bar: where each stands, and the turn.
const DONE: &str = "<circle cx=\"@\" cy=\"@\" r=\"5\" fill=\"#16a34a\"><title>done in turn @\
                    </title></circle>\n";

const GAVE_UP: &str = "<path d=\"M@ @l10 10m0-10l-10 10\" stroke=\"#b91c1c\" \
                       stroke-width=\"2.5\"><title>gave up in turn @</title></path>\n";

const LATE: &str = "<path d=\"M@ @l6-11l6 11z\" fill=\"#7c3aed\"><title>late in turn @</title>\
                    </path>\n";

const NOT_ENDED: &str = "<path class=\"line\" d=\"M@ @l6 6l-6 6\" stroke-width=\"2.5\"><title>not \
                         ended</title></path>\n";

/// The mark at the end of a job's bar.
fn draw_end<W: Write>(out: &mut W, job: &Job, turns: u64, top: u64) -> anyhow::Result<()> {
    let middle = top.saturating_add(JOB_BAR / 2);
    let Some((turn, end)) = job.end else {
        let numbers = [place_of(turns, turns), middle.saturating_sub(6)];
        return write_filled(out, NOT_ENDED, &numbers);
    };
    let left = place_of(turn, turns);
    let (mark, left, top) = match end {
        End::Done => (DONE, left, middle),
        End::GaveUp => (GAVE_UP, left.saturating_sub(5), middle.saturating_sub(5)),
        End::Late => (LATE, left.saturating_sub(6), middle.saturating_add(5)),
    };
    write_filled(out, mark, &[left, top, turn])
}

/// The marks of what was done at a latch or a barrier, and of a job that came to a line again:
/// where each stands, and what it says.
const LEFT: &str = "<path d=\"M@ @V@\" stroke=\"#0f766e\" stroke-width=\"3\"><title>counted down \
                    in turn @, @ left</title></path>\n";

const OPEN: &str = "<path d=\"M@ @l4 4l-4 4l-4-4z\" fill=\"#0f766e\" stroke=\"#ffffff\"><title>\
                    opened in turn @</title></path>\n";

const OVER: &str = "<path d=\"M@ @l4 4l-4 4l-4-4z\" fill=\"#0f766e\" stroke=\"#ffffff\"><title>\
                    last arrival in turn @, in round @</title></path>\n";

const AGAIN: &str =
    "<path d=\"M@ @l9-6v12z\" fill=\"#b91c1c\" stroke=\"#ffffff\"><title>tries again \
                     in turn @</title></path>\n";

/// The marks in a row, around this height.
fn draw_marks<W: Write>(
    out: &mut W,
    marks: &[Mark],
    turns: u64,
    middle: u64,
) -> anyhow::Result<()> {
    let top = middle.saturating_sub(4);
    for mark in marks {
        let left = place_of(mark.turn, turns);
        match mark.told {
            Told::Left(count) => {
                let (top, bottom) = (middle.saturating_sub(6), middle.saturating_add(6));
                write_filled(out, LEFT, &[left, top, bottom, mark.turn, count])?;
            }
            Told::Open => write_filled(out, OPEN, &[left, top, mark.turn])?,
            Told::Over(round) => write_filled(out, OVER, &[left, top, mark.turn, round])?,
            Told::Again => write_filled(out, AGAIN, &[left, middle, mark.turn])?,
        }
    }
    Ok(())
}

/// The most that were held, and the most who waited.
fn highest(levels: &[Level]) -> (u64, u64) {
    let mut held = 0;
    let mut waiting = 0;
    for level in levels {
        held = level.held.max(held);
        waiting = level.waiting.max(waiting);
    }
    (held, waiting)
}

/// Pixels of a level, of which the highest is this.
fn height_of(level: u64, highest: u64) -> u64 {
    level.saturating_mul(LEVEL) / highest.max(1)
}

/// The bars of a resource: the left edge, top, width and height, and how many are held, or wait.
const HELD: &str = "<rect x=\"@\" y=\"@\" width=\"@\" height=\"@\" fill=\"url(#holding)\"><title>@ \
                    held</title></rect>\n";

const IN_LINE: &str = "<rect x=\"@\" y=\"@\" width=\"@\" height=\"@\" fill=\"url(#waiting)\">\
                       <title>@ in line</title></rect>\n";

/// The bars of a level, up to this turn: upwards from the middle how many are held, of which this
/// is the most, and downwards how many wait.
fn draw_level<W: Write>(
    out: &mut W,
    level: Level,
    most: (u64, u64),
    edges: (u64, u64),
    middle: u64,
) -> anyhow::Result<()> {
    let (left, right) = edges;
    let width = right.saturating_sub(left);
    let up = height_of(level.held, most.0);
    let down = height_of(level.waiting, most.1);
    if up != 0 {
        let numbers = [left, middle.saturating_sub(up), width, up, level.held];
        write_filled(out, HELD, &numbers)?;
    }
    if down != 0 {
        write_filled(out, IN_LINE, &[left, middle, width, down, level.waiting])?;
    }
    Ok(())
}

/// The line in the middle of a resource's row, and the most that were held, or waited.
const MIDDLE: &str = "<path class=\"line\" d=\"M@ @H@\"/>\n\
                      <text class=\"small\" x=\"@\" y=\"@\" text-anchor=\"end\">at most @ held, \
                      @ in line</text>\n";

/// The same of a latch or a barrier, of which nothing is held.
const PASSED_MIDDLE: &str = "<path class=\"line\" d=\"M@ @H@\"/>\n\
                             <text class=\"small\" x=\"@\" y=\"@\" text-anchor=\"end\">at most \
                             @ in line</text>\n";

/// The row of a resource: how many are held, upwards from its middle, and how many wait, downwards;
/// of a latch or a barrier, what was done at it.
fn draw_resource<W: Write>(
    out: &mut W,
    resource: &Resource,
    turns: u64,
    top: u64,
) -> anyhow::Result<()> {
    let levels = resource.levels.as_slice();
    let most = highest(levels);
    let middle = top.saturating_add(LEVEL).saturating_add(2);
    for (place, level) in levels.iter().enumerate() {
        let until = match levels.get(place.saturating_add(1)) {
            Some(next) => next.turn,
            None => turns,
        };
        let edges = (place_of(level.turn, turns), place_of(until, turns));
        draw_level(out, *level, most, edges, middle)?;
    }
    let right = NAMES.saturating_add(TURNS);
    let left = NAMES.saturating_sub(10);
    let bottom = top.saturating_add(34);
    match resource.kind {
        Kind::Held => {
            let numbers = [NAMES, middle, right, left, bottom, most.0, most.1];
            write_filled(out, MIDDLE, &numbers)?;
        }
        Kind::Passed => {
            let numbers = [NAMES, middle, right, left, bottom, most.1];
            write_filled(out, PASSED_MIDDLE, &numbers)?;
        }
    }
    draw_marks(out, resource.marks.as_slice(), turns, middle)
}

/// The mark of a turn: a line from its top to its bottom, and the turn below or above it.
const MARK: &str = "<path class=\"line\" d=\"M@ @V@\"/><text class=\"small\" x=\"@\" y=\"@\" \
                    text-anchor=\"middle\">@</text>\n";

/// What the marks are, at their left.
const TURN: &str = "<text class=\"small\" x=\"@\" y=\"@\" text-anchor=\"end\">turn</text>\n";

/// The most marks of turns, but for that of turn 0.
const MARKS: u64 = 11;

/// How many turns there are from one mark to the next: 1, 2 or 5 times a power of ten, so that the
/// marks are few.
fn step_of(turns: u64) -> u64 {
    let mut power = 1u64;
    for _ in 0..20 {
        for factor in [1, 2, 5] {
            let step = power.saturating_mul(factor);
            if turns / step.max(1) <= MARKS {
                return step;
            }
        }
        power = power.saturating_mul(10);
    }
    u64::MAX
}

/// The turns, as marks from this height on, with their numbers at another one.
fn draw_turns<W: Write>(out: &mut W, turns: u64, top: u64, text: u64) -> anyhow::Result<()> {
    let step = step_of(turns);
    let line = top.saturating_add(6);
    write_filled(out, TURN, &[NAMES.saturating_sub(10), text])?;
    for mark in 0..=MARKS {
        let turn = mark.saturating_mul(step);
        if turn <= turns {
            let left = place_of(turn, turns);
            write_filled(out, MARK, &[left, top, line, left, text, turn])?;
        }
    }
    Ok(())
}

/// A name at the left of its row.
fn draw_name<W: Write>(out: &mut W, alloc: Global, name: &str, top: u64) -> anyhow::Result<()> {
    let right = NAMES.saturating_sub(10);
    let bottom = top.saturating_add(12);
    write_filled(
        out,
        "<text class=\"name\" x=\"@\" y=\"@\" text-anchor=\"end\">",
        &[right, bottom],
    )?;
    out.write_all(escape(alloc, name)?.as_bytes())?;
    out.write_all(b"</text>\n")?;
    Ok(())
}

/// So many rows of this height.
fn rows_of(count: usize, height: u64) -> u64 {
    (count as u64).saturating_mul(height)
}

/// The row of a job: its name, its bar, and how it ended.
fn draw_job<W: Write>(
    out: &mut W,
    alloc: Global,
    name: &str,
    job: &Job,
    turns: u64,
    top: u64,
) -> anyhow::Result<()> {
    draw_name(out, alloc, name, top)?;
    for span in job.spans.iter() {
        draw_span(out, *span, turns, top)?;
    }
    draw_end(out, job, turns, top)?;
    let middle = top.saturating_add(JOB_BAR / 2);
    draw_marks(out, job.marks.as_slice(), turns, middle)
}

/// The rows of all jobs, below the legend.
fn draw_jobs<W: Write>(out: &mut W, alloc: Global, rows: &Rows) -> anyhow::Result<()> {
    let mut top = LEGEND;
    for (name, job) in rows.jobs.iter() {
        draw_job(out, alloc, name.as_str(), job, rows.turns, top)?;
        top = top.saturating_add(JOB_ROW);
    }
    Ok(())
}

/// The rows of all resources, from this height on.
fn draw_resources<W: Write>(
    out: &mut W,
    alloc: Global,
    rows: &Rows,
    top: u64,
) -> anyhow::Result<()> {
    let mut top = top;
    for (name, resource) in rows.resources.iter() {
        draw_name(out, alloc, name.as_str(), top.saturating_add(8))?;
        draw_resource(out, resource, rows.turns, top)?;
        top = top.saturating_add(RESOURCE_ROW);
    }
    Ok(())
}

/// Whether a job came to a line again.
fn comes_again(job: &Job) -> bool {
    job.marks
        .iter()
        .any(|mark| matches!(mark.told, Told::Again))
}

/// Writes the picture of these rows.
pub fn draw<W: Write>(out: &mut W, alloc: Global, rows: &Rows) -> anyhow::Result<()> {
    let resources = LEGEND.saturating_add(rows_of(rows.jobs.len(), JOB_ROW));
    let bottom = resources.saturating_add(rows_of(rows.resources.len(), RESOURCE_ROW));
    let height = bottom.saturating_add(30);
    let jobs = rows.jobs.len() as u64;
    let numbers = [
        WIDTH, height, WIDTH, height, jobs, rows.turns, WIDTH, height,
    ];
    write_filled(out, PICTURE, &numbers)?;
    out.write_all(HEAD.as_bytes())?;
    if rows
        .resources
        .values()
        .any(|resource| resource.kind == Kind::Passed)
    {
        out.write_all(PASSED_HEAD.as_bytes())?;
    }
    if rows.jobs.values().any(comes_again) {
        out.write_all(AGAIN_HEAD.as_bytes())?;
    }
    out.write_all(HEAD_END.as_bytes())?;
    if bottom > SCREEN {
        let above = LEGEND.saturating_sub(12);
        draw_turns(out, rows.turns, above, above.saturating_sub(4))?;
    }
    draw_jobs(out, alloc, rows)?;
    draw_resources(out, alloc, rows, resources)?;
    draw_turns(out, rows.turns, bottom, bottom.saturating_add(18))?;
    out.write_all(b"</svg>\n")?;
    Ok(())
}

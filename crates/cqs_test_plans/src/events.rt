//! How often the rarer events came in reports.

use std::fmt;

/// How often a wait was served, begun again, given up, and late; and how often a latch was opened,
/// and the last party of a round arrived.
#[derive(Clone, Copy, Default)]
pub struct Events {
    served: u64,
    begun_again: u64,
    gave_up: u64,
    late: u64,
    opened: u64,
    arrived: u64,
}

impl Events {
    /// Counts the events of a report.
    pub fn count(&mut self, report: &[u8]) -> anyhow::Result<()> {
        for line in str::from_utf8(report)?.lines() {
            let count = match line.split(' ').nth(2) {
                Some("served") => &mut self.served,
                Some("retries") => &mut self.begun_again,
                Some("gaveup") => &mut self.gave_up,
                Some("late") => &mut self.late,
                Some("downs") if line.ends_with(" open") => &mut self.opened,
                Some("arrives") => &mut self.arrived,
                _ => continue,
            };
            *count = count.saturating_add(1);
        }
        Ok(())
    }
}

impl fmt::Display for Events {
    fn fmt<W: fmt::Write>(&self, f: &mut fmt::Formatter<W>) -> fmt::Result {
        write!(
            f,
            "{} waits served, {} begun again, {} given up, {} late, {} latches opened, {} rounds \
             over",
            self.served, self.begun_again, self.gave_up, self.late, self.opened, self.arrived
        )
    }
}

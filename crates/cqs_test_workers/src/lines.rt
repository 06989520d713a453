//! What a text of workers tells, whatever the order in which they came.

/// Whether the text tells of so many jobs how they ended, and its last line counts as many in all.
pub fn tells_all(text: &str, jobs: u64) -> bool {
    let told = text.lines().filter(|line| line.starts_with("job ")).count();
    let Some(total) = text.lines().last() else {
        return false;
    };
    told as u64 == jobs && total.starts_with("total ") && sum_of(total) == jobs
}

/// The sum of the numbers of a line.
fn sum_of(line: &str) -> u64 {
    let mut sum = 0u64;
    for word in line.split(' ') {
        if let Ok(number) = word.parse::<u64>() {
            sum = sum.saturating_add(number);
        }
    }
    sum
}

/// Whether the text has this line.
pub fn has_line(text: &str, wanted: &str) -> bool {
    text.lines().any(|line| line == wanted)
}

/// Whether both texts tell the same of the resources, in the same order.
pub fn have_same_ends(text: &str, other: &str) -> bool {
    let ends = text.lines().filter(|line| line.starts_with("end "));
    let other_ends = other.lines().filter(|line| line.starts_with("end "));
    ends.eq(other_ends)
}

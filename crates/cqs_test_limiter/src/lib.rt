//! Tests of the limiter: the rows of small texts, and a text of many lines, by one worker and by
//! several beside each other. Their expected answers were worked out by hand or by another program.
#![tactic(auto)]

#[cfg(test)]
mod answering;
#[cfg(test)]
mod many_lines;
#[cfg(test)]
mod rows;

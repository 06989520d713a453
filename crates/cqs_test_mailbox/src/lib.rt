//! Tests of a mailbox, call by call and in threads, and of its letters and its acknowledgements
//! alone. Their expected answers were worked out by hand.
#![tactic(auto)]

#[cfg(test)]
mod acknowledgements;
#[cfg(test)]
mod crews;
#[cfg(test)]
mod crowded;
#[cfg(test)]
mod desks;
#[cfg(test)]
mod eight;
#[cfg(test)]
mod letters_in_order;
#[cfg(test)]
mod many_letters;
#[cfg(test)]
mod one_envelope;
#[cfg(test)]
mod posts;

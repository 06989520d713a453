//! The primitives for callers in C, and in every language that can call C: a static library.
//!
//! `bindings/c/cqs.h` gives each primitive the functions that C calls, over the three exports, and
//! says what each answer means. C has one pointer to a primitive, and names passes and waits by
//! numbers (`cqs_c_numbers`). The exports that take it test it against null first.
#![tactic(auto)]

mod answers;
mod calls;
mod ending;
mod exports;
mod making;

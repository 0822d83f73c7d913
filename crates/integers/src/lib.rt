// Integer literals: read from a span of a text, and written into a buffer.
#![tactic(auto)]

mod numbers;
pub mod reading;
pub mod writing;

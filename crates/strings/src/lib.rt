// Strings and quoted names: read from a span of a text, and written into a buffer.
#![tactic(auto)]

pub mod reading;
pub mod writing;

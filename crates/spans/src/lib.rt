// Spans of a text that are tokens: what every call that reads a literal asks first.
#![tactic(auto)]

pub mod answers;
pub mod span;

// A lexeme read on by one byte: `step` leads from what has been read to what has then been read, as the arrows of `readings` say. There is a
// file for each family of readings, one for the start, where the family is not yet decided, and two for what they share.
#![tactic(auto)]

mod bytes;
mod named;
mod numbers;
mod operators;
mod quoted;
mod runs;
mod single;
mod start;
pub mod step;

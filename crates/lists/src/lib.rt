// Above the lexer: the records of a text into a lent list, all at once or a slice at a time. Both walk `lexer::next`.
#![tactic(auto)]

mod lines;
pub mod list;
pub mod part;
mod pass;

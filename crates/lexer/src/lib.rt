// The lexer: `next` gives the longest lexeme at a cursor. Read `sets` (of bytes), `cursor` (places in a text) and `lexed` (answers), then in the Rust's order
// `digits`, `operators`, `quoted`, `numbers`, `parameters` and `identifiers`; `next` chooses among them by the first byte.
#![tactic(auto)]

pub mod cursor;
mod digits;
mod identifiers;
pub mod lexed;
pub mod next;
mod numbers;
mod operators;
mod parameters;
mod quoted;
mod sets;

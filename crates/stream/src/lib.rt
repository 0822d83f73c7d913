// Lexing packet by packet: the text comes in parts, and each call gives one token, as soon as no byte to come can alter it.
#![tactic(auto)]

mod answers;
pub mod calls;
pub mod stream;

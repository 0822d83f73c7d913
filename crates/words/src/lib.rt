// What a byte may be (`bytes`) and what a word is (`lookup`), above the word list of the crate keywords.
#![tactic(auto)]

pub mod bytes;
pub mod lookup;

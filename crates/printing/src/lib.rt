// What the programs print: `text` what `sqllex` does. Below it `input` reads the records, `lines`, `answers` and `blocks` say what is printed
// of a text, `replay` does so in several ways, and `streams` says what is printed of a stream's calls. What is printed is gathered in a row of
// the crate `rows`. The crate `batch` above prints what `sqlbatch` and `replay` do.
#![tactic(auto)]

use lists::list::LONGEST_TEXT;
use records::WIDTH;

pub mod answers;
pub mod blocks;
pub mod input;
pub mod lines;
pub mod replay;
mod streams;
pub mod text;

// The most numbers that a list fills: a record for each byte of the longest text.
pub const MOST: usize = WIDTH * LONGEST_TEXT;

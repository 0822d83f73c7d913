// A list made elsewhere, as on the phone, checked against its text: nothing about its records is trusted.
#![tactic(auto)]

mod step;

ghost use Rattle.grammar.specs.Longest.{source};
ghost use Rattle.agreeing.specs.Agreeing.{Checks};

use crate::step::{Place, agree, finish};
use grammar::profile::Profile;
use lexer::cursor::Cursor;
use lists::list::LONGEST_TEXT;
use places::FIRST;
use records::Record;

// `ListDiffers` is at the first record that differs, is surplus or is missing.
#[derive(Clone, Copy, PartialEq, Eq, Debug)]
pub enum CheckError {
    TooLong,
    ListDiffers { index: usize },
}

// Ok exactly where the records are those that `list` would write from the text's beginning on, and the text has no refusal. The text is gone
// through once, a record at a time.
pub fn check_list(text: &[u8], profile: Profile, records: &[Record]) -> Result<(), CheckError>
    ensures { Checks (source profile text.now) records.now result }
{
    if LONGEST_TEXT < text.len() {
        return Err(CheckError::TooLong);
    }
    let mut place = Place {
        next: Cursor { at: 0 },
        line: FIRST,
    };
    for (index, r) in records.iter().enumerate() {
        place = agree(
            text, profile, place, r.kind, r.start, r.length, r.line, r.column,
        )
        .ok_or(CheckError::ListDiffers { index })?;
    }
    finish(text, profile, place, records.len())
}

// One record of a list beside the lexeme at a place of the text, and the end of the list: what `check_list` does. A record's numbers go in one
// by one, the form that the project names for this check.
ghost use Rattle.std.specs.Prelude.{◌≡◌};
ghost use Rattle.grammar.specs.Longest.{source};
ghost use Rattle.records.specs.Records.{record_of};
ghost use Rattle.lists.specs.Lines.{record_on};
ghost use Rattle.agreeing.specs.Agreeing.{same};
ghost use Rattle.agreeing.specs.Steps.{Steps, Finishes};

use crate::CheckError;
use grammar::profile::Profile;
use lexer::cursor::Cursor;
use lexer::lexed::Lexed;
use lexer::next::next;
use places::{Line, line_behind};

// Where the lexeme of the last record ends: the cursor and its line.
#[derive(Clone, Copy)]
pub(crate) struct Place {
    pub(crate) next: Cursor,
    pub(crate) line: Line,
}

// From a place to that behind the lexeme there, if the record is that lexeme's.
pub(crate) fn agree(
    text: &[u8],
    profile: Profile,
    place: Place,
    kind: u32,
    start: u32,
    length: u32,
    line: u32,
    column: u32,
) -> Option<Place>
    ensures { Steps (source profile text.now) place (record_of kind start length line column) result }
{
    let Lexed::Token {
        kind: own,
        start: from,
        length: bytes,
        next: behind,
        ..
    } = next(text, place.next, profile)
    else {
        return None;
    };
    if !is_record(
        own, from, bytes, place.line, kind, start, length, line, column,
    ) {
        return None;
    }
    Some(Place {
        next: behind,
        line: line_behind(text, from, behind.at, place.line),
    })
}

// Whether these five numbers are the record of a token on a line. They are compared as they are: for `==` of two records a token's would have
// to be made smaller.
fn is_record(
    own: u32,
    from: usize,
    bytes: usize,
    here: Line,
    kind: u32,
    start: u32,
    length: u32,
    line: u32,
    column: u32,
) -> bool
    ensures { result ≡ same (record_on here own from bytes) (record_of kind start length line column) }
{
    own == kind
        && from == start as usize
        && bytes == length as usize
        && here.number == line
        && (start as usize).saturating_sub(here.start) + 1 == column as usize
}

// Behind the last of so many records, all of which agree.
pub(crate) fn finish(
    text: &[u8],
    profile: Profile,
    place: Place,
    count: usize,
) -> Result<(), CheckError>
    ensures { Finishes (source profile text.now) place.next.at count result }
{
    match next(text, place.next, profile) {
        Lexed::End { .. } => Ok(()),
        _ => Err(CheckError::ListDiffers { index: count }),
    }
}

// Whether a span is a token.
ghost use Rattle.spans.specs.Spans.{Finds};

use grammar::profile::Profile;
use lexer::cursor::Cursor;
use lexer::lexed::Lexed;
use lexer::next::next;

// How many digits the span has, where Next gives exactly it. The token is not taken from the caller, who could be wrong: Next is asked again.
// Text, start, length and profile stand apart, here and in the calls that read: docs/CONTRACTS.md has the calls with these parameters.
pub fn find(text: &[u8], start: usize, length: usize, kind: u32, profile: Profile) -> Option<u32>
    ensures { Finds profile text.now start length kind result }
{
    let Lexed::Token {
        kind: found,
        length: n,
        digits,
        ..
    } = next(text, Cursor { at: start }, profile)
    else {
        return None;
    };
    if found == kind && n == length {
        Some(digits)
    } else {
        None
    }
}

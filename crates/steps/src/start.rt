// From the start, where the first byte decides the family.
ghost use Rattle.std.specs.Prelude.{◌≡◌, [], ◌∷◌};
ghost use Rattle.grammar.specs.Form.{any, one_of};
ghost use Rattle.grammar.specs.Classes.{U};
ghost use Rattle.grammar.specs.Runs.{char};
ghost use Rattle.readings.specs.Arrows.{first, mark, ◌to◌, follow};

use crate::bytes::{is_either, is_unrecognized, is_word_start};
use grammar::profile::Profile;
use readings::reading::{Named, Number, Operator, Quoted, Reading, Run};
use words::bytes::{is_blank, is_digit};

pub(crate) fn at_start(profile: Profile, b: u8) -> Reading
    ensures { result ≡ follow (first profile) b }
{
    if is_blank(b) {
        Reading::Run(Run::Blanks)
    } else if is_word_start(b) {
        at_word(b)
    } else if is_digit(b) {
        at_digit(b)
    } else {
        at_mark(profile, b)
    }
}

fn at_word(b: u8) -> Reading
    ensures { result ≡ follow (one_of "xX" to Reading.Run Run.X ∷ any to Reading.Run Run.Word ∷ []) b }
{
    if is_either(b'x', b'X', b) {
        Reading::Run(Run::X)
    } else {
        Reading::Run(Run::Word)
    }
}

fn at_digit(b: u8) -> Reading
    ensures { result ≡ follow (char "0" to Reading.Number Number.Zero ∷ any to Reading.Number Number.Digits ∷ []) b }
{
    if b == b'0' {
        Reading::Number(Number::Zero)
    } else {
        Reading::Number(Number::Digits)
    }
}

fn at_mark(profile: Profile, b: u8) -> Reading
    ensures { result ≡ follow (mark profile) b }
{
    match b {
        b'.' => Reading::Number(Number::Dot),
        b'-' => Reading::Operator(Operator::Minus),
        b'/' => Reading::Operator(Operator::Slash),
        b'=' | b'!' => Reading::Operator(Operator::Equals),
        b'<' => Reading::Operator(Operator::Less),
        b'>' => Reading::Operator(Operator::Greater),
        b'|' => Reading::Operator(Operator::Bar),
        b'\'' => Reading::Quoted(Quoted::Quote),
        b'"' => Reading::Quoted(Quoted::DoubleQuote),
        b'`' => Reading::Quoted(Quoted::Backtick),
        b'$' => Reading::Named(Named::Sigil),
        b'?' => Reading::Named(Named::Question),
        b'&' => match profile {
            Profile::Turso => Reading::Operator(Operator::Ampersand),
            Profile::Sqlite => Reading::Whole,
        },
        b'@' => match profile {
            Profile::Turso => Reading::Named(Named::At),
            Profile::Sqlite => Reading::Named(Named::Sigil),
        },
        b':' => match profile {
            Profile::Turso => Reading::Named(Named::Colon),
            Profile::Sqlite => Reading::Named(Named::Sigil),
        },
        b'[' => match profile {
            Profile::Turso => Reading::Whole,
            Profile::Sqlite => Reading::Quoted(Quoted::Bracket),
        },
        _ => at_other(b),
    }
}

fn at_other(b: u8) -> Reading
    ensures { result ≡ follow (U to Reading.Run Run.Stray ∷ any to Reading.Whole ∷ []) b }
{
    if is_unrecognized(b) {
        Reading::Run(Run::Stray)
    } else {
        Reading::Whole
    }
}

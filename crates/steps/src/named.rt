// In parameters: behind a sigil, a colon, a name and digits.
ghost use Rattle.std.specs.Prelude.{◌≡◌, [], ◌∷◌, cond};
ghost use Rattle.grammar.specs.Runs.{char};
ghost use Rattle.readings.specs.Arrows.{in_named, ◌to◌, follow};

use crate::single::only;
use readings::reading::{Named, Reading};
use words::bytes::{is_blank, is_digit, is_identifier_continue, is_identifier_start};

pub(crate) fn in_named(named: Named, b: u8) -> Reading
    ensures { result ≡ follow (in_named named) b }
{
    match named {
        Named::Sigil => name_or_colon(is_identifier_continue(b), b),
        Named::SigilColon => only(b == b':', Reading::Named(Named::Sigil)),
        Named::Colon => name_or_colon(is_identifier_start(b), b),
        Named::At => after_at(b),
        Named::Name => in_name(b),
        Named::NameColon => only(b == b':', Reading::Named(Named::Name)),
        Named::Paren => in_paren(b),
        Named::Question => only(is_digit(b), Reading::Named(Named::Question)),
    }
}

// `in_name`: the byte is one of a name here. If not, a pair of colons may begin.
fn name_or_colon(in_name: bool, b: u8) -> Reading
    ensures { result ≡ cond in_name (Reading.Named Named.Name) (follow (char ":" to Reading.Named Named.SigilColon ∷ []) b) }
{
    if in_name {
        Reading::Named(Named::Name)
    } else {
        only(b == b':', Reading::Named(Named::SigilColon))
    }
}

fn after_at(b: u8) -> Reading
    ensures { result ≡ follow (in_named Named.At) b }
{
    if b == b'>' {
        Reading::Whole
    } else {
        name_or_colon(is_identifier_continue(b), b)
    }
}

fn in_name(b: u8) -> Reading
    ensures { result ≡ follow (in_named Named.Name) b }
{
    if is_identifier_continue(b) {
        Reading::Named(Named::Name)
    } else if b == b':' {
        Reading::Named(Named::NameColon)
    } else {
        only(b == b'(', Reading::Named(Named::Paren))
    }
}

fn in_paren(b: u8) -> Reading
    ensures { result ≡ follow (in_named Named.Paren) b }
{
    if b == b')' {
        Reading::Whole
    } else {
        only(!is_blank(b), Reading::Named(Named::Paren))
    }
}

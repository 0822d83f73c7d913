// Sets of bytes that the arrows have beside those of `words`.
ghost use Rattle.std.specs.Prelude.{◌≡◌};
ghost use Rattle.grammar.specs.Form.{S, blank, control, byte, none, ◌or◌, ◌except◌, holds};
ghost use Rattle.grammar.specs.Classes.{U};
ghost use Rattle.grammar.specs.Runs.{char};

use words::bytes::{is_blank, is_identifier_start};

pub(crate) fn is_either(x: u8, y: u8, b: u8) -> bool
    ensures { result ≡ holds (byte x or byte y or none) b }
{
    b == x || b == y
}

pub(crate) fn is_word_start(b: u8) -> bool
    ensures { result ≡ holds (S or char "#") b }
{
    is_identifier_start(b) || b == b'#'
}

// What starts nothing.
pub(crate) fn is_unrecognized(b: u8) -> bool
    ensures { result ≡ holds U b }
{
    matches!(b, b'\\' | b'^' | b'{' | b'}' | 0x7F) || is_unprinted(b)
}

// 00 to 1F but for blanks.
fn is_unprinted(b: u8) -> bool
    ensures { result ≡ holds (control except blank) b }
{
    b <= 0x1F && !is_blank(b)
}

// Within quotes and brackets, and behind a quote that may close.
ghost use Rattle.std.specs.Prelude.{◌≡◌};
ghost use Rattle.readings.specs.Arrows.{in_quoted, follow};

use crate::single::only;
use readings::reading::{Quoted, Reading};
use words::bytes::is_hexdigit;

pub(crate) fn in_quoted(quoted: Quoted, b: u8) -> Reading
    ensures { result ≡ follow (in_quoted quoted) b }
{
    match (quoted, b) {
        (Quoted::Quote, b'\'') => Reading::Quoted(Quoted::QuoteTwice),
        (Quoted::DoubleQuote, b'"') => Reading::Quoted(Quoted::DoubleQuoteTwice),
        (Quoted::Backtick, b'`') => Reading::Quoted(Quoted::BacktickTwice),
        (Quoted::Bracket, b']') => Reading::Whole,
        (Quoted::Quote | Quoted::DoubleQuote | Quoted::Backtick | Quoted::Bracket, _) =>
            Reading::Quoted(quoted),
        (Quoted::QuoteTwice, _) => only(b == b'\'', Reading::Quoted(Quoted::Quote)),
        (Quoted::DoubleQuoteTwice, _) => only(b == b'"', Reading::Quoted(Quoted::DoubleQuote)),
        (Quoted::BacktickTwice, _) => only(b == b'`', Reading::Quoted(Quoted::Backtick)),
        (Quoted::Blob, _) => in_blob(b),
    }
}

fn in_blob(b: u8) -> Reading
    ensures { result ≡ follow (in_quoted Quoted.Blob) b }
{
    if b == b'\'' {
        Reading::Whole
    } else {
        only(is_hexdigit(b), Reading::Quoted(Quoted::Blob))
    }
}

// The lines that are printed: names and numbers with a tab between them.
ghost use Rattle.std.specs.Prelude.{◌≡◌};

use lexer::lexed::Refusal;
use rows::out::Out;

// A name, and the numbers behind it.
pub fn put_line(out: &mut Out<'_, impl Print + Eprint>, name: &str, numbers: &[usize])
    ensures same_reference { out.new.row.ghost_name ≡ out.old.row.ghost_name }
{
    put_columns(out, name, numbers);
    out.put_byte(b'\n');
}

// The same, and the line goes on. A number of one digit is put as that byte: with a format for each, a stream in parts of one byte took a fifth more
// time (docs/PERFORMANCE.md).
pub(crate) fn put_columns(out: &mut Out<'_, impl Print + Eprint>, name: &str, numbers: &[usize])
    ensures same_reference { out.new.row.ghost_name ≡ out.old.row.ghost_name }
{
    out.put(name.as_bytes());
    for &n in numbers {
        out.put_byte(b'\t');
        match n {
            0..=9 => out.put_byte(b'0' + n as u8),
            _ => print!(out; "{n}"),
        }
    }
}

pub(crate) fn refusal_name(why: Refusal) -> &'static str {
    match why {
        Refusal::UnrecognizedToken => "UnrecognizedToken",
        Refusal::UnterminatedLiteral => "UnterminatedLiteral",
        Refusal::BadNumber => "BadNumber",
        Refusal::BadFractionalPart => "BadFractionalPart",
        Refusal::BadExponentPart => "BadExponentPart",
        Refusal::MalformedHexInteger => "MalformedHexInteger",
        Refusal::ExpectedEqualsSign => "ExpectedEqualsSign",
        Refusal::OffsetPastEnd => "OffsetPastEnd",
    }
}

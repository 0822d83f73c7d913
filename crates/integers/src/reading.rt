// The value of an integer that is a span of a text.
ghost use Rattle.std.specs.Prelude.{◌≡◌, ◌+◌, ◌*◌, true, false, ◌^◌, ◌≤◌, ◌<◌, drop};
ghost use Rattle.grammar.specs.Answers.{is_hex};
ghost use Rattle.integers.specs.Numbers.{value};
ghost use Rattle.integers.specs.Integers.{integer_of, up_to};
ghost use Rattle.integers.specs.Calls.{said_of, ReadsInteger};

use crate::numbers::{number_up_to, small_number};
use grammar::profile::Profile;
use keywords::kinds::TK_INTEGER;
use spans::span::find;

#[derive(Clone, Copy, PartialEq, Eq, Debug)]
pub enum IntegerError {
    NotThatLiteral,
    OutOfRange,
}

// The span's value: decimal up to 9,223,372,036,854,775,807; hexadecimal of up to 64 bits as two's complement.
pub fn read_integer(
    text: &[u8],
    start: usize,
    length: usize,
    profile: Profile,
) -> Result<i64, IntegerError>
    ensures { ReadsInteger profile text.now start length result }
{
    let digits = find(text, start, length, TK_INTEGER, profile).ok_or(
        IntegerError::NotThatLiteral,
    )?;
    let end = start + length;
    value_of(&text[start..end], digits)
}

fn value_of(lexeme: &[u8], digits: u32) -> Result<i64, IntegerError>
    requires lexeme_bound { is_hex lexeme.now ≡ false → digits ≤ 18 → value 10 lexeme.now < 10 ^ 18 }
    requires lexeme_bound_2 { is_hex lexeme.now ≡ true → digits ≤ 16 → value 16 (drop 2 lexeme.now) < 16 ^ 16 }
    ensures { said_of result ≡ integer_of lexeme.now }
{
    if is_hex(lexeme) {
        return value_in::<16, 16, 1152921504606846975, 15>(&lexeme[2..], digits);
    }
    value_in::<10, 18, 922337203685477580, 7>(lexeme, digits)
}

// `0x` or `0X`.
fn is_hex(bytes: &[u8]) -> bool
    ensures { result ≡ is_hex bytes.now }
{
    matches!(bytes, [b'0', b'x' | b'X', ..])
}

// The value of digits of a base, up to MOST * BASE + LAST. So many digits as FEW always fit; more may: zeros before the others do not count.
fn value_in<const BASE: u64, const FEW: u32, const MOST: u64, const LAST: u64>(
    bytes: &[u8],
    digits: u32,
) -> Result<i64, IntegerError>
    requires fits { digits ≤ FEW → value BASE bytes.now < BASE ^ FEW }
    requires few { BASE ^ FEW ≤ MOST * BASE + LAST + 1 }
    requires limit { (LAST < BASE) × (15 ≤ BASE + LAST) × (MOST * BASE + LAST < 2 ^ 64) }
    ensures { said_of result ≡ up_to (MOST * BASE + LAST) (value BASE bytes.now) }
{
    if digits <= FEW {
        return Ok(small_number(bytes, BASE).cast_signed());
    }
    number_up_to(bytes, BASE, MOST, LAST)
}

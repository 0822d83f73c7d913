// In numbers. Where the profile plays no part, a promise names the arrows of Turso, which are both profiles'.
ghost use Rattle.std.specs.Prelude.{◌≡◌, [], ◌∷◌};
ghost use Rattle.grammar.specs.Form.{S, one_of};
ghost use Rattle.readings.specs.Arrows.{in_number, in_digits, at_exponent, ◌to◌, follow};

use crate::bytes::is_either;
use crate::single::only;
use grammar::profile::Profile;
use readings::reading::{Number, Reading};
use words::bytes::{is_digit, is_hexdigit, is_identifier_start};

pub(crate) fn in_number(profile: Profile, number: Number, b: u8) -> Reading
    ensures { result ≡ follow (in_number profile number) b }
{
    match number {
        Number::Zero => after_zero(b),
        Number::Digits => in_digits(b),
        Number::DigitsUnderscore => only(is_digit(b), Reading::Number(Number::Digits)),
        Number::DigitsDot => after_dot(b),
        Number::Dot => only(is_digit(b), Reading::Number(Number::Fraction)),
        Number::Fraction => in_fraction(b),
        Number::E => after_e(profile, b),
        Number::Sign => at_exponent(profile, b),
        Number::Exponent => in_exponent(b),
        Number::ExponentUnderscore => only(is_digit(b), Reading::Number(Number::Exponent)),
        Number::ZeroX => after_zero_x(b),
        Number::Hex => in_hex(b),
        Number::HexUnderscore => only(is_hexdigit(b), Reading::Number(Number::Hex)),
    }
}

fn after_zero(b: u8) -> Reading
    ensures { result ≡ follow (in_number Profile.Turso Number.Zero) b }
{
    if is_either(b'x', b'X', b) {
        Reading::Number(Number::ZeroX)
    } else {
        in_digits(b)
    }
}

fn in_digits(b: u8) -> Reading
    ensures { result ≡ follow in_digits b }
{
    if is_digit(b) {
        Reading::Number(Number::Digits)
    } else if b == b'.' {
        Reading::Number(Number::DigitsDot)
    } else if b == b'_' {
        Reading::Number(Number::DigitsUnderscore)
    } else {
        at_e_or_letter(b)
    }
}

// What ends digits and fractions: an exponent, or a letter that spoils the number.
fn at_e_or_letter(b: u8) -> Reading
    ensures { result ≡ follow (one_of "eE" to Reading.Number Number.E ∷ S to Reading.Whole ∷ []) b }
{
    if is_either(b'e', b'E', b) {
        Reading::Number(Number::E)
    } else {
        at_letter(b)
    }
}

fn at_letter(b: u8) -> Reading
    ensures { result ≡ follow (S to Reading.Whole ∷ []) b }
{
    only(is_identifier_start(b), Reading::Whole)
}

fn after_dot(b: u8) -> Reading
    ensures { result ≡ follow (in_number Profile.Turso Number.DigitsDot) b }
{
    if is_digit(b) {
        Reading::Number(Number::Fraction)
    } else {
        only(is_either(b'e', b'E', b), Reading::Number(Number::E))
    }
}

// A fraction, an exponent and hexadecimal digits have functions of their own: one would be handed their readings, which are loaded by address
// then (docs/DECISIONS.md, `pick`).
fn in_fraction(b: u8) -> Reading
    ensures { result ≡ follow (in_number Profile.Turso Number.Fraction) b }
{
    if is_digit(b) {
        Reading::Number(Number::Fraction)
    } else if b == b'_' {
        Reading::Number(Number::Dot)
    } else {
        at_e_or_letter(b)
    }
}

fn after_e(profile: Profile, b: u8) -> Reading
    ensures { result ≡ follow (in_number profile Number.E) b }
{
    if is_either(b'+', b'-', b) {
        Reading::Number(Number::Sign)
    } else {
        at_exponent(profile, b)
    }
}

fn at_exponent(profile: Profile, b: u8) -> Reading
    ensures { result ≡ follow (at_exponent profile) b }
{
    if is_digit(b) {
        Reading::Number(Number::Exponent)
    } else if b == b'_' {
        match profile {
            Profile::Turso => Reading::Number(Number::ExponentUnderscore),
            Profile::Sqlite => Reading::Dead,
        }
    } else {
        Reading::Dead
    }
}

fn in_exponent(b: u8) -> Reading
    ensures { result ≡ follow (in_number Profile.Turso Number.Exponent) b }
{
    if is_digit(b) {
        Reading::Number(Number::Exponent)
    } else if b == b'_' {
        Reading::Number(Number::ExponentUnderscore)
    } else {
        at_letter(b)
    }
}

fn after_zero_x(b: u8) -> Reading
    ensures { result ≡ follow (in_number Profile.Turso Number.ZeroX) b }
{
    if is_hexdigit(b) {
        Reading::Number(Number::Hex)
    } else {
        only(b == b'_', Reading::Whole)
    }
}

fn in_hex(b: u8) -> Reading
    ensures { result ≡ follow (in_number Profile.Turso Number.Hex) b }
{
    if is_hexdigit(b) {
        Reading::Number(Number::Hex)
    } else if b == b'_' {
        Reading::Number(Number::HexUnderscore)
    } else {
        at_letter(b)
    }
}

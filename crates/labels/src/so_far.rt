// Readings by number: `Dead`, `Whole`, `Start`, then the families one behind the other, each in the order of its type.
ghost use Rattle.std.specs.Prelude.{◌≡◌};
ghost use Rattle.labels.specs.Readings.{reading_number, Numbers};

use readings::reading::{Named, Number, Operator, Quoted, Reading, Run};

// A reading's number is its place.
static READINGS: [Reading; 47] = [
    Reading::Dead,
    Reading::Whole,
    Reading::Start,
    Reading::Run(Run::Blanks),
    Reading::Run(Run::Word),
    Reading::Run(Run::X),
    Reading::Run(Run::Stray),
    Reading::Run(Run::Line),
    Reading::Run(Run::Block),
    Reading::Run(Run::BlockStar),
    Reading::Operator(Operator::Equals),
    Reading::Operator(Operator::Ampersand),
    Reading::Operator(Operator::Minus),
    Reading::Operator(Operator::Pointer),
    Reading::Operator(Operator::Less),
    Reading::Operator(Operator::Greater),
    Reading::Operator(Operator::Bar),
    Reading::Operator(Operator::Slash),
    Reading::Quoted(Quoted::Quote),
    Reading::Quoted(Quoted::QuoteTwice),
    Reading::Quoted(Quoted::DoubleQuote),
    Reading::Quoted(Quoted::DoubleQuoteTwice),
    Reading::Quoted(Quoted::Backtick),
    Reading::Quoted(Quoted::BacktickTwice),
    Reading::Quoted(Quoted::Bracket),
    Reading::Quoted(Quoted::Blob),
    Reading::Named(Named::Sigil),
    Reading::Named(Named::SigilColon),
    Reading::Named(Named::Colon),
    Reading::Named(Named::At),
    Reading::Named(Named::Name),
    Reading::Named(Named::NameColon),
    Reading::Named(Named::Paren),
    Reading::Named(Named::Question),
    Reading::Number(Number::Zero),
    Reading::Number(Number::Digits),
    Reading::Number(Number::DigitsUnderscore),
    Reading::Number(Number::DigitsDot),
    Reading::Number(Number::Dot),
    Reading::Number(Number::Fraction),
    Reading::Number(Number::E),
    Reading::Number(Number::Sign),
    Reading::Number(Number::Exponent),
    Reading::Number(Number::ExponentUnderscore),
    Reading::Number(Number::ZeroX),
    Reading::Number(Number::Hex),
    Reading::Number(Number::HexUnderscore),
];

// The reading that has this number, if one has.
pub fn reading_of(number: u32) -> Option<Reading>
    ensures { Numbers number result }
{
    // `get` answers with a reference in an Option, which the module for the Cortex-M4 can't hold (docs/DEVICE.md)
    let at = number as usize;
    if READINGS.len() <= at {
        return None;
    }
    Some(READINGS[at])
}

pub fn number_of(reading: Reading) -> u32
    ensures { result ≡ reading_number reading }
{
    match reading {
        Reading::Dead => 0,
        Reading::Whole => 1,
        Reading::Start => 2,
        Reading::Run(run) => 3 + run as u32,
        Reading::Operator(operator) => 10 + operator as u32,
        Reading::Quoted(quoted) => 18 + quoted as u32,
        Reading::Named(named) => 26 + named as u32,
        Reading::Number(number) => 34 + number as u32,
    }
}

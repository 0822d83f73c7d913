// A reading is named for what was read since the lexeme's start. `Dead`: no lexeme begins with it. `Whole`: a lexeme, and nothing longer
// that begins with it is one. `Start`: nothing yet.
#[derive(Clone, Copy)]
pub enum Reading {
    Dead,
    Whole,
    Start,
    Run(Run),
    Operator(Operator),
    Quoted(Quoted),
    Named(Named),
    Number(Number),
}

// Runs of bytes, and comments. `X`: an `x`, with which a blob may begin. `BlockStar`: a block comment that ends in `*`.
#[derive(Clone, Copy)]
pub enum Run {
    Blanks,
    Word,
    X,
    Stray,
    Line,
    Block,
    BlockStar,
}

// Operators that can still grow. `Equals`: `=` or `!`. `Pointer`: `->`.
#[derive(Clone, Copy)]
pub enum Operator {
    Equals,
    Ampersand,
    Minus,
    Pointer,
    Less,
    Greater,
    Bar,
    Slash,
}

// `..Twice`: the quote again, which closes unless a third one follows.
#[derive(Clone, Copy)]
pub enum Quoted {
    Quote,
    QuoteTwice,
    DoubleQuote,
    DoubleQuoteTwice,
    Backtick,
    BacktickTwice,
    Bracket,
    Blob,
}

// `Sigil`: what a parameter begins with, and pairs of colons. `SigilColon`, `NameColon`: one colon of a pair behind it. `Paren`: a name
// and a `(` that is not closed. `Question`: `?` and digits.
#[derive(Clone, Copy)]
pub enum Named {
    Sigil,
    SigilColon,
    Colon,
    At,
    Name,
    NameColon,
    Paren,
    Question,
}

// `Dot`: a dot, or a fraction and an underscore; behind either only a digit goes on. `ExponentUnderscore`: also `_` behind `e`, where the
// profile has it.
#[derive(Clone, Copy)]
pub enum Number {
    Zero,
    Digits,
    DigitsUnderscore,
    DigitsDot,
    Dot,
    Fraction,
    E,
    Sign,
    Exponent,
    ExponentUnderscore,
    ZeroX,
    Hex,
    HexUnderscore,
}

// Behind operators that can still grow.
ghost use Rattle.std.specs.Prelude.{◌≡◌};
ghost use Rattle.readings.specs.Arrows.{in_operator, follow};

use readings::reading::{Operator, Reading, Run};

pub(crate) fn in_operator(operator: Operator, b: u8) -> Reading
    ensures { result ≡ follow (in_operator operator) b }
{
    match (operator, b) {
        (Operator::Equals, b'=')
        | (Operator::Ampersand, b'&')
        | (Operator::Pointer, b'>')
        | (Operator::Less, b'<' | b'=' | b'>')
        | (Operator::Greater, b'=' | b'>')
        | (Operator::Bar, b'|') => Reading::Whole,
        (Operator::Minus, b'-') => Reading::Run(Run::Line),
        (Operator::Minus, b'>') => Reading::Operator(Operator::Pointer),
        (Operator::Slash, b'*') => Reading::Run(Run::Block),
        _ => Reading::Dead,
    }
}

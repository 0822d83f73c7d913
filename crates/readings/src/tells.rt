// What a reading tells.
ghost use Rattle.std.specs.Prelude.{◌≡◌};
ghost use Rattle.readings.specs.Arrows.{is_half, is_lexeme, is_settled};

use crate::reading::{Named, Reading};

// Whether what was read is a lexeme.
#[tactic(auto, unfolding(crate::specs::Arrows::is_lexeme))]
pub fn is_lexeme(reading: Reading) -> bool
    ensures { result ≡ is_lexeme reading }
{
    match reading {
        Reading::Dead | Reading::Start => false,
        Reading::Whole
        | Reading::Run(_)
        | Reading::Operator(_)
        | Reading::Quoted(_)
        | Reading::Number(_) => true,
        Reading::Named(named) => !is_half(named),
    }
}

fn is_half(named: Named) -> bool
    ensures { result ≡ is_half named }
{
    matches!(named, Named::SigilColon | Named::NameColon)
}

// Whether nothing longer is one.
#[tactic(auto, unfolding(crate::specs::Arrows::is_settled))]
pub fn is_settled(reading: Reading) -> bool
    ensures { result ≡ is_settled reading }
{
    matches!(reading, Reading::Dead | Reading::Whole)
}

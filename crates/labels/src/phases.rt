// A stream's phases by number.
ghost use Rattle.std.specs.Prelude.{◌≡◌};
ghost use Rattle.labels.specs.Phases.{phase_of, phase_number};

use intake::state::Phase;

// The phase that has this number, if one has. Both types are foreign, so this is no `TryFrom`.
pub fn phase_of(number: u32) -> Option<Phase>
    ensures { result ≡ phase_of number }
{
    match number {
        0 => Some(Phase::Open),
        1 => Some(Phase::Ending),
        2 => Some(Phase::Closed),
        _ => None,
    }
}

pub fn number_of(phase: Phase) -> u32
    ensures { result ≡ phase_number phase }
{
    phase as u32
}

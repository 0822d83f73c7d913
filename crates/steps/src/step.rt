// One step of a reading.
ghost use Rattle.std.specs.Prelude.{◌≡◌};
ghost use Rattle.readings.specs.Arrows.{onward};

use crate::named::in_named;
use crate::numbers::in_number;
use crate::operators::in_operator;
use crate::quoted::in_quoted;
use crate::runs::in_run;
use crate::start::at_start;
use grammar::profile::Profile;
use readings::reading::Reading;

// The reading behind one byte more.
#[tactic(auto, unfolding(readings::specs::Arrows::onward))]
pub fn step(profile: Profile, reading: Reading, b: u8) -> Reading
    ensures { result ≡ onward profile reading b }
{
    match reading {
        Reading::Dead | Reading::Whole => Reading::Dead,
        Reading::Start => at_start(profile, b),
        Reading::Run(run) => in_run(run, b),
        Reading::Operator(operator) => in_operator(operator, b),
        Reading::Quoted(quoted) => in_quoted(quoted, b),
        Reading::Named(named) => in_named(named, b),
        Reading::Number(number) => in_number(profile, number, b),
    }
}

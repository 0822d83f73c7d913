// A stream's state in numbers.
ghost use Rattle.std.specs.Prelude.{◌≡◌};
ghost use Rattle.packets.specs.States.{numbers_of, Counted, Restores};

use codes::profiles::profile_of;
use intake::state::Stream;
use labels::phases::phase_of;
use labels::so_far::reading_of;

// The stream whose numbers these are, if they are a stream's.
pub(crate) fn restore(state: &[u32; 6]) -> Option<Stream>
    ensures { Restores state.now result }
{
    Some(Stream {
        profile: profile_of(state[0])?,
        phase: phase_of(state[1])?,
        reading: reading_of(state[2])?,
        given: state[3] as usize,
        held: state[4] as usize,
        total: state[5],
    })
}

pub(crate) fn keep(stream: Stream, state: &mut [u32; 6])
    requires { Counted stream }
    ensures { state.new ≡ numbers_of stream }
{
    *state = [
        codes::profiles::number_of(stream.profile),
        labels::phases::number_of(stream.phase),
        labels::so_far::number_of(stream.reading),
        stream.given as u32,
        stream.held as u32,
        stream.total,
    ];
}

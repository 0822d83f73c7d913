// The calls. Numbers that are no stream's are refused, and nothing is written then.
ghost use Rattle.packets.specs.States.{Counted};
ghost use Rattle.packets.specs.Calls.{BeginCall, Gave, OfferCall, FinishCall};

use crate::answers::{give, of_stream};
use crate::states::{keep, restore};
use codes::answers::{MORE, UNKNOWN_PROFILE, UNKNOWN_STREAM};
use codes::profiles::profile_of;
use stream::calls::{finish, offer};
use stream::stream::{Given, begin};

// A stream that was begun wants its first part.
pub fn begin_numbers(profile: u32, state: &mut [u32; 6]) -> u32
    ensures { BeginCall profile state.old result state.new }
{
    let Some(profile) = profile_of(profile) else {
        return UNKNOWN_PROFILE;
    };
    keep(begin(profile), state);
    MORE
}

pub fn offer_numbers(
    state: &mut [u32; 6],
    row: &mut [u8; 2050],
    part: &[u8],
    given: &mut [usize; 7],
) -> u32
    ensures { OfferCall state.old row.old part.now given.old result state.new row.new given.new }
{
    let Some(stream) = restore(state) else {
        return UNKNOWN_STREAM;
    };
    tell(offer(stream, row, part), state, given)
}

pub fn finish_numbers(state: &mut [u32; 6], row: &mut [u8; 2050], given: &mut [usize; 7]) -> u32
    ensures { FinishCall state.old row.old given.old result state.new row.new given.new }
{
    let Some(stream) = restore(state) else {
        return UNKNOWN_STREAM;
    };
    tell(finish(stream, row), state, given)
}

// The stream to go on with is kept, and what was given is written.
fn tell(got: Given, state: &mut [u32; 6], given: &mut [usize; 7]) -> u32
    requires { Counted got.stream }
    ensures { Gave got result state.new given.new }
{
    keep(got.stream, state);
    give(of_stream(got.answer), got.taken, given)
}

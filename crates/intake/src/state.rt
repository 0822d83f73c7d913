// What a stream keeps between its calls.
use grammar::profile::Profile;
use readings::reading::Reading;

// Parts are taken; a finish call was made; every call is refused.
#[derive(Clone, Copy)]
pub enum Phase {
    Open,
    Ending,
    Closed,
}

// `held`: so many bytes at the front of the row are in use. `given`: the first of these are the token given last, and what is behind them has
// still to be read; where it is 0, `reading` is that of all that are held. `total`: so many bytes were taken. The row is no field: it is lent
// with each call, as C lends it, and would be copied with the state.
#[derive(Clone, Copy)]
pub struct Stream {
    pub profile: Profile,
    pub reading: Reading,
    pub phase: Phase,
    pub given: usize,
    pub held: usize,
    pub total: u32,
}

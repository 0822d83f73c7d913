// Bytes of a part into the row, each read as it comes, until no byte more is wanted.
ghost use Rattle.std.specs.Prelude.{◌≡◌, ◌+◌, ◌≤◌, ◌<◌, length};
ghost use Rattle.intake.specs.Takes.{is_over, is_ready, behind, front, TakesIn};
ghost use Rattle.intake.specs.Takes.{read_so_far, is_wanted, filled, filling};

use crate::state::Stream;
use readings::reading::Reading;
use readings::tells::{is_lexeme, is_settled};
use steps::step::step;

// The longest lexeme.
const LONGEST: usize = 2048;

// What is held then, and whether no byte more is wanted: a flag, since with either value the same three fields are used.
#[derive(Clone, Copy)]
pub struct Taken {
    pub reading: Reading,
    pub held: usize,
    pub taken: usize,
    pub ready: bool,
}

// What was read is a lexeme over the limit.
#[tactic(auto, unfolding(crate::specs::Takes::is_over))]
pub fn is_over(reading: Reading, held: usize) -> bool
    ensures { result ≡ is_over reading held }
{
    LONGEST < held && is_lexeme(reading)
}

// No byte more is wanted; a full row holds no more.
#[tactic(auto, unfolding(crate::specs::Takes::is_ready))]
fn is_ready(room: usize, reading: Reading, held: usize) -> bool
    ensures { result ≡ is_ready room reading held }
{
    is_settled(reading) || is_over(reading, held) || room <= held
}

// Where `take_in` stands: the reading of so many bytes of those that are held, and how many came from the part.
#[derive(Clone, Copy)]
struct Progress {
    reading: Reading,
    read: usize,
    held: usize,
    taken: usize,
}

impl Progress {
    // A byte is to be read: one that is held, or one more of the part.
    #[tactic(auto, unfolding(crate::specs::Takes::is_wanted))]
    fn is_wanted(&self, room: usize, part: usize) -> bool
        ensures { result ≡ is_wanted room self.now.reading self.now.read self.now.held self.now.taken part }
    {
        self.read < self.held || (!is_ready(room, self.reading, self.held) && self.taken < part)
    }

    // A byte of the part into the row, where all that is held was read.
    #[tactic(auto, unfolding(crate::specs::Takes::filled, crate::specs::Takes::filling))]
    fn fill(&mut self, row: &mut [u8], part: &[u8])
        requires { self.old.held ≤ self.old.read → (self.old.held < length row.old) × (self.old.taken < length part.now) }
        ensures kept { (self.new.reading ≡ self.old.reading) × (self.new.read ≡ self.old.read) }
        ensures held { self.new.held ≡ self.old.held + filled self.old.read self.old.held }
        ensures taken { self.new.taken ≡ self.old.taken + filled self.old.read self.old.held }
        ensures row { row.new ≡ filling row.old self.old.read self.old.held part.now self.old.taken }
    {
        if self.held <= self.read {
            row[self.held] = part[self.taken];
            self.held += 1;
            self.taken += 1;
        }
    }
}

// Bytes into the row, each read as it comes, until no byte more is wanted; but first what is held and has still to be read. `step` is called
// at this one place, so that it becomes part of the loop: a `for` over what is held and one over the part would be two.
pub fn take_in(stream: Stream, row: &mut [u8], part: &[u8]) -> Taken
    ensures { TakesIn stream row.old part.now result row.new }
{
    let held = bring(row, stream.given, stream.held);
    let mut at = Progress {
        reading: stream.reading,
        read: read_so_far(stream.given, held),
        held,
        taken: 0,
    };
    while at.is_wanted(row.len(), part.len()) {
        at.fill(row, part);
        at.reading = step(stream.profile, at.reading, row[at.read]);
        at.read += 1;
    }
    Taken {
        reading: at.reading,
        held: at.held,
        taken: at.taken,
        ready: is_ready(row.len(), at.reading, at.held),
    }
}

// The bytes behind the last token to the row's front; how many these are. Where no token was given they lie there already.
pub fn bring(row: &mut [u8], given: usize, held: usize) -> usize
    ensures { (result ≡ length (behind given held row.old)) × (row.new ≡ front (behind given held row.old) row.old) }
{
    let back = held.min(row.len()).saturating_sub(given);
    // no `copy_within`: the module for the Cortex-M4 (docs/DEVICE.md) has other bytes behind it
    for at in read_so_far(given, back)..back {
        row[at] = row[given + at];
    }
    back
}

// How many of the bytes held were read: where no token was given, all; behind one none yet.
#[tactic(auto, unfolding(crate::specs::Takes::read_so_far))]
fn read_so_far(given: usize, held: usize) -> usize
    ensures { result ≡ read_so_far given held }
{
    if given == 0 { held } else { 0 }
}

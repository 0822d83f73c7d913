// For each record of standard input, what sqlbatch prints in its modes `next`, `list N` for some N, and `cut`, one after another, `next` a
// second time by a reader: N is 0 to 11, and one less than, as many as and four more than the numbers that the text's records fill.
#![tactic(auto)]

use batch::{Mode, print_records};
use grammar::profile::Profile;

fn main(rt: HostRuntime) {
    print_records(&rt, Mode::Replay, Profile::Turso);
}

// sqlbatch MODE [PROFILE]: what `next`, also with sums, a list of N numbers, one without TK_NONE that passes A lexemes at most, the cut, the
// word's lookup, a stream's calls, those that read or write literals, or the one that pairs brackets answer for each record of standard input.
#![tactic(auto)]

mod arguments;

use crate::arguments::read_arguments;
use batch::print_records;

fn main(rt: HostRuntime) {
    let Some((mode, profile)) = read_arguments(&rt) else {
        let _told = rt.write_all(
            b"sqlbatch MODE [PROFILE], where MODE is next, sums, list N (N from 0 to 327675), part N A (A from 0 to 4294967295), cut, word, stream, literal, write or pair N, and PROFILE, not for word, write and pair, turso or sqlite\n",
        );
        return;
    };
    print_records(&rt, mode, profile);
}

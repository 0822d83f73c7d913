// Lexes standard input and prints a line for each token, then how it ended. More than 65,535 bytes are refused as TooLong.
#![tactic(auto)]

use printing::text::print_text;

fn main(rt: HostRuntime) {
    print_text(&rt);
}

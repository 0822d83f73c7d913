// Standard input as one text.
use crate::answers::{Source, Way, put_walk};
use crate::input::Records;
use crate::lines::put_line;
use grammar::profile::Profile;
use lists::list::LONGEST_TEXT;
use rows::out::Out;

// A line for each token under the profile Turso, then how it ended. More than 65,535 bytes are refused as TooLong; of input that cannot be
// read nothing is printed.
pub fn print_text(rt: &(impl Input + Print + Eprint)) {
    // It holds one byte more than the longest text, which is enough to know that a text is too long.
    let mut row = [0u8; LONGEST_TEXT + 1];
    let mut all = Records::new(&mut row, 0, 0);
    let Ok(()) = all.fill(rt, &mut rt.reader(), LONGEST_TEXT + 1) else {
        return;
    };
    let text = all.unread();
    let mut bytes = [0u8; 65536];
    let mut out = Out::new(rt, &mut bytes, 0);
    if LONGEST_TEXT < text.len() {
        put_line(&mut out, "TooLong", &[0, 0, 0]);
    } else {
        let source = Source {
            text,
            offset: 0,
            profile: Profile::Turso,
        };
        put_walk(&mut out, source, Way::Next);
    }
    out.flush();
}

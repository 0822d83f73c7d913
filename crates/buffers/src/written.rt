// What a call that writes a literal answers where it writes none.

// The result is longer than the buffer, which is untouched. Where it fits, the answer is how many bytes stand at the buffer's front.
#[derive(Clone, Copy, PartialEq, Eq, Debug)]
pub struct NoRoom;

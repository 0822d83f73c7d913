// Sets of bytes: what `sees` tests for and `eat_while` goes over. A byte is the set of itself.
ghost use Rattle.std.specs.Prelude.{◌≡◌};
ghost use Rattle.grammar.specs.Form.{Set, D, H, S, C, blank, byte, no, ◌or◌, holds};

use words::bytes::{is_blank, is_digit, is_hexdigit, is_identifier_continue, is_identifier_start};

pub(crate) trait ByteSet: Copy {
    // Its name in the grammar.
    ghost set: { Self → Set };

    fn has(self, b: u8) -> bool
        ensures { result ≡ holds (set self) b };
}

impl ByteSet for u8 {
    ghost set = { byte };

    fn has(self, b: u8) -> bool {
        b == self
    }
}

#[derive(Clone, Copy)]
pub(crate) struct Digit;

impl ByteSet for Digit {
    ghost set = { λ _. D };

    fn has(self, b: u8) -> bool {
        is_digit(b)
    }
}

#[derive(Clone, Copy)]
pub(crate) struct Hexdigit;

impl ByteSet for Hexdigit {
    ghost set = { λ _. H };

    fn has(self, b: u8) -> bool {
        is_hexdigit(b)
    }
}

#[derive(Clone, Copy)]
pub(crate) struct Start;

impl ByteSet for Start {
    ghost set = { λ _. S };

    fn has(self, b: u8) -> bool {
        is_identifier_start(b)
    }
}

#[derive(Clone, Copy)]
pub(crate) struct Continue;

impl ByteSet for Continue {
    ghost set = { λ _. C };

    fn has(self, b: u8) -> bool {
        is_identifier_continue(b)
    }
}

#[derive(Clone, Copy)]
pub(crate) struct Blank;

impl ByteSet for Blank {
    ghost set = { λ _. blank };

    fn has(self, b: u8) -> bool {
        is_blank(b)
    }
}

#[derive(Clone, Copy)]
pub(crate) struct Or<A, B>(pub(crate) A, pub(crate) B);

impl<A: ByteSet, B: ByteSet> ByteSet for Or<A, B> {
    ghost set = { λ s. A.set s.0 or B.set s.1 };

    fn has(self, b: u8) -> bool {
        self.0.has(b) || self.1.has(b)
    }
}

#[derive(Clone, Copy)]
pub(crate) struct Not<A>(pub(crate) A);

impl<A: ByteSet> ByteSet for Not<A> {
    ghost set = { λ s. no (A.set s.0) };

    fn has(self, b: u8) -> bool {
        !self.0.has(b)
    }
}

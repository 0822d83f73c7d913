// Why a call that reads bytes into a lent buffer reads none.
ghost use Rattle.std.specs.Prelude.{◌≡◌};
ghost use Rattle.spans.specs.declared.answers.ReadError.{ReadError};

use buffers::written::NoRoom;

// The span is not that literal, or its bytes are more than the buffer holds. With either the buffer is untouched.
#[derive(Clone, Copy, PartialEq, Eq, Debug)]
pub enum ReadError {
    NotThatLiteral,
    NoRoom,
}

impl From<NoRoom> for ReadError {
    ghost from_gives = { λ _ e. e ≡ ReadError.NoRoom };

    fn from(_e: NoRoom) -> ReadError {
        ReadError::NoRoom
    }
}

// Which kinds are brackets, and the kind of a record. Two comparisons are faster here than `matches!`, which cost four instructions a record
// more.
ghost use Rattle.std.specs.Prelude.{◌≡◌, ◌<◌, length, get_or};
ghost use Rattle.brackets.specs.Brackets.{is_opener, is_closer, closer_of};
ghost use Rattle.brackets.specs.Numbers.{kinds_of};

use keywords::kinds::{TK_LBRACKET, TK_LP, TK_RBRACKET, TK_RP};
use records::WIDTH;

pub(crate) fn is_opener(kind: u32) -> bool
    ensures { result ≡ is_opener kind }
{
    kind == TK_LP || kind == TK_LBRACKET
}

pub(crate) fn is_closer(kind: u32) -> bool
    ensures { result ≡ is_closer kind }
{
    kind == TK_RP || kind == TK_RBRACKET
}

pub(crate) fn closer_of(kind: u32) -> u32
    ensures { result ≡ closer_of kind }
{
    if kind == TK_LP { TK_RP } else { TK_RBRACKET }
}

// Of the record at an index; its kind is the first of its numbers.
pub(crate) fn kind_at(numbers: &[u32], index: usize) -> u32
    requires { index < length (kinds_of numbers.now) }
    ensures { result ≡ get_or (kinds_of numbers.now) index 0 }
{
    numbers[index * WIDTH]
}

// A reader that carries its text and its profile, over the by-value core; what moves hands the moved reader back.
#![tactic(auto)]

ghost use Rattle.std.specs.Prelude.{◌≡◌, drop};
ghost use Rattle.lexer.specs.Eaten.{head};
ghost use Rattle.lexer.specs.Values.{LexesUnder};
ghost use Rattle.reader.specs.Reads.{ReadsOn, Remains, offset_of, begun};

use grammar::profile::Profile;
use lexer::cursor::Cursor;
use lexer::lexed::Lexed;
use lexer::next::next;

// The offset may be any number. A reader keeps its text and its profile as it moves.
#[derive(Clone, Copy)]
pub struct Reader<'a> {
    pub text: &'a [u8],
    pub offset: usize,
    pub profile: Profile,
}

// What `next` gives: the answer, and the reader at the offset that the answer leaves.
#[derive(Clone, Copy)]
pub struct Read<'a> {
    pub lexed: Lexed,
    pub reader: Reader<'a>,
}

impl<'a> Reader<'a> {
    pub fn new(text: &'a [u8], profile: Profile) -> Reader<'a>
        ensures { result ≡ begun text.entry profile }
    {
        Reader {
            text,
            offset: 0,
            profile,
        }
    }

    // The bytes from the offset on; past the end, none.
    pub fn remaining(self) -> &'a [u8]
        ensures { Remains self.entry.text self.entry.offset result }
    {
        let start = self.offset.min(self.text.len());
        &self.text[start..]
    }

    pub fn peek(self) -> Option<u8>
        ensures { result ≡ head (drop self.entry.offset self.entry.text.now) }
    {
        Cursor { at: self.offset }.peek(self.text)
    }

    pub fn next(self) -> Read<'a>
        ensures { ReadsOn self.entry result }
    {
        let lexed = next(self.text, Cursor { at: self.offset }, self.profile);
        Read {
            lexed,
            reader: Reader {
                offset: lexed.next().at,
                ..self
            },
        }
    }
}

// The answer at an offset, through a reader: for callers that hold none.
pub fn read_at(text: &[u8], offset: usize, profile: Profile) -> Lexed
    ensures { LexesUnder profile text.now offset result }
{
    let reader = Reader {
        text,
        offset,
        profile,
    };
    reader.next().lexed
}

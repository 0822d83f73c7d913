// What is known of a statement from the kinds of its tokens, as far as it matters for which semicolon ends it.
ghost use Rattle.std.specs.Prelude.{◌≡◌};
ghost use Rattle.triggers.specs.Seen.{Follows, SaysEnd, body_with};

use keywords::kinds::{
    TK_CREATE, TK_END, TK_EXPLAIN, TK_NONE, TK_PLAN, TK_QUERY, TK_SEMI, TK_TEMP, TK_TRIGGER,
};

// Which kinds they are, TK_NONE left out.
#[derive(Clone, Copy)]
pub enum Seen {
    // none
    Nothing,
    // EXPLAIN
    Explain,
    // EXPLAIN QUERY
    Query,
    // EXPLAIN QUERY PLAN
    Plan,
    // CREATE, at the beginning, or behind EXPLAIN or EXPLAIN QUERY PLAN
    Create,
    // the same and TEMP
    Temp,
    // a trigger's head and what follows it
    Body,
    // the same, with a semicolon as the last
    Semi,
    // the same, with a semicolon and END as the last two
    End,
    // none of these: no trigger begins so
    Other,
}

// With a token of this kind more.
pub fn follow(seen: Seen, kind: u32) -> Seen
    ensures { Follows seen kind result }
{
    if kind == TK_NONE {
        return seen;
    }
    match seen {
        Seen::Nothing => match kind {
            TK_EXPLAIN => Seen::Explain,
            TK_CREATE => Seen::Create,
            _ => Seen::Other,
        },
        Seen::Explain => match kind {
            TK_QUERY => Seen::Query,
            TK_CREATE => Seen::Create,
            _ => Seen::Other,
        },
        Seen::Query => match kind {
            TK_PLAN => Seen::Plan,
            _ => Seen::Other,
        },
        Seen::Plan => match kind {
            TK_CREATE => Seen::Create,
            _ => Seen::Other,
        },
        Seen::Create => match kind {
            TK_TEMP => Seen::Temp,
            TK_TRIGGER => Seen::Body,
            _ => Seen::Other,
        },
        Seen::Temp => match kind {
            TK_TRIGGER => Seen::Body,
            _ => Seen::Other,
        },
        Seen::Body => in_body(kind, Seen::Body),
        Seen::Semi => in_body(kind, Seen::End),
        Seen::End => in_body(kind, Seen::Body),
        Seen::Other => Seen::Other,
    }
}

// In a trigger's body, where END makes `end` of it.
fn in_body(kind: u32, end: Seen) -> Seen
    ensures { result ≡ body_with kind end }
{
    match kind {
        TK_SEMI => Seen::Semi,
        TK_END => end,
        _ => Seen::Body,
    }
}

// Whether a token of this kind is a semicolon that ends the statement.
pub fn ends(seen: Seen, kind: u32) -> bool
    ensures { SaysEnd seen kind result }
{
    if kind != TK_SEMI {
        return false;
    }
    match seen {
        Seen::Body => false,
        Seen::Semi => false,
        _ => true,
    }
}

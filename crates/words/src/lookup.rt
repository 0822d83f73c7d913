// A word's kind: the word is folded to capitals in a row of 17 bytes and looked up among the rows of the word list.
ghost use Rattle.std.specs.Prelude.{◌≡◌, ◌≤◌, length};
ghost use Rattle.keywords.specs.Rows.{row_of};
ghost use Rattle.words.specs.Word.{fold, kind_of, is_quotable};

use keywords::kinds::{TK_ID, TK_TYPE};

// The word in capitals, with dots behind it: the row that the word list is looked through for.
fn fold(word: &[u8]) -> [u8; 17]
    requires { length word.now ≤ 17 }
    ensures { result ≡ row_of 17 (fold word.now) }
{
    let mut row = [b'.'; 17];
    for (i, b) in word.iter().enumerate() {
        row[i] = b.to_ascii_uppercase();
    }
    row
}

// The kind in the word list, ASCII letters folded; else TK_ID.
pub fn keyword_or_id_token(word: &[u8]) -> u32
    ensures { result ≡ kind_of word.now }
{
    let n = word.len();
    if n <= 17 {
        keywords::kind_of_row(fold(word), n)
    } else {
        TK_ID
    }
}

// Whether the word is a keyword other than TYPE: its kind is neither TK_ID nor TK_TYPE.
#[tactic(auto, unfolding(crate::specs::Word::is_quotable))]
pub fn is_quotable_keyword(word: &[u8]) -> bool
    ensures { result ≡ is_quotable word.now }
{
    !matches!(keyword_or_id_token(word), TK_ID | TK_TYPE)
}

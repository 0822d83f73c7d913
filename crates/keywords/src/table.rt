// The word list as the lookup reads it, in the order of `specs/Stored.antt`: the shortest words first, those of one length by their first
// letter. Each table is a `static`, which lies in read-only data; a const array is made anew on the stack wherever it is named. What fits
// a byte stands in one, for the tables' size.
ghost use Rattle.std.specs.Prelude.{◌≡◌, ◌<◌, get_or};
ghost use Rattle.keywords.specs.Stored.{letter_at, kind_at, start_of, skips};

use crate::kinds;

// The words end to end.
static LETTERS: [u8; 888] = *b"\
    ASBYDOIFINISNOOFONORTO\
    ADDALLANDASCENDFORKEYNOTROWSET\
    CASECASTDESCDROPEACHELSEFAILFROMFULLGLOBINTOJOINLASTLEFTLIKENULLOVERPLANROWSTEMPTHENTIESTYPEVIEWWHENWITH\
    ABORTAFTERALTERBEGINCHECKCROSSFIRSTGROUPINDEXINNERLIMITMATCHNULLSORDEROUTERQUERYRAISERANGERIGHTTABLEUNIONUSINGWHERE\
    ACTIONALWAYSATTACHBEFORECOLUMNCOMMITCREATEDELETEDETACHESCAPEEXCEPTEXISTSFILTERGROUPSHAVINGIGNOREINSERTISNULLOFFSETOTHERS\
    PRAGMAREGEXPRENAMESELECTUNIQUEUPDATEVACUUMVALUESWINDOWWITHIN\
    ANALYZEBETWEENCASCADECOLLATECURRENTDEFAULTEXCLUDEEXPLAINFOREIGNINDEXEDINSTEADNATURALNOTHINGNOTNULLPRIMARYREINDEXRELEASE\
    REPLACETRIGGERVIRTUALWITHOUT\
    CONFLICTDATABASEDEFERREDDISTINCTOPTIMIZERESTRICTROLLBACK\
    EXCLUSIVEFOLLOWINGGENERATEDIMMEDIATEINITIALLYINTERSECTPARTITIONPRECEDINGRECURSIVERETURNINGSAVEPOINTTEMPORARYUNBOUNDED\
    CONCURRENTCONSTRAINTDEFERRABLEREFERENCES\
    TRANSACTION\
    CURRENT_DATECURRENT_TIMEMATERIALIZED\
    AUTOINCREMENT\
    CURRENT_TIMESTAMP\
";

// How many words stand before those of a length that begin with a letter: by lengths, and for each by the letters from A to Z and two more.
static STARTS: [u8; 504] = [
    // 0
    0, 0, 0, 0, 0, 0, 0, 0, 0, 0, 0, 0, 0, 0, 0, 0, 0, 0, 0, 0, 0, 0, 0, 0, 0, 0, 0, 0,
    // 1
    0, 0, 0, 0, 0, 0, 0, 0, 0, 0, 0, 0, 0, 0, 0, 0, 0, 0, 0, 0, 0, 0, 0, 0, 0, 0, 0, 0,
    // 2
    0, 1, 2, 2, 3, 3, 3, 3, 3, 6, 6, 6, 6, 6, 7, 10, 10, 10, 10, 10, 11, 11, 11, 11, 11, 11, 11,
    11,
    // 3
    11, 15, 15, 15, 15, 16, 17, 17, 17, 17, 17, 18, 18, 18, 19, 19, 19, 19, 20, 21, 21, 21, 21, 21,
    21, 21, 21, 21,
    // 4
    21, 21, 21, 23, 25, 27, 30, 31, 31, 32, 33, 33, 36, 36, 37, 38, 39, 39, 40, 40, 44, 44, 45, 47,
    47, 47, 47, 47,
    // 5
    47, 50, 51, 53, 53, 53, 54, 55, 55, 57, 57, 57, 58, 59, 60, 62, 62, 63, 66, 66, 67, 69, 69, 70,
    70, 70, 70, 70,
    // 6
    70, 73, 74, 77, 79, 82, 83, 84, 85, 88, 88, 88, 88, 88, 88, 90, 91, 91, 93, 94, 94, 96, 98,
    100, 100, 100, 100, 100,
    // 7
    100, 101, 102, 105, 106, 108, 109, 109, 109, 111, 111, 111, 111, 111, 114, 114, 115, 115, 118,
    118, 119, 119, 120, 121, 121, 121, 121, 121,
    // 8
    121, 121, 121, 122, 125, 125, 125, 125, 125, 125, 125, 125, 125, 125, 125, 126, 126, 126, 128,
    128, 128, 128, 128, 128, 128, 128, 128, 128,
    // 9
    128, 128, 128, 128, 128, 129, 130, 131, 131, 134, 134, 134, 134, 134, 134, 134, 136, 136, 138,
    139, 140, 141, 141, 141, 141, 141, 141, 141,
    // 10
    141, 141, 141, 143, 144, 144, 144, 144, 144, 144, 144, 144, 144, 144, 144, 144, 144, 144, 145,
    145, 145, 145, 145, 145, 145, 145, 145, 145,
    // 11
    145, 145, 145, 145, 145, 145, 145, 145, 145, 145, 145, 145, 145, 145, 145, 145, 145, 145, 145,
    145, 146, 146, 146, 146, 146, 146, 146, 146,
    // 12
    146, 146, 146, 148, 148, 148, 148, 148, 148, 148, 148, 148, 148, 149, 149, 149, 149, 149, 149,
    149, 149, 149, 149, 149, 149, 149, 149, 149,
    // 13
    149, 150, 150, 150, 150, 150, 150, 150, 150, 150, 150, 150, 150, 150, 150, 150, 150, 150, 150,
    150, 150, 150, 150, 150, 150, 150, 150, 150,
    // 14
    150, 150, 150, 150, 150, 150, 150, 150, 150, 150, 150, 150, 150, 150, 150, 150, 150, 150, 150,
    150, 150, 150, 150, 150, 150, 150, 150, 150,
    // 15
    150, 150, 150, 150, 150, 150, 150, 150, 150, 150, 150, 150, 150, 150, 150, 150, 150, 150, 150,
    150, 150, 150, 150, 150, 150, 150, 150, 150,
    // 16
    150, 150, 150, 150, 150, 150, 150, 150, 150, 150, 150, 150, 150, 150, 150, 150, 150, 150, 150,
    150, 150, 150, 150, 150, 150, 150, 150, 150,
    // 17
    150, 150, 150, 151, 151, 151, 151, 151, 151, 151, 151, 151, 151, 151, 151, 151, 151, 151, 151,
    151, 151, 151, 151, 151, 151, 151, 151, 151,
];

// The words' kinds.
static KINDS: [u8; 151] = [
    kinds::TK_AS as u8,
    kinds::TK_BY as u8,
    kinds::TK_DO as u8,
    kinds::TK_IF as u8,
    kinds::TK_IN as u8,
    kinds::TK_IS as u8,
    kinds::TK_NO as u8,
    kinds::TK_OF as u8,
    kinds::TK_ON as u8,
    kinds::TK_OR as u8,
    kinds::TK_TO as u8,
    kinds::TK_ADD as u8,
    kinds::TK_ALL as u8,
    kinds::TK_AND as u8,
    kinds::TK_ASC as u8,
    kinds::TK_END as u8,
    kinds::TK_FOR as u8,
    kinds::TK_KEY as u8,
    kinds::TK_NOT as u8,
    kinds::TK_ROW as u8,
    kinds::TK_SET as u8,
    kinds::TK_CASE as u8,
    kinds::TK_CAST as u8,
    kinds::TK_DESC as u8,
    kinds::TK_DROP as u8,
    kinds::TK_EACH as u8,
    kinds::TK_ELSE as u8,
    kinds::TK_FAIL as u8,
    kinds::TK_FROM as u8,
    kinds::TK_JOIN_KW as u8,
    kinds::TK_LIKE_KW as u8,
    kinds::TK_INTO as u8,
    kinds::TK_JOIN as u8,
    kinds::TK_LAST as u8,
    kinds::TK_JOIN_KW as u8,
    kinds::TK_LIKE_KW as u8,
    kinds::TK_NULL as u8,
    kinds::TK_OVER as u8,
    kinds::TK_PLAN as u8,
    kinds::TK_ROWS as u8,
    kinds::TK_TEMP as u8,
    kinds::TK_THEN as u8,
    kinds::TK_TIES as u8,
    kinds::TK_TYPE as u8,
    kinds::TK_VIEW as u8,
    kinds::TK_WHEN as u8,
    kinds::TK_WITH as u8,
    kinds::TK_ABORT as u8,
    kinds::TK_AFTER as u8,
    kinds::TK_ALTER as u8,
    kinds::TK_BEGIN as u8,
    kinds::TK_CHECK as u8,
    kinds::TK_JOIN_KW as u8,
    kinds::TK_FIRST as u8,
    kinds::TK_GROUP as u8,
    kinds::TK_INDEX as u8,
    kinds::TK_JOIN_KW as u8,
    kinds::TK_LIMIT as u8,
    kinds::TK_MATCH as u8,
    kinds::TK_NULLS as u8,
    kinds::TK_ORDER as u8,
    kinds::TK_JOIN_KW as u8,
    kinds::TK_QUERY as u8,
    kinds::TK_RAISE as u8,
    kinds::TK_RANGE as u8,
    kinds::TK_JOIN_KW as u8,
    kinds::TK_TABLE as u8,
    kinds::TK_UNION as u8,
    kinds::TK_USING as u8,
    kinds::TK_WHERE as u8,
    kinds::TK_ACTION as u8,
    kinds::TK_ALWAYS as u8,
    kinds::TK_ATTACH as u8,
    kinds::TK_BEFORE as u8,
    kinds::TK_COLUMNKW as u8,
    kinds::TK_COMMIT as u8,
    kinds::TK_CREATE as u8,
    kinds::TK_DELETE as u8,
    kinds::TK_DETACH as u8,
    kinds::TK_ESCAPE as u8,
    kinds::TK_EXCEPT as u8,
    kinds::TK_EXISTS as u8,
    kinds::TK_FILTER as u8,
    kinds::TK_GROUPS as u8,
    kinds::TK_HAVING as u8,
    kinds::TK_IGNORE as u8,
    kinds::TK_INSERT as u8,
    kinds::TK_ISNULL as u8,
    kinds::TK_OFFSET as u8,
    kinds::TK_OTHERS as u8,
    kinds::TK_PRAGMA as u8,
    kinds::TK_LIKE_KW as u8,
    kinds::TK_RENAME as u8,
    kinds::TK_SELECT as u8,
    kinds::TK_UNIQUE as u8,
    kinds::TK_UPDATE as u8,
    kinds::TK_VACUUM as u8,
    kinds::TK_VALUES as u8,
    kinds::TK_WINDOW as u8,
    kinds::TK_WITHIN as u8,
    kinds::TK_ANALYZE as u8,
    kinds::TK_BETWEEN as u8,
    kinds::TK_CASCADE as u8,
    kinds::TK_COLLATE as u8,
    kinds::TK_CURRENT as u8,
    kinds::TK_DEFAULT as u8,
    kinds::TK_EXCLUDE as u8,
    kinds::TK_EXPLAIN as u8,
    kinds::TK_FOREIGN as u8,
    kinds::TK_INDEXED as u8,
    kinds::TK_INSTEAD as u8,
    kinds::TK_JOIN_KW as u8,
    kinds::TK_NOTHING as u8,
    kinds::TK_NOTNULL as u8,
    kinds::TK_PRIMARY as u8,
    kinds::TK_REINDEX as u8,
    kinds::TK_RELEASE as u8,
    kinds::TK_REPLACE as u8,
    kinds::TK_TRIGGER as u8,
    kinds::TK_VIRTUAL as u8,
    kinds::TK_WITHOUT as u8,
    kinds::TK_CONFLICT as u8,
    kinds::TK_DATABASE as u8,
    kinds::TK_DEFERRED as u8,
    kinds::TK_DISTINCT as u8,
    kinds::TK_OPTIMIZE as u8,
    kinds::TK_RESTRICT as u8,
    kinds::TK_ROLLBACK as u8,
    kinds::TK_EXCLUSIVE as u8,
    kinds::TK_FOLLOWING as u8,
    kinds::TK_GENERATED as u8,
    kinds::TK_IMMEDIATE as u8,
    kinds::TK_INITIALLY as u8,
    kinds::TK_INTERSECT as u8,
    kinds::TK_PARTITION as u8,
    kinds::TK_PRECEDING as u8,
    kinds::TK_RECURSIVE as u8,
    kinds::TK_RETURNING as u8,
    kinds::TK_SAVEPOINT as u8,
    kinds::TK_TEMP as u8,
    kinds::TK_UNBOUNDED as u8,
    kinds::TK_CONCURRENT as u8,
    kinds::TK_CONSTRAINT as u8,
    kinds::TK_DEFERRABLE as u8,
    kinds::TK_REFERENCES as u8,
    kinds::TK_TRANSACTION as u8,
    kinds::TK_CTIME_KW as u8,
    kinds::TK_CTIME_KW as u8,
    kinds::TK_MATERIALIZED as u8,
    kinds::TK_AUTOINCR as u8,
    kinds::TK_CTIME_KW as u8,
];

// Word k, of n bytes, stands at byte n * k - SKIPS[n] of the words end to end.
static SKIPS: [u16; 18] = [
    0, 0, 0, 11, 32, 79, 149, 249, 370, 498, 639, 784, 930, 1079, 1229, 1379, 1529, 1679,
];

// Each table is read by a function of its own, since it has its own width and contract: one for all would be handed the table.

// Byte p of the words end to end.
pub(crate) fn letter_at(p: u32) -> u8
    requires { p < 888 }
    ensures { result ≡ letter_at p }
{
    LETTERS[p as usize]
}

// How many words stand before group x.
pub(crate) fn start_of(x: u32) -> u32
    requires { x < 504 }
    ensures { result ≡ start_of x }
{
    u32::from(STARTS[x as usize])
}

// The kind of word k.
pub(crate) fn kind_at(k: u32) -> u32
    requires { k < 151 }
    ensures { result ≡ kind_at k }
{
    u32::from(KINDS[k as usize])
}

// How far before byte n * k word k of n bytes stands.
pub(crate) fn skip(n: u32) -> u32
    requires { n < 18 }
    ensures { result ≡ get_or skips n 0 }
{
    u32::from(SKIPS[n as usize])
}

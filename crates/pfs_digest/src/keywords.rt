//! The words that a digest text shows in upper case.
#![tactic(auto)]

ghost use Rattle.std.specs.Prelude.{◌≡◌, IsTrue, map, option_map};
ghost use Rattle.std.specs.List.{find};
ghost use Rattle.pfs_digest.specs.Keywords as spec;

use std::cmp::Ordering;

// The keywords, in the order of their bytes.
const KEYWORDS: &[&str] = &[
    "ALL",
    "ALTER",
    "AND",
    "AS",
    "ASC",
    "AVG",
    "BEGIN",
    "BETWEEN",
    "BY",
    "CALL",
    "CASE",
    "COMMIT",
    "COUNT",
    "CREATE",
    "DELETE",
    "DESC",
    "DISTINCT",
    "DROP",
    "ELSE",
    "END",
    "EXISTS",
    "FOR",
    "FROM",
    "GROUP",
    "HAVING",
    "IN",
    "INDEX",
    "INNER",
    "INSERT",
    "INTO",
    "IS",
    "JOIN",
    "KEY",
    "LEFT",
    "LIKE",
    "LIMIT",
    "LOCK",
    "MAX",
    "MIN",
    "NOT",
    "NULL",
    "ON",
    "OR",
    "ORDER",
    "OUTER",
    "REPLACE",
    "RIGHT",
    "ROLLBACK",
    "SELECT",
    "SET",
    "SHOW",
    "START",
    "SUM",
    "TABLE",
    "THEN",
    "TRANSACTION",
    "TRUNCATE",
    "UNION",
    "UNLOCK",
    "UPDATE",
    "USE",
    "USING",
    "VALUES",
    "WHEN",
    "WHERE",
    "WITH",
];

/// The keyword that a word is, in any case of its letters.
#[tactic(auto, unfolding(crate::specs::Keywords::keyword_of))]
pub(crate) fn keyword_of(word: &[u8]) -> Option<&'static str>
    ensures { option_map (λ keyword. keyword.now) result ≡ spec.keyword_of word.now }
{
    find_word(keywords(), word)
}

// The keywords.
fn keywords() -> &'static [&'static str]
    ensures words { map (λ keyword. keyword.now) result.now ≡ spec.keywords }
    ensures ascend { IsTrue (spec.ascend (map (λ keyword. keyword.now) result.now)) }
{
    KEYWORDS
}

// The one of the keywords, which ascend, that the word is. Those before `low` are less than the word, and those from
// `high` on greater.
fn find_word(keywords: &[&'static str], word: &[u8]) -> Option<&'static str>
    requires { IsTrue (spec.ascend (map (λ keyword. keyword.now) keywords.now)) }
    ensures { option_map (λ keyword. keyword.now) result
        ≡ find (λ keyword. spec.is_in_any_case word.now keyword) (map (λ keyword. keyword.now) keywords.now) }
{
    let (mut low, mut high) = (0, keywords.len());
    while low < high {
        let middle = low + (high - low) / 2;
        match order(keywords[middle].as_bytes(), word) {
            Ordering::Less => low = middle + 1,
            Ordering::Greater => high = middle,
            Ordering::Equal => return Some(keywords[middle]),
        }
    }
    None
}

// How the keyword stands to the word, in any case of the letters of both. It goes no further than the shorter one.
fn order(keyword: &[u8], word: &[u8]) -> Ordering
    ensures { result ≡ spec.any_case_cmp keyword.now word.now }
{
    match keyword {
        [] => if word.is_empty() {
            Ordering::Equal
        } else {
            Ordering::Less
        },
        [a, keyword @ ..] => match word {
            [] => Ordering::Greater,
            [b, word @ ..] => {
                let first = a.to_ascii_lowercase().cmp(&b.to_ascii_lowercase());
                first.then(order(keyword, word))
            }
        },
    }
}

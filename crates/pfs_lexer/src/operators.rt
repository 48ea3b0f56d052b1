//! Operators.
#![tactic(auto)]

ghost use Rattle.std.specs.Prelude.{◌≡◌, ◌≤◌, nat_eq, [], ◌∷◌, length, IsTrue};
ghost use Rattle.std.specs.List.{list_any, starts_with};
ghost use Rattle.pfs_lexer.specs.Operators as spec;

const DOUBLES: [[u8; 2]; 9] = [
    *b"<=", *b">=", *b"<>", *b"!=", *b"||", *b"&&", *b":=", *b"<<", *b">>",
];

const SINGLES: [u8; 23] = *b"(),.;+-*/%=<>!&|^~?:@{}";

/// How long the longest operator at the front is, 0 where there is none.
#[tactic(auto, unfolding(crate::specs::Operators::operator_len))]
pub(crate) fn operator_len(bytes: &[u8]) -> usize
    ensures len { result ≡ spec.operator_len bytes.now }
    ensures within { result ≤ length bytes.now }
{
    if bytes.starts_with(b"<=>") {
        3
    } else if begins_with_double(bytes) {
        2
    } else if begins_with_single(bytes) {
        1
    } else {
        0
    }
}

fn begins_with_double(bytes: &[u8]) -> bool
    ensures value { result ≡ spec.begins_with_one_of spec.doubles bytes.now }
    ensures within { IsTrue result → 2 ≤ length bytes.now }
{
    DOUBLES
        .iter()
        .any(|spelling| bytes.starts_with(spelling.as_slice()))
}

fn begins_with_single(bytes: &[u8]) -> bool
    ensures value { result ≡ list_any (λ byte. starts_with nat_eq bytes.now (byte ∷ [])) spec.singles }
    ensures within { IsTrue result → 1 ≤ length bytes.now }
{
    SINGLES.iter().any(|byte| bytes.starts_with(&[*byte]))
}

//! Worked texts: kinds and spans, where a number ends, and faults, behind which nothing comes.

use crate::asserts::same;
use pfs_lexer::{LexFault, Lexer, Token, TokenKind};
use std::process::Abort;

/// The tokens of the text, and the fault behind them where it has one.
fn expect(
    rt: &impl Abort,
    text: &str,
    tokens: &[(TokenKind, usize, usize)],
    fault: Option<LexFault>,
) {
    let mut lexer = Lexer::new(text);
    for (kind, start, end) in tokens {
        let token = Token {
            kind: *kind,
            start: *start,
            end: *end,
        };
        same(rt, text, lexer.next(), Some(Ok(token)));
    }
    if let Some(fault) = fault {
        same(rt, text, lexer.next(), Some(Err(fault)));
    }
    same(rt, text, lexer.next(), None);
}

#[test]
fn kinds_and_spans(rt: HostRuntime) {
    let tokens = [
        (TokenKind::Word, 0, 1),
        (TokenKind::Operator, 1, 4),
        (TokenKind::QuotedName, 4, 10),
        (TokenKind::String, 16, 23),
        (TokenKind::Number, 24, 28),
    ];
    expect(&rt, "a<=>`b``c` -- x\n'it''s' 0x1F", &tokens, None);
}

#[test]
fn numbers_end_where_they_must(rt: HostRuntime) {
    let tokens = [
        (TokenKind::Number, 0, 6),
        (TokenKind::Word, 6, 7),
        (TokenKind::Number, 8, 9),
        (TokenKind::Operator, 9, 10),
        (TokenKind::Number, 11, 12),
        (TokenKind::Word, 12, 13),
    ];
    expect(&rt, "1.5e+3x 1. 1e", &tokens, None);
}

#[test]
fn faults_come_last(rt: HostRuntime) {
    let select = [(TokenKind::Word, 0, 6)];
    expect(&rt, "SELECT 'abc", &select, Some(LexFault::OpenString(7)));
    expect(&rt, "SELECT /* a", &select, Some(LexFault::OpenComment(7)));
    expect(&rt, "\u{e9}", &[], Some(LexFault::BadByte(0)));
}

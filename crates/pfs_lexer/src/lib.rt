//! The tokens of a statement's text.
//!
//! A text is cut into strings, quoted names, numbers, words and operators, the longest at each place.
//! White space and comments stand between them. `Lexer` gives the tokens in order, or those before the
//! first fault and then the fault.
#![tactic(auto)]

mod classes;
mod comments;
mod fronts;
pub mod laws;
mod numbers;
mod operators;
mod quotes;
mod reading;
mod tokens;

pub use reading::Lexer;
pub use tokens::{LexFault, Token, TokenKind};

//! Pieces of a script, and the tokens of a piece.
//!
//! [`pieces`] finds the spans between semicolons outside texts and comments, and [`tokens`] cuts a piece into longest
//! forms. Contracts see a token by its kind and its span, in bytes of the piece. [`Tokens`] gives what the tokens of a
//! piece say one at a time, with no list of them in memory.
#![tactic(auto)]

mod contents;
pub mod examples;
mod laws;
mod lengths;
mod lexer;
mod listed_token;
mod name_bytes;
mod numbers;
mod piece_spans;
mod text_token;
mod token;
mod token_count;
mod token_list;

pub use laws::{one_way_to_lex, tokens_are_longest};
pub use lexer::tokens;
pub use name_bytes::{begins_name, is_name_byte};
pub use piece_spans::pieces;
pub use token::{LexFault, Mark, Place, Token, TokenKind};
pub use token_list::Tokens;

//! Statements as they are written: their types, their spelling, and the parser that is its inverse.
//!
//! Contracts see a statement as its tree and tokens by their kinds. [`parse`] answers the one well formed statement that
//! the tokens are the spelling of; what can stand first in some tokens implements `Parse`, and lists, options and
//! parentheses are parsed by the functions of `sequences` at any such type.
#![tactic(auto)]

mod ast;
mod columns;
mod conditions;
mod depth;
pub mod examples;
mod fault;
mod items;
mod laws;
mod literals;
mod parser;
mod predicates;
mod select;
mod sequences;
mod statements;
mod tokens_at;
mod whole_statement;
mod words;

pub use ast::{
    ColumnDef, ColumnName, Cond, Conj, Expr, Item, Literal, OrderKey, Primary, Select, Statement,
    TestWords, Way, What,
};
pub use fault::ParseFault;
pub use laws::{depth_by_prefixes, one_spelling};
pub use whole_statement::{parse, statement_of};

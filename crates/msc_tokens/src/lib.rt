//! Tokens of a text that comes in pieces.
#![tactic(auto)]

mod byte_class;
mod fault;
mod lexer;
mod machine;
mod mode;
mod part_lexer;
mod place;
mod token;
mod token_list;
mod whole;

pub use fault::LexFault;
pub use lexer::{Lexer, lex_all};
pub use part_lexer::PartLexer;
pub use place::place_behind;
pub use token::{Token, TokenKind};
pub use token_list::TokenList;

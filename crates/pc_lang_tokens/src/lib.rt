//! The text of the constraint language: its tokens, and how names are written.
#![tactic(auto)]

mod again;
mod front;
mod lexer;
mod put;
mod texts;
mod token;
mod tokens;
mod word;

pub use again::{names_read_back, numbers_are_spelled, tokens_are_spelled, tokens_read_back};
pub use front::front_name;
pub use lexer::token_at;
pub use put::put_name;
pub use texts::put_tokens;
pub use token::{Symbol, Token, Word};
pub use tokens::{NoTokens, Tokens, read_tokens};
pub use word::is_bare;

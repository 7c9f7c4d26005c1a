//! The grammar of the constraint language: what lists of tokens are a constraint's line, its name or a query.
#![tactic(auto)]

mod after;
mod claim;
mod halt;
mod head;
mod law;
mod line;
mod part;
mod quantile;
mod question;
mod rule;
mod spell;
mod syntax;
mod want;
mod ways;

pub use after::{may_end, next};
pub use halt::{Halt, Unread, halt_of};
pub use law::{
    lines_follow_the_grammar, places_are_where_texts_end, quantiles_follow_the_grammar,
    questions_follow_the_grammar,
};
pub use line::read_line;
pub use quantile::read_quantile_question;
pub use question::read_question;
pub use rule::read_rule;
pub use spell::{spell_line, spell_quantile, spell_question};
pub use syntax::{Atom, Claim, Head, Line, Measure, Part, QuantileQuestion, Question, Ways};
pub use want::{Clause, ClauseWant, Kind, LineWant, QuantileWant, QueryWant, Want};

//! Lines of a text and their tokens, the parts of a line's form, and why a line is refused.
#![tactic(auto)]

mod cause;
mod forms;
mod limits;
mod lines;
mod next;
mod token;
mod writing;

pub use cause::{Cause, FormError, LineError, ParseError, at_line, guard, known, with_cause};
pub use forms::{
    Item, after_arrow, after_mark, after_word, ended, flag_at, is_arrow, is_mark, list_at,
    number_at, word_at,
};
pub use limits::line_tokens;
pub use lines::{all_plain, before_comment, split_line};
pub use next::{is_line, mark_next, none_next, number_next, word_next};
pub use token::{Token, is_word, next_run, same, tokens_of};
pub use writing::{Written, put_list};

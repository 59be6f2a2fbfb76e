//! What stands between commas in a line of a specification.

ghost use Rattle.std.specs.Prelude.{◌≡◌};
ghost use Rattle.line_text.specs.Reads.{Gives};

use ind_base::{List, Text};
use line_text::{FormError, Item, Token, after_mark, ended, flag_at, is_mark, word_at};
use std::alloc::Global;

/// A variable of a clause: `VAR:SORT`.
#[derive(Drop)]
pub struct NamedVar {
    pub name: Text,
    pub sort: Text,
}

/// A parameter of an operation: `PAR:SORT`, and whether `interval` follows.
#[derive(Drop)]
pub struct NamedParam {
    pub name: Text,
    pub sort: Text,
    pub interval: bool,
}

/// A parameter, or `*`.
#[derive(Drop)]
pub enum NamedTerm {
    Param(Text),
    Every,
}

impl Item for NamedVar {
    ghost use Rattle.spec_lines.specs.Items as definitions;

    ghost reads = { definitions.var_item };

    #[tactic(auto, unfolding(crate::specs::Items::var_item))]
    fn item(alloc: Global, tokens: &[Token]) -> Result<NamedVar, FormError> {
        let (name, rest) = word_at(tokens)?;
        let rest = after_mark(b':', rest)?;
        let (sort, rest) = word_at(rest)?;
        ended(rest)?;
        Ok(NamedVar {
            name: List::from_slice(alloc, name)?,
            sort: List::from_slice(alloc, sort)?,
        })
    }
}

impl Item for NamedParam {
    ghost use Rattle.spec_lines.specs.Items as definitions;

    ghost reads = { definitions.param_item };

    #[tactic(auto, unfolding(crate::specs::Items::param_item))]
    fn item(alloc: Global, tokens: &[Token]) -> Result<NamedParam, FormError> {
        let (name, rest) = word_at(tokens)?;
        let rest = after_mark(b':', rest)?;
        let (sort, rest) = word_at(rest)?;
        let (interval, rest) = flag_at(b"interval", rest);
        ended(rest)?;
        Ok(NamedParam {
            name: List::from_slice(alloc, name)?,
            sort: List::from_slice(alloc, sort)?,
            interval,
        })
    }
}

impl Item for NamedTerm {
    ghost use Rattle.spec_lines.specs.Items as definitions;

    ghost reads = { definitions.term_item };

    #[tactic(auto, unfolding(crate::specs::Items::term_item))]
    fn item(alloc: Global, tokens: &[Token]) -> Result<NamedTerm, FormError> {
        let [token] = tokens else {
            return Err(FormError::Refused);
        };
        if is_mark(b'*', token) {
            return Ok(NamedTerm::Every);
        }
        let (name, _) = word_at(tokens)?;
        Ok(NamedTerm::Param(List::from_slice(alloc, name)?))
    }
}

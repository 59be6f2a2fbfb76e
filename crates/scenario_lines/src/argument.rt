//! The arguments of a request as they are written.

ghost use Rattle.std.specs.Prelude.{◌≡◌};
ghost use Rattle.line_text.specs.Reads.{Gives};
ghost use Rattle.scenario_lines.specs.Arguments as definitions;

use line_text::{FormError, Item, Token, after_mark, ended, number_at};
use std::alloc::Global;

/// An argument: a number, or `LO-HI`.
#[derive(Clone, Copy)]
pub enum NamedArg {
    One(u64),
    Span { lo: u64, hi: u64 },
}

/// The span that begins with a number.
#[tactic(auto, unfolding(crate::specs::Arguments::span_behind))]
fn span_behind(lo: u64, tokens: &[Token]) -> Result<NamedArg, FormError>
    ensures { Gives (λ x. x) result (definitions.span_behind lo tokens.now) }
{
    let rest = after_mark(b'-', tokens)?;
    let (hi, rest) = number_at(rest)?;
    ended(rest)?;
    Ok(NamedArg::Span { lo, hi })
}

/// The argument that begins with a number.
#[tactic(auto, unfolding(crate::specs::Arguments::arg_behind))]
fn arg_behind(lo: u64, tokens: &[Token]) -> Result<NamedArg, FormError>
    ensures { Gives (λ x. x) result (definitions.arg_behind lo tokens.now) }
{
    match tokens {
        [] => Ok(NamedArg::One(lo)),
        _ => span_behind(lo, tokens),
    }
}

impl Item for NamedArg {
    ghost use Rattle.scenario_lines.specs.Arguments as definitions;

    ghost reads = { definitions.arg_item };

    #[tactic(auto, unfolding(crate::specs::Arguments::arg_item))]
    fn item(_alloc: Global, tokens: &[Token]) -> Result<NamedArg, FormError> {
        let (lo, rest) = number_at(tokens)?;
        arg_behind(lo, rest)
    }
}

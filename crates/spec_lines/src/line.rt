//! What a line says by itself, with names where a specification has places.

use crate::item::{NamedParam, NamedTerm, NamedVar};
use ind_base::{List, Text};
use spec_model::Rule;

/// `NAME(VAR,VAR)` or `VAR = VAR`.
#[derive(Drop)]
pub enum NamedLiteral {
    Atom { pred: Text, vars: List<Text> },
    Equal { left: Text, right: Text },
}

/// A line of a specification.
#[derive(Drop)]
pub enum SpecLine {
    /// `sort NAME SIZE`
    Sort {
        name: Text,
        size: u64,
    },
    /// `pred NAME(SORT,SORT) RULE`, or the same with ` true`
    Pred {
        name: Text,
        sorts: List<Text>,
        rule: Rule,
        first: bool,
    },
    /// `num NAME(SORT) init N min N max N`
    Num {
        name: Text,
        sorts: List<Text>,
        init: u64,
        min: Option<u64>,
        max: Option<u64>,
    },
    /// `clause (VAR:SORT) LIT and LIT => LIT or LIT mask`
    Clause {
        vars: List<NamedVar>,
        premise: List<NamedLiteral>,
        conclusion: List<NamedLiteral>,
        mask: bool,
    },
    /// `op NAME(PAR:SORT)`
    Op {
        name: Text,
        params: List<NamedParam>,
    },
    /// `set NAME(TERM)` where `truth`, else `clear NAME(TERM)`
    Touch {
        truth: bool,
        pred: Text,
        terms: List<NamedTerm>,
    },
    /// `add N NAME(PAR)` where `raises`, else `sub N NAME(PAR)`
    Change {
        raises: bool,
        amount: u64,
        num: Text,
        params: List<Text>,
    },
    /// `free NAME NAME`
    Free {
        first: Text,
        second: Text,
    },
}

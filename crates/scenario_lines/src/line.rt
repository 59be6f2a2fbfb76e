//! What a line of a run says by itself.

use crate::argument::NamedArg;
use ind_base::{List, Text};

/// A line behind the specification.
#[derive(Drop)]
pub enum RunLine {
    /// `replicas N`
    Replicas(u64),
    /// `stop R CALL KEEP FILL`
    Stop {
        replica: u64,
        call: u64,
        keep: u64,
        fill: u64,
    },
    /// `do R NAME(ARG,ARG)`
    Do {
        replica: u64,
        op: Text,
        args: List<NamedArg>,
    },
    /// `send R PEER`
    Send {
        replica: u64,
        peer: u64,
    },
    /// `take R PEER K`
    Take {
        replica: u64,
        peer: u64,
        number: u64,
    },
    /// `crash R`
    Crash(u64),
    /// `recover R`
    Recover(u64),
    /// `turns T`
    Turns(u64),
    /// `client C at R`
    Client {
        client: u64,
        home: u64,
    },
    /// `ask C NAME(ARG,ARG)`
    AskDo {
        client: u64,
        op: Text,
        args: List<NamedArg>,
    },
    /// `ask C crash`
    AskCrash(u64),
    /// `ask C recover`
    AskRecover(u64),
}

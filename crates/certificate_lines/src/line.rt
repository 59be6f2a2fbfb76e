//! A line of a plan or a certificate.

use ground_clauses::Step;
use ind_base::{List, Text};
use spec_model::Pair;

/// A lock or a partition: its number, the names of its two operations, and its key.
#[derive(Drop)]
pub struct KindLine {
    pub number: u32,
    pub first: Text,
    pub second: Text,
    pub key: List<Pair>,
}

/// A line of a plan or a certificate.
#[derive(Drop)]
pub enum TextLine {
    /// `plan`
    Plan,
    /// `lock K OP OP I=J I=J`
    Lock(KindLine),
    /// `part K OP OP I=J`
    Part(KindLine),
    /// `certificate`
    Certificate,
    /// `case C sep lock K`
    SepLock { case: u32, lock: u32 },
    /// `case C sep part K`
    SepPart { case: u32, part: u32 },
    /// `case C refuted COUNT`
    Refuted { case: u32, count: u32 },
    /// `step LIT LIT ; HINT HINT`
    Step(Step),
    /// `end`
    End,
}

//! The commands of the program.

/// A command.
#[derive(Clone, Copy, PartialEq, Eq)]
pub enum Command {
    /// Runs the replicas of a document on its schedule.
    Simulate,
    /// Derives the plan of a document's specification, with a certificate.
    Analyse,
    /// Checks a plan and a certificate behind a document.
    Check,
    /// Prints a document's canonical text.
    Print,
}

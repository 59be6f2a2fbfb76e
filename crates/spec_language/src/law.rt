//! Laws of specifications that were read: their lines, and the names of their operations.

ghost use Rattle.spec_language.specs.Again.{IsSaidAgain};
ghost use Rattle.spec_language.specs.Naming.{OpsAreNamed};

/// The lines that say a specification which was read give it again. It does nothing: its contract
/// is the law.
pub fn said_again()
    ensures { IsSaidAgain }
{}

/// The names of the operations of a specification that was read are words and tell them apart. It
/// does nothing: its contract is the law.
pub fn ops_are_named()
    ensures { OpsAreNamed }
{}

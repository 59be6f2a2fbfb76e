//! What cases and their queries show of instances: laws, which run nothing.

ghost use Rattle.ground_clauses.specs.Laws.{RefutedHolds, DerivationRefutes, CaseKeeps, HasItsCase};
ghost use Rattle.ground_clauses.specs.States.{ModelShows};

/// A refuted query makes the target's instance true with both.
pub fn refuted_holds()
    ensures { RefutedHolds }
{}

/// A right derivation leaves no model.
pub fn no_model()
    ensures { DerivationRefutes }
{}

/// A case that isn't touched, or whose query has no model, keeps its target.
pub fn case_keeps()
    ensures { CaseKeeps }
{}

/// Every two instances with every assignment have their case in the canonical list.
pub fn has_its_case()
    ensures { HasItsCase }
{}

/// The states of a model show how the two operations, each harmless alone, break the target.
pub fn model_shows()
    ensures { ModelShows }
{}

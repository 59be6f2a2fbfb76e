//! Laws about universes and needs, for callers to cite.

ghost use Rattle.effect_model.specs.Amounts.{ChangesAreSmall};
ghost use Rattle.effect_model.specs.Laws.{UniverseIsAll};
ghost use Rattle.effect_model.specs.Plain.{PlainNeedsAreFixed};

/// Atoms and cells are what is declared at all elements of its sorts, each at one place.
pub fn universe_is_all()
    ensures { UniverseIsAll }
{}

/// An instance adds at most 16 * 10^9 to a cell, and subtracts at most that.
pub fn changes_are_small()
    ensures { ChangesAreSmall }
{}

/// What an instance needs but for its witnesses depends on no state.
pub fn plain_needs_are_fixed()
    ensures { PlainNeedsAreFixed }
{}

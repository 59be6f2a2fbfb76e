//! Laws of runs, for callers to cite.

ghost use Rattle.message_laws.specs.Laws.{MessagesAreHeeded, NeedsFit};

/// What an instance needs are rights that there are, in amounts that there can be of them.
pub fn needs_fit()
    ensures { NeedsFit }
{}

/// A replica heeds whole what was sent to it, in a run of at most 16 replicas that log at most 2^22
/// items each, where the plan is enough and each instance that was asked for fits the
/// specification.
pub fn messages_are_heeded()
    ensures { MessagesAreHeeded }
{}

ghost use Rattle.std.specs.Prelude.{◌≡◌, []};
ghost use Rattle.crossbeam_queue.specs.Passes.{view};
ghost use Rattle.replica_links.specs.Views.{IsPutter, IsGetter};

use crossbeam_queue::protocol::Protocol;
use crossbeam_queue::{Pass, RuledArrayQueue};
use std::alloc::Global;
use std::collections::LinkedList;

/// What a pass knows. No value of it is made.
pub struct View<M> {
    /// Whether messages are put with it. Then it knows all that was put.
    pub puts: bool,
    /// Whether messages are taken with it. Then it knows all that was taken.
    pub gets: bool,
    /// What it knows of what was put: a beginning of that.
    pub put: LinkedList<M>,
    /// What it knows of what was taken: a beginning of that.
    pub taken: LinkedList<M>,
    /// How often it found nothing.
    pub idle: u64,
}

/// What holds of a link between any two steps.
pub struct LinkRule;

impl<M> Protocol<M, View<M>> for LinkRule {
    ghost use Rattle.replica_links.specs.Rule.{IsInOrder};
    ghost use Rattle.replica_links.specs.Views.{newcomer};

    ghost holds = { IsInOrder };

    ghost first = { newcomer };
}

pub(crate) type Queue<M> = RuledArrayQueue<M, View<M>, LinkRule, Global>;

/// A pass of the queue.
pub(crate) type End<M> = Pass<M, View<M>>;

/// The right to put messages on a link.
#[derive(Drop)]
pub struct PutPass<M> {
    pub(crate) end: End<M>,
    ghost empty: { end.me.1 ≡ [] },
    ghost puts: { IsPutter (view end) },
}

/// The right to take messages from a link.
#[derive(Drop)]
pub struct GetPass<M> {
    pub(crate) end: End<M>,
    ghost empty: { end.me.1 ≡ [] },
    ghost gets: { IsGetter (view end) },
}

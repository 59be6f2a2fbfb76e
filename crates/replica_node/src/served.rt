//! A replica at which threads take turns.

ghost use Rattle.std.specs.Prelude.{◌≡◌, []};
ghost use Rattle.replica_node.specs.Nodes.{IsNode};
ghost use Rattle.replica_node.specs.Serving.{HasServed};

use crate::ends::Ends;
use crate::node::Node;
use batch_storage::Storage;
use ind_base::NoMemory;
use run_model::{Ask, StepEntry};
use spec_model::Setup;
use std::alloc::Global;
use std::marker::Model;
use std::snapshot::Snapshot;
use turn_desk::Turn;

/// What no turn changes: what the node runs by, and the node before its first turn. No value of it
/// is made.
pub struct Opening<N> {
    pub setup: Setup,
    pub first: N,
}

/// A replica that serves asks in turns, with what it runs by.
#[derive(Drop)]
pub struct Served<'a, S: Storage + Drop, E: Ends + Drop> {
    node: Node<S, E>,
    setup: &'a Setup,
    alloc: Global,
    first: Snapshot<Node<S, E>>,
}

impl<'a, S: Storage + Drop, E: Ends + Drop> Model for Served<'a, S, E> {
    ghost use Rattle.replica_node.specs.Serving.{HasServed, Serving};
    ghost use Rattle.replica_node.specs.declared.node.Node.{Node as NodeOf};
    ghost use Rattle.replica_course.specs.contracts.course.Course as course;
    ghost use Rattle.std.specs.Coded.{codes};

    ghost Value = { Serving (NodeOf S E S.D E.Mark) };

    ghost coded = { Prim.hlevel (codes, course.the_row.coded) };

    ghost view = { λ a. record { setup = a.setup.now; first = a.first.value; node = a.node } };

    ghost invariant = { λ a. HasServed S.keeps S.shows E.mark E.owner E.reaches E.room E.puts E.gots E.idles a.setup.now a.first.value a.node };
}

impl<'a, S: Storage + Drop, E: Ends + Drop> Served<'a, S, E> {
    /// A node before its first step, for a desk.
    pub fn new(alloc: Global, setup: &'a Setup, node: Node<S, E>) -> Served<'a, S, E>
        requires own { IsNode S.keeps E.mark E.owner E.reaches E.room E.puts E.gots setup.now node.still.course.me node }
        requires first { node.still.course.entries ≡ [] }
        ensures { result ≡ record { setup = setup.now; first = node; node = node } }
    {
        let first = Snapshot::of(&node);
        Served {
            node,
            setup,
            alloc,
            first,
        }
    }

    /// The node, once its turns are over.
    pub fn into_node(self) -> Node<S, E>
        ensures node { result ≡ self.entry.node }
        ensures served { HasServed S.keeps S.shows E.mark E.owner E.reaches E.room E.puts E.gots E.idles self.entry.setup self.entry.first result }
    {
        self.node
    }
}

impl<'a, S: Storage + Drop, E: Ends + Drop> Turn for Served<'a, S, E> {
    ghost use Rattle.replica_node.specs.Serving.{CanServe, turns_of};

    type Ask = Ask;

    type Answer = StepEntry;

    type Opening = Opening<Node<S, E>>;

    ghost opening = { λ s. record { setup = s.setup; first = s.first } };

    ghost history = { λ s. turns_of s.node.still.course.entries };

    ghost room = { λ o. 100000 };

    ghost fits = { λ o ask. CanServe o ask };

    ghost is_answer = { λ o answer. Unit {0} };

    fn turn(&mut self, ask: Ask) -> Result<StepEntry, NoMemory> {
        self.node.step(self.alloc, self.setup, ask)
    }
}

//! What each step of a link tells, and how its passes are parted and joined.
use crate::pass::View;
use crossbeam_queue::protocol::{Join, Lesson, Outcome, Split};

/// A message is put at the end, or the link holds its room.
pub(crate) struct PutLast;

impl<M> Outcome<M, View<M>> for PutLast {
    ghost use Rattle.replica_links.specs.Views.{putting};

    ghost then = { putting };
}

impl<M> Lesson<M, View<M>> for PutLast {
    ghost use Rattle.replica_links.specs.Views.{HoldsAtMost};

    ghost fact = { HoldsAtMost };
}

/// The first message is taken, or the link holds none.
pub(crate) struct TakeFirst;

impl<M> Outcome<M, View<M>> for TakeFirst {
    ghost use Rattle.replica_links.specs.Views.{taking};

    ghost then = { taking };
}

impl<M> Lesson<M, View<M>> for TakeFirst {
    ghost use Rattle.replica_links.specs.Views.{HoldsTheRest};

    ghost fact = { HoldsTheRest };
}

/// A pass with both ends takes what is left.
pub(crate) struct TakeLeft;

impl<M> Outcome<M, View<M>> for TakeLeft {
    ghost use Rattle.replica_links.specs.Views.{taking_left};

    ghost then = { taking_left };
}

impl<M> Lesson<M, View<M>> for TakeLeft {
    ghost use Rattle.replica_links.specs.Views.{HoldsJustTheRest};

    ghost fact = { HoldsJustTheRest };
}

/// What the pass that puts knows of what was taken.
pub(crate) struct Compare;

impl<M> Lesson<M, View<M>> for Compare {
    ghost use Rattle.replica_links.specs.Views.{TookWhatWasPut};

    ghost fact = { TookWhatWasPut };
}

/// The two ends.
pub(crate) struct TwoEnds;

impl<M> Split<View<M>> for TwoEnds {
    ghost use Rattle.replica_links.specs.Views.{putter, getter};

    ghost left = { putter };

    ghost right = { getter };
}

impl<M> Join<View<M>> for TwoEnds {
    ghost use Rattle.replica_links.specs.Views.{nobody, with_both};

    ghost both = { with_both };

    ghost spent = { nobody };
}

/// A get that found nothing is counted. No other pass comes of it.
pub(crate) struct CountIdle;

impl<M> Split<View<M>> for CountIdle {
    ghost use Rattle.replica_links.specs.Views.{nobody, once_more_idle};

    ghost left = { once_more_idle };

    ghost right = { λ v. nobody };
}

/// A pass tells what it knows.
pub(crate) struct Tell;

impl<M> Split<View<M>> for Tell {
    ghost use Rattle.replica_links.specs.Views.{witness};

    ghost left = { λ v. v };

    ghost right = { witness };
}

/// A pass hears what was put.
pub(crate) struct HearPut;

impl<M> Join<View<M>> for HearPut {
    ghost use Rattle.replica_links.specs.Views.{nobody, hearing_put};

    ghost both = { hearing_put };

    ghost spent = { nobody };
}

/// A pass hears what was taken.
pub(crate) struct HearTaken;

impl<M> Join<View<M>> for HearTaken {
    ghost use Rattle.replica_links.specs.Views.{nobody, hearing_taken};

    ghost both = { hearing_taken };

    ghost spent = { nobody };
}

//! Batches in a journal.

ghost use Rattle.std.specs.Prelude.{◌≡◌, IsSome};
ghost use Rattle.batch_storage.specs.Found.{up_where};

use crate::appending::append_to;
use crate::held::Held;
use crate::starting::{restart_on, start_on};
use crate::storage::{Found, Storage};
use ind_base::NoMemory;
use rights_journal::Keeps;
use run_model::Batch;
use std::alloc::Global;

/// Batches in a journal: it is live while the replica is up, and while it is down there is its disk alone.
#[derive(Drop)]
pub struct Journaled<J: Keeps + Drop> {
    held: Option<Held<J, J::D>>,
    ghost there: { IsSome held },
}

/// Whether a replica is up after a start that found this.
fn is_up(found: Found) -> bool
    ensures { result ≡ up_where found }
{
    match found {
        Found::Broken => false,
        Found::Without | Found::With => true,
    }
}

impl<J: Keeps + Drop> Storage for Journaled<J> {
    ghost use Rattle.std.specs.Prelude.{IsSomeAnd};
    ghost use Rattle.batch_storage.specs.Held.{IsStored, IsLeft, IsLeftBy, IsUp, IsDown, IsHeld, seen_of};

    type D = J::D;

    ghost shows = { λ s. seen_of J.disk_of J.D.standing s.held };

    ghost keeps = { λ s n batches running. IsSomeAnd s.held (IsHeld
        (λ j. IsUp (J.live j) (J.is_kept j) (J.replicas_of j) n (J.D.standing (J.disk_of j)) (IsStored (J.finished n) batches))
        (λ d next. IsDown (J.D.standing d) (J.D.may_leave d) (IsLeft (J.stands_for n) batches next))
        running) };

    ghost comes_back = { λ n batches running c. IsLeftBy (J.finished n) (J.stands_for n) batches running c };

    fn begin(alloc: Global, disk: J::D, replicas: u32) -> Result<(Self, bool), NoMemory> {
        let (held, found) = start_on::<J>(alloc, disk, replicas, &[], &None);
        let up = is_up(found?);
        Ok((Journaled { held: Some(held) }, up))
    }

    fn append(&mut self, alloc: Global, batch: &Batch) -> Result<bool, NoMemory> {
        let Some(Held::Journal(journal)) = self.held.take() else {
            unreachable!()
        };
        let (held, result) = append_to::<J>(alloc, journal, batch);
        self.held = Some(held);
        result
    }

    fn stop(&mut self) {
        let Some(Held::Journal(journal)) = self.held.take() else {
            unreachable!()
        };
        self.held = Some(Held::Disk(journal.into_disk()));
    }

    fn restart(
        &mut self,
        alloc: Global,
        replicas: u32,
        kept: &[Batch],
        pending: &Option<Batch>,
    ) -> Result<Found, NoMemory> {
        let Some(Held::Disk(disk)) = self.held.take() else {
            unreachable!()
        };
        let (held, result) = restart_on::<J>(alloc, disk, replicas, kept, pending);
        self.held = Some(held);
        result
    }

    fn into_disk(self) -> J::D {
        let Journaled { held } = self;
        match held {
            Some(Held::Journal(journal)) => journal.into_disk(),
            Some(Held::Disk(disk)) => disk,
            None => unreachable!(),
        }
    }
}

//! What a replica decides on a message.

ghost use Rattle.std.specs.Prelude.{◌≤◌, ◌<◌, ◌+◌, ◌^◌, IfOk, length, slice_index};
ghost use Rattle.spec_model.specs.declared.plan.Setup.{Setup as SetupOf};
ghost use Rattle.run_model.specs.declared.message.Message.{Message as MessageOf};
ghost use Rattle.run_model.specs.Fitting.{SetupFits};
ghost use Rattle.message_laws.specs.Heeded.{IsAddressed, silent};
ghost use Rattle.message_laws.specs.Views.{View};
ghost use Rattle.message_drafts.specs.Drafts.{IsBatched};
ghost use Rattle.message_drafts.specs.Taking.{IsTaken, Sees, TakesHeeded};

use crate::addressed::is_addressed;
use crate::deciding::{Decided, decide, ready_items};
use crate::logging::{items_of, seen_after};
use crate::taken::Taken;
use ind_base::{Cut, List, NoMemory};
use rights_table::Table;
use run_model::{Batch, Message};
use spec_model::{LogItem, Setup};
use std::alloc::Global;

/// What is taken where these items are applied and this was decided.
fn batched(
    alloc: Global,
    me: u32,
    cut: Cut,
    applied: &[LogItem],
    decided: &Decided,
) -> Result<Taken, NoMemory>
    requires place { me < length cut }
    requires few { length applied.now ≤ 16 }
    requires few_bodies { length decided.now.bodies ≤ 24 }
    requires part { decided.now.accepted ≤ length decided.now.bodies }
    requires room { slice_index cut me + length decided.now.bodies < 2 ^ 32 }
    ensures { IfOk result (λ taken. IsBatched me cut applied.now decided.now taken) }
{
    let bodies = decided.bodies.as_slice();
    let own = items_of(alloc, me, cut, bodies)?;
    let mut items = List::from_vec(Vec::with_capacity(alloc, applied.len() + own.len())?);
    items.extend(applied)?;
    items.extend(own.as_slice())?;
    Ok(Taken {
        batch: Batch { items },
        applied: applied.len() as u32,
        accepted: decided.accepted,
        gave: bodies.len() as u32 - decided.accepted,
    })
}

/// What it takes of a message that isn't addressed to it.
fn take_nothing(alloc: Global) -> Taken
    ensures { (setup : SetupOf) (v : View) (message : MessageOf) → IsTaken setup (silent setup.replicas message) v result }
{
    Taken {
        batch: Batch {
            items: List::new(alloc),
        },
        applied: 0,
        accepted: 0,
        gave: 0,
    }
}

/// What it takes of a message that is addressed to it.
fn take_addressed(
    alloc: Global,
    setup: &Setup,
    me: u32,
    table: &Table,
    cut: &Cut,
    message: &Message,
) -> Result<Taken, NoMemory>
    requires setup { SetupFits setup.now }
    requires addressed { IsAddressed setup.now me message.now }
    requires sees { (v : View) × Sees setup.now v me cut.now table.now }
    ensures { IfOk result (λ taken. (v : View) → Sees setup.now v me cut.now table.now → TakesHeeded setup.now v message.now taken) }
{
    let ready = ready_items(setup, me, cut, message);
    let decided = decide(alloc, setup, me, table, cut, message, ready)?;
    let (applied, _) = ready.split_at(decided.applied as usize);
    let seen = seen_after(*cut, setup.replicas, applied);
    batched(alloc, me, seen, applied, &decided)
}

/// What replica `me`, whose table and cut these are, takes of a message: the items that it may
/// apply, an Accept for each of them that gives to it, and for each want of the sender at most one
/// Out, of what it then still holds.
///
/// The message may be any: only what fits is heeded, of at most 16 items and 8 wants, and nothing of
/// one that isn't addressed to it. A message of a run is heeded whole.
pub fn take(
    alloc: Global,
    setup: &Setup,
    me: u32,
    table: &Table,
    cut: &Cut,
    message: &Message,
) -> Result<Taken, NoMemory>
    requires setup { SetupFits setup.now }
    requires few { setup.now.replicas ≤ 16 }
    requires sees { (v : View) × Sees setup.now v me cut.now table.now }
    ensures { IfOk result (λ taken. (v : View) → Sees setup.now v me cut.now table.now → TakesHeeded setup.now v message.now taken) }
{
    if !is_addressed(setup, me, message) {
        return Ok(take_nothing(alloc));
    }
    take_addressed(alloc, setup, me, table, cut, message)
}

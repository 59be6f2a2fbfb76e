//! What is applied of a message, and what is logged for it.

ghost use Rattle.std.specs.Prelude.{◌≡◌, ◌≤◌, All, IfOk, length, take};
ghost use Rattle.run_model.specs.Fitting.{ItemFits, SetupFits};
ghost use Rattle.message_laws.specs.Views.{View};
ghost use Rattle.message_drafts.specs.Drafts.{IsDecided};
ghost use Rattle.message_drafts.specs.Fronts.{AreReadyOf};
ghost use Rattle.message_drafts.specs.Taking.{Sees};
ghost use Rattle.message_laws.specs.Heeded.{IsAddressed};

use crate::draft::Draft;
use crate::fitting::fitting_wants;
use crate::front::{first_of, front_count};
use causal_delivery::admit;
use ind_base::{Cut, List, NoMemory};
use rights_table::Table;
use run_model::Message;
use spec_model::{Body, LogItem, Setup};
use std::alloc::Global;

/// The most items of a message that are looked at.
const ITEMS: usize = 16;

/// The most wants of a message that are looked at.
const WANTS: usize = 8;

/// How many items are applied, and what is logged then: so many Accepts, and then Outs.
#[derive(Drop)]
pub(crate) struct Decided {
    pub(crate) applied: u32,
    pub(crate) accepted: u32,
    pub(crate) bodies: List<Body>,
}

/// The items of a message that fit and whose past was seen.
pub(crate) fn ready_items<'a>(
    setup: &Setup,
    me: u32,
    cut: &Cut,
    message: &'a Message,
) -> &'a [LogItem]
    requires setup { SetupFits setup.now }
    requires addressed { IsAddressed setup.now me message.now }
    requires whole { length cut.now ≡ setup.now.replicas }
    ensures ready { AreReadyOf setup.now cut.now message.now.from (take 16 message.now.items) result.now }
    ensures few { length result.now ≤ 16 }
{
    let items = first_of(message.items.as_slice(), ITEMS);
    let (front, _) = items.split_at(front_count(setup, message.from, items));
    let admitted = admit(cut, front);
    let (_, unseen) = front.split_at(admitted.skip as usize);
    let (ready, _) = unseen.split_at(admitted.apply as usize);
    ready
}

/// What is decided on a message that is addressed to the replica, of which these items are ready.
pub(crate) fn decide(
    alloc: Global,
    setup: &Setup,
    me: u32,
    table: &Table,
    cut: &Cut,
    message: &Message,
    ready: &[LogItem],
) -> Result<Decided, NoMemory>
    requires setup { SetupFits setup.now }
    requires addressed { IsAddressed setup.now me message.now }
    requires ready { AreReadyOf setup.now cut.now message.now.from (take 16 message.now.items) ready.now }
    requires few { length ready.now ≤ 16 }
    requires sees { (v : View) × Sees setup.now v me cut.now table.now }
    ensures few { IfOk result (λ d. length d.bodies ≤ 24) }
    ensures part { IfOk result (λ d. d.accepted ≤ length d.bodies) }
    ensures within { IfOk result (λ d. d.applied ≤ length ready.now) }
    ensures decided { IfOk result (λ d. (v : View) → Sees setup.now v me cut.now table.now → IsDecided setup.now v message.now ready.now d) }
{
    let mut draft = Draft::begin(alloc, setup, table);
    let applied = draft.join_all(setup, me, ready)? as u32;
    let accepted = draft.bodies.len() as u32;
    let wants = fitting_wants(alloc, setup, first_of(message.wants.as_slice(), WANTS))?;
    draft.answer_all(setup, message.from, wants.as_slice())?;
    let Draft { bodies, .. } = draft;
    Ok(Decided {
        applied,
        accepted,
        bodies,
    })
}

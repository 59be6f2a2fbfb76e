//! The run of a document for clients, in threads.

ghost use Rattle.std.specs.Prelude.{◌≡◌, ◌≤◌, IfOk, length};
ghost use Rattle.std.specs.List.{AllByRecursion};
ghost use Rattle.ind_disk.specs.Bay.{IsEmpty};
ghost use Rattle.run_model.specs.Sound.{IsSettled};
ghost use Rattle.scenario_text.specs.WellFormed.{ClientsFit};
ghost use Rattle.request_workers.specs.Serving.{AreServed};
ghost use Rattle.request_workers.specs.Taking.{HasRun};

use crate::closing::{finish_all, take_all};
use crate::desks::{open_all, part_all};
use crate::disks::{disks_of, give_back};
use batch_storage::{Journaled, Storage};
use client_runs::served_is_legal;
use client_workers::{rooms_of, turns_are_few, workers_of};
use desk_workers::{Gate, serve_all};
use ind_base::{List as Items, NoMemory};
use ind_disk::Bay;
use local_runs::alone_is_counted;
use replica_wires::Web;
use rights_journal::Journal;
use run_model::History;
use scenario_text::{ClientAsk, StopLine};
use spec_model::Setup;
use std::alloc::Global;
use std::sync::Wait;
use std::thread::Threads;

/// The work of clients: how many turns each courier has, at which replica each client is at home, and
/// what they ask.
#[derive(Clone, Copy)]
pub struct Clients<'a> {
    pub turns: u32,
    pub homes: &'a [u32],
    pub asked: &'a [ClientAsk],
}

/// Serves clients over these disks, one for each replica: what the replicas did, and their disks.
fn serve_over<R: Threads + Wait + Sync, S: Storage<D: Send> + Drop + Send, G: Gate + Sync>(
    rt: &R,
    alloc: Global,
    setup: &Setup,
    clients: Clients<'_>,
    disks: Vec<S::D>,
    gate: &G,
) -> Result<(Items<History>, Vec<S::D>), NoMemory>
    requires settled { IsSettled setup.now }
    requires few { setup.now.replicas ≤ 8 }
    requires fit { ClientsFit setup.now.spec setup.now.replicas clients.turns clients.homes.now clients.asked.now }
    requires whole { length disks.items ≡ setup.now.replicas }
    requires empty { AllByRecursion (λ d. IsEmpty (S.D.standing d) (S.D.may_leave d)) disks.items }
    ensures { IfOk result (λ ended. HasRun S.D.standing S.comes_back setup.now (record { turns = clients.entry.turns; homes = clients.entry.homes.now; asked = clients.entry.asked.now }) disks.items ended.0 ended.1.items) }
{
    alone_is_counted();
    turns_are_few();
    let rooms = rooms_of(alloc, setup.replicas, clients.turns)?;
    let (web, passes) = Web::begin(alloc, setup.replicas, rooms.as_slice())?;
    let nodes = open_all::<S, R>(rt, alloc, setup, &web, disks, passes)?;
    let workers = workers_of(
        alloc,
        setup.replicas,
        clients.turns,
        clients.homes,
        clients.asked,
    )?;
    let nodes = serve_all(rt, alloc, nodes, workers, gate)?;
    let (mut stills, passes) = part_all(alloc, nodes)?;
    let left = web.settle(rt, alloc, passes)?;
    take_all(alloc, setup, &mut stills, left)?;
    finish_all(alloc, setup, stills)
}

/// Serves clients: each client with requests, and each courier with turns, in a thread of its own.
/// The replicas run over disks of the bay, each of which stops where the lines name it, and share
/// nothing but links. When all threads have ended each replica takes what was left on the links to it.
/// What each did, and how it stands then; the disks go back to the bay.
pub fn serve<R: Threads + Wait + Sync, B: Bay<D: Send>, G: Gate + Sync>(
    rt: &R,
    alloc: Global,
    setup: &Setup,
    lines: &[StopLine],
    clients: Clients<'_>,
    bay: &mut B,
    gate: &G,
) -> Result<Items<History>, NoMemory>
    requires settled { IsSettled setup.now }
    requires few { setup.now.replicas ≤ 8 }
    requires fit { ClientsFit setup.now.spec setup.now.replicas clients.turns clients.homes.now clients.asked.now }
    ensures legal { IfOk result (λ histories. AreServed setup.now (record { turns = clients.entry.turns; homes = clients.entry.homes.now; asked = clients.entry.asked.now }) lines.now histories
        (record { tells = B.tells bay.old; given_before = B.given bay.old; given_after = B.given bay.new; left_before = B.left bay.old; left_after = B.left bay.new })) }
    ensures tells { IfOk result (λ histories. B.tells bay.new ≡ B.tells bay.old) }
{
    served_is_legal();
    let disks = disks_of(alloc, setup.replicas, lines, bay)?;
    let (histories, disks) = serve_over::<R, Journaled<Journal<B::D>>, G>(
        rt, alloc, setup, clients, disks, gate,
    )?;
    give_back(bay, disks);
    Ok(histories)
}

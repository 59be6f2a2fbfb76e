//! The workers of a run: one for each client, and one for each replica's courier.

ghost use Rattle.std.specs.Prelude.{◌≡◌, ◌<◌, ◌≤◌, ◌++◌, ℕ, IfOk, OnOk, All, length};
ghost use Rattle.std.specs.List.{AllByRecursion};
ghost use Rattle.spec_model.specs.declared.plan.Setup.{Setup};
ghost use Rattle.scenario_text.specs.WellFormed.{AskFits};
ghost use Rattle.client_asks.specs.Asking.{turns_at};
ghost use Rattle.desk_workers.specs.Workers.{lists_at};
ghost use Rattle.client_workers.specs.Workers.{MayAsk, all_workers, clients_from, first_couriers};

use client_asks::{asks_by, courier_asks};
use desk_workers::Worker;
use ind_base::{List, NoMemory};
use run_model::Ask;
use scenario_text::ClientAsk;
use std::alloc::Global;

/// Adds a worker for each client, in order of the clients.
fn add_clients(
    alloc: Global,
    workers: &mut List<Worker<Ask>>,
    homes: &[u32],
    asked: &[ClientAsk],
) -> Result<(), NoMemory>
    requires few { length homes.now ≤ 32 }
    ensures { OnOk result (workers.new ≡ workers.old ++ clients_from 0 homes.now asked.now) }
{
    let mut client = 0;
    for home in homes {
        let asks = asks_by(alloc, client, asked)?;
        workers.push(Worker {
            desk: *home,
            client: Some(client),
            asks,
        })?;
        client += 1;
    }
    Ok(())
}

/// Adds a worker for each replica's courier, in order of the replicas.
fn add_couriers(
    alloc: Global,
    workers: &mut List<Worker<Ask>>,
    replicas: u32,
    turns: u32,
) -> Result<(), NoMemory>
    requires few { replicas ≤ 8 }
    ensures { OnOk result (workers.new ≡ workers.old ++ first_couriers replicas turns replicas) }
{
    for me in 0..replicas {
        let asks = courier_asks(alloc, replicas, me, turns)?;
        workers.push(Worker {
            desk: me,
            client: None,
            asks,
        })?;
    }
    Ok(())
}

/// A worker for each client, at the desk of its home, and then one for each replica's courier, which is
/// no client. So the workers at each desk have the turns of that replica.
pub fn workers_of(
    alloc: Global,
    replicas: u32,
    turns: u32,
    homes: &[u32],
    asked: &[ClientAsk],
) -> Result<List<Worker<Ask>>, NoMemory>
    requires few { replicas ≤ 8 }
    requires few_homes { length homes.now ≤ 32 }
    requires homes { AllByRecursion (λ home. home < replicas) homes.now }
    ensures workers { IfOk result (λ workers. workers ≡ all_workers replicas turns homes.now asked.now) }
    ensures turns { IfOk result (λ workers. (me : ℕ) → me < replicas → lists_at me workers ≡ turns_at replicas (record { turns = turns; homes = homes.now; asked = asked.now }) me) }
    ensures desks { IfOk result (λ workers. All (λ w. w.desk < replicas) workers) }
    ensures fit { IfOk result (λ workers. (setup : Setup) → setup.replicas ≡ replicas → AllByRecursion (AskFits setup.spec (length homes.now)) asked.now → All (λ w. All (MayAsk setup w.desk) w.asks) workers) }
{
    let mut workers = List::new(alloc);
    add_clients(alloc, &mut workers, homes, asked)?;
    add_couriers(alloc, &mut workers, replicas, turns)?;
    Ok(workers)
}

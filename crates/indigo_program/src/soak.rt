//! The run of the document that follows a seed.

ghost use Rattle.std.specs.Prelude.{◌≡◌, ◌≤◌, [], List, ℕ, IfOk};
ghost use Rattle.run_model.specs.Sound.{IsSettled};
ghost use Rattle.scenario_text.specs.WellFormed.{IsWellFormedDocument, ScheduleFits};
ghost use Rattle.spec_model.specs.Fits.{IsWellFormed};
ghost use Rattle.soak_documents.specs.Generating.{generated, schedule_of};
ghost use Rattle.soak_documents.specs.Stock.{stock_spec};
ghost use Rattle.soak_documents.specs.Summary.{soak_text};
ghost use Rattle.indigo_program.specs.Headline.{IsLegalTrace, IsSoaked};

use ind_base::{List as Items, NoMemory};
use ind_disk::Bay;
use plan_answers::{Analysis, analyse};
use request_workers::simulate;
use run_model::Order;
use run_trace::merge;
use scenario_text::{Document, StopLine, Work};
use soak_documents::{generate, put_summary};
use spec_model::{Setup, Spec};
use std::alloc::Global;

/// The summary of replicas on the schedule of a seed, over disks of the bay.
fn summary<B: Bay>(
    alloc: Global,
    setup: &Setup,
    stops: &[StopLine],
    orders: &[Order],
    seed: u64,
    bay: &mut B,
) -> Result<Items<u8>, NoMemory>
    requires settled { IsSettled setup.now }
    requires few { setup.now.replicas ≤ 8 }
    requires schedule { ScheduleFits setup.now.spec setup.now.replicas orders.now }
    ensures { IfOk result (λ text. (trace : List ℕ) × (run : IsLegalTrace setup.now stops.now orders.now trace
        (record { tells = B.tells bay.old; given_before = B.given bay.old; given_after = B.given bay.new; left_before = B.left bay.old; left_after = B.left bay.new }))
        × (text ≡ soak_text seed run.entries)) }
{
    let histories = simulate(alloc, setup, stops, orders, bay)?;
    let entries = merge(alloc, histories.as_slice())?;
    let mut text = Items::new(alloc);
    put_summary(&mut text, seed, entries.as_slice())?;
    Ok(text)
}

/// Runs the generated specification's replicas on the schedule of a seed by the derived plan, and
/// makes the summary of the run.
fn planned<B: Bay>(
    alloc: Global,
    spec: Spec,
    replicas: u32,
    stops: &[StopLine],
    orders: &[Order],
    seed: u64,
    bay: &mut B,
) -> Result<Items<u8>, NoMemory>
    requires well_formed { IsWellFormed spec }
    requires schedule { ScheduleFits spec replicas orders.now }
    requires stock { spec ≡ stock_spec }
    requires four { replicas ≡ 4 }
    requires no_stops { stops.now ≡ [] }
    requires of_seed { orders.now ≡ schedule_of seed }
    ensures { IfOk result (λ text. IsSoaked seed text
        (record { tells = B.tells bay.old; given_before = B.given bay.old; given_after = B.given bay.new; left_before = B.left bay.old; left_after = B.left bay.new })) }
{
    let plan = match analyse(alloc, &spec)? {
        Analysis::Planned(analysed) => analysed.plan,
        Analysis::Planless(_) => unreachable!(),
    };
    let setup = Setup {
        spec,
        plan,
        replicas,
    };
    summary(alloc, &setup, stops, orders, seed, bay)
}

/// Runs a generated document.
fn run_generated<B: Bay>(
    alloc: Global,
    document: Document,
    seed: u64,
    bay: &mut B,
) -> Result<Items<u8>, NoMemory>
    requires formed { IsWellFormedDocument document }
    requires of_seed { document ≡ generated seed }
    ensures { IfOk result (λ text. IsSoaked seed text
        (record { tells = B.tells bay.old; given_before = B.given bay.old; given_after = B.given bay.new; left_before = B.left bay.old; left_after = B.left bay.new })) }
{
    let Document {
        spec,
        replicas,
        stops,
        work,
    } = document;
    match work {
        Work::Clients { .. } => unreachable!(),
        Work::Schedule(orders) => planned(
            alloc,
            spec,
            replicas,
            stops.as_slice(),
            orders.as_slice(),
            seed,
            bay,
        ),
    }
}

/// Runs the document of a seed by its derived plan, and makes the summary of the run.
pub(crate) fn soaked<B: Bay>(alloc: Global, seed: u64, bay: &mut B) -> Result<Items<u8>, NoMemory>
    ensures { IfOk result (λ text. IsSoaked seed text
        (record { tells = B.tells bay.old; given_before = B.given bay.old; given_after = B.given bay.new; left_before = B.left bay.old; left_after = B.left bay.new })) }
{
    let document = generate(alloc, seed)?;
    run_generated(alloc, document, seed, bay)
}

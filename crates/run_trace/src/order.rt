//! The entries of several replicas in one order.

ghost use Rattle.std.specs.Prelude.{◌≡◌, ◌≢◌, map, IfOk, MatchBool};
ghost use Rattle.run_model.specs.Runs.{Precedes, InOrder};
ghost use Rattle.run_trace.specs.Merging.{AreApart, AreHistories, IsMerged, Merges};

use ind_base::{List, NoMemory};
use run_model::{History, StepEntry, push_entry};
use std::alloc::Global;

fn comes_first(a: &StepEntry, b: &StepEntry) -> bool
    ensures { MatchBool result (Precedes a.now b.now) (a.now.replica ≢ b.now.replica → Precedes b.now a.now) }
{
    a.stamp < b.stamp || (a.stamp == b.stamp && a.replica < b.replica)
}

/// Each of the entries, where it stands.
fn each_of<'a>(alloc: Global, entries: &'a [StepEntry]) -> Result<Vec<&'a StepEntry>, NoMemory>
    ensures { IfOk result (λ all. map (λ e. e.now) all.items ≡ entries.now) }
{
    let mut all = Vec::with_capacity(alloc, entries.len())?;
    for entry in entries {
        all.push(entry)?;
    }
    Ok(all)
}

/// The entries of both, by stamp and then replica.
fn merge_two<'a>(
    alloc: Global,
    a: &[&'a StepEntry],
    b: &[&'a StepEntry],
) -> Result<Vec<&'a StepEntry>, NoMemory>
    requires a_in_order { InOrder (map (λ e. e.now) a.now) }
    requires b_in_order { InOrder (map (λ e. e.now) b.now) }
    requires apart { AreApart (map (λ e. e.now) a.now) (map (λ e. e.now) b.now) }
    ensures merged { IfOk result (λ c. Merges (map (λ e. e.now) a.now) (map (λ e. e.now) b.now) (map (λ e. e.now) c.items)) }
    ensures in_order { IfOk result (λ c. InOrder (map (λ e. e.now) c.items)) }
{
    let mut out = Vec::with_capacity(alloc, a.len().saturating_add(b.len()))?;
    let mut from_a = 0;
    let mut from_b = 0;
    'joining: while from_a < a.len() && from_b < b.len() {
        let x = a[from_a];
        let y = b[from_b];
        if comes_first(x, y) {
            out.push(x)?;
            from_a += 1;
        } else {
            out.push(y)?;
            from_b += 1;
        }
    }
    out.extend_from_slice(a.split_at(from_a).1)?;
    out.extend_from_slice(b.split_at(from_b).1)?;
    Ok(out)
}

/// The entries of all histories where they stand, by stamp and then replica. The history at a place
/// is that of the replica with this number.
pub(crate) fn in_order<'a>(
    alloc: Global,
    histories: &'a [History],
) -> Result<Vec<&'a StepEntry>, NoMemory>
    requires { AreHistories histories.now }
    ensures { IfOk result (λ entries. IsMerged histories.now (map (λ e. e.now) entries.items)) }
{
    let mut entries: Vec<&'a StepEntry> = Vec::new(alloc);
    for history in histories {
        let own = each_of(alloc, history.entries.as_slice())?;
        entries = merge_two(alloc, entries.as_slice(), own.as_slice())?;
    }
    Ok(entries)
}

/// Copies of entries.
fn copies(alloc: Global, entries: &[&StepEntry]) -> Result<List<StepEntry>, NoMemory>
    ensures { IfOk result (λ all. all ≡ map (λ e. e.now) entries.now) }
{
    let mut all = List::from_vec(Vec::with_capacity(alloc, entries.len())?);
    for entry in entries {
        push_entry(&mut all, entry.copy(alloc)?)?;
    }
    Ok(all)
}

/// The entries of all histories, by stamp and then replica. The history at a place is that of the
/// replica with this number.
pub fn merge(alloc: Global, histories: &[History]) -> Result<List<StepEntry>, NoMemory>
    requires { AreHistories histories.now }
    ensures { IfOk result (λ entries. IsMerged histories.now entries) }
{
    let entries = in_order(alloc, histories)?;
    copies(alloc, entries.as_slice())
}

//! The text of a trace.

ghost use Rattle.std.specs.Prelude.{◌≡◌, ◌<◌, ◌^◌, ◌++◌, IfOk, length, map};
ghost use Rattle.std.specs.List.{flat_map};
ghost use Rattle.run_model.specs.Trace as trace;
ghost use Rattle.run_trace.specs.Merging.{AreHistories, IsMerged};

use crate::entry::put_entries;
use crate::last::put_lasts;
use crate::order::in_order;
use ind_base::{List, NoMemory};
use run_model::History;
use spec_model::Spec;
use std::alloc::Global;

/// The trace of these histories: a line for each step, by stamp and then replica, and behind them
/// the last state of each replica. The history at a place is that of the replica with this number.
pub fn trace_text(alloc: Global, spec: &Spec, histories: &[History]) -> Result<List<u8>, NoMemory>
    requires histories { AreHistories histories.now }
    requires few { length histories.now < 2 ^ 32 }
    ensures { IfOk result (λ text. (entries : _) × IsMerged histories.now entries
        × (text ≡ flat_map (trace.entry_text spec.now) entries ++ trace.lasts_text spec.now 0 (map (λ h. h.last) histories.now))) }
{
    let entries = in_order(alloc, histories)?;
    let mut text = List::new(alloc);
    put_entries(&mut text, spec, entries.as_slice())?;
    put_lasts(&mut text, spec, histories)?;
    Ok(text)
}

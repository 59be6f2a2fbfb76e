//! The summary of a run of a generated document.

ghost use Rattle.std.specs.Prelude.{◌≡◌, ◌≤◌, ◌++◌, length, OnOk};
ghost use Rattle.soak_documents.specs.Summary as summary;

use crate::totals::{Totals, of_entries};
use ind_base::{List, NoMemory, put_num};
use run_model::StepEntry;

fn put_number_line(out: &mut List<u8>, word: &[u8], n: u64) -> Result<(), NoMemory>
    ensures { OnOk result (out.new ≡ out.old ++ summary.number_line word.now n) }
{
    out.extend(word)?;
    out.extend(b" ")?;
    put_num(out, n)?;
    out.extend(b"\n")
}

fn put_totals(out: &mut List<u8>, t: Totals) -> Result<(), NoMemory>
    ensures { OnOk result (out.new ≡ out.old ++ summary.totals_text t) }
{
    put_number_line(out, b"done", t.done)?;
    put_number_line(out, b"short", t.short)?;
    put_number_line(out, b"breaks", t.breaks)?;
    put_number_line(out, b"down", t.down)?;
    put_number_line(out, b"applied", t.applied)?;
    put_number_line(out, b"accepted", t.accepted)?;
    put_number_line(out, b"gave", t.gave)
}

/// Appends the summary of a run of the document of a seed, over the entries of all replicas.
pub fn put_summary(out: &mut List<u8>, seed: u64, entries: &[StepEntry]) -> Result<(), NoMemory>
    requires { length entries.now ≤ 100000 }
    ensures { OnOk result (out.new ≡ out.old ++ summary.soak_text seed entries.now) }
{
    put_number_line(out, b"soak", seed)?;
    put_number_line(out, b"steps", 20_000)?;
    put_totals(out, of_entries(entries))
}

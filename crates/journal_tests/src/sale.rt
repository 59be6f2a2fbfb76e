//! A shop's first sale, and a journal that takes it.

ghost use Rattle.std.specs.Prelude.{IfOk};
ghost use Rattle.ind_disk.specs.Disk.{Only};
ghost use Rattle.ind_disk.specs.Calls.{Leaves};
ghost use Rattle.ind_disk.specs.Memory.{told};
ghost use Rattle.op_records.specs.Spelling.{IsBatch, IsItem};

use ind_base::{Cut, List, NoMemory, Spans};
use ind_disk::MemDisk;
use rights_journal::Journal;
use run_model::Batch;
use spec_model::{Body, Inst, LogItem};
use std::alloc::Global;

/// Item 0 of replica 0, of two replicas, with nothing in its past: operation 0.
fn sale_item() -> LogItem
    ensures { IsItem 2 result }
{
    let mut deps = Cut::new();
    deps.push(0);
    deps.push(0);
    LogItem {
        origin: 0,
        index: 0,
        deps,
        body: Body::Act(Inst {
            op: 0,
            args: Spans::new(),
        }),
    }
}

/// The batch of that item.
pub fn first_sale(alloc: Global) -> Result<Batch, NoMemory>
    ensures { IfOk result (λ b. IsBatch 2 b.items) }
{
    let items = List::from_slice(alloc, &[sale_item()])?;
    Ok(Batch { items })
}

/// The disk after a start and, where that went well, an append of the first sale.
pub fn sell(alloc: Global, disk: MemDisk) -> Result<MemDisk, NoMemory>
    requires { Only (told disk).bytes (Leaves disk.tape.calls) }
{
    let sale = first_sale(alloc)?;
    match Journal::<MemDisk>::start(alloc, disk, 2, &[]) {
        Ok(started) => {
            let mut journal = started.journal;
            let _went = journal.append(alloc, &sale);
            Ok(journal.into_disk())
        }
        Err(failed) => Ok(failed.disk),
    }
}

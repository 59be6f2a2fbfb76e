//! Laws of nodes, for callers to cite.

ghost use Rattle.replica_node.specs.Laws.{ClosedIsOneRun};

use local_runs::alone_is_together;

/// The histories of replicas whose links were settled are one run.
pub fn closed_is_one_run()
    ensures { ClosedIsOneRun }
{
    alone_is_together();
}

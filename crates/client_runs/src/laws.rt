//! Laws of runs of clients, for callers to cite.

ghost use Rattle.client_runs.specs.Laws.{ServedIsLegal};

use local_runs::{alone_is_counted, alone_is_in_order, alone_is_numbered};
use replica_node::closed_is_one_run;
use run_model::{finals_agree, runs_are_sound};

/// What replicas served by themselves, whose links were settled, is one legal run of their clients.
pub fn served_is_legal()
    ensures { ServedIsLegal }
{
    alone_is_counted();
    alone_is_numbered();
    alone_is_in_order();
    closed_is_one_run();
    runs_are_sound();
    finals_agree();
}

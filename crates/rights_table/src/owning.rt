//! The next item of the own log.

ghost use Rattle.std.specs.Prelude.{◌≡◌, ◌<◌, ◌^◌, [], ◌∷◌, ◌++◌, ℕ, Some, true, List as Sequence, OnOk};
ghost use Rattle.std.specs.List.{AllByRecursion};
ghost use Rattle.spec_model.specs.declared.log.LogItem.{LogItem as LogItemOf};
ghost use Rattle.run_model.specs.Fitting.{BodyFits, NeedFits, PieceFits, SetupFits};
ghost use Rattle.spec_model.specs.Fits.{IsWellFormed};
ghost use Rattle.run_model.specs.Allowed.{span_given};
ghost use Rattle.run_model.specs.Logs.{Logs as AllLogs, item_at};
ghost use Rattle.run_model.specs.Passing.{can_accept};
ghost use Rattle.spec_model.specs.declared.log.Body.TheVariants as body_of;
ghost use Rattle.spec_model.specs.declared.right.Right.{Right as RightOf};
ghost use Rattle.spec_model.specs.declared.right.Piece.{Piece as PieceOf};

use crate::table::Table;
use ind_base::NoMemory;
use spec_model::{Body, LogItem, Need, Setup};

/// How many replicas there are, which a number of 32 bits counts.
fn few_replicas(setup: &Setup) -> u64
    ensures value { result ≡ setup.now.replicas }
    ensures few { result < 2 ^ 32 }
{
    u64::from(setup.replicas)
}

impl Table {
    ghost use Rattle.rights_table.specs.Tables.{IsEntered, IsTable, KeepsEntries, TellTheSame, held_in, replicas_of};
    ghost use Rattle.rights_table.specs.Whole.{HasAll, HasEntriesFor, HasEntryFor, MayOwn};

    /// Makes room for what these items touch, where an act among those of the own log has these
    /// needs, so that logging them takes no memory. All that is told stays.
    pub fn ready(
        &mut self,
        setup: &Setup,
        items: &[LogItem],
        needs: &[Need],
    ) -> Result<(), NoMemory>
        requires setup { SetupFits setup.now }
        requires replicas { replicas_of self.old ≡ setup.now.replicas }
        requires items { AllByRecursion (λ item. BodyFits setup.now item.body) items.now }
        requires needs { AllByRecursion (NeedFits setup.now) needs.now }
        ensures same { TellTheSame setup.now self.old self.new }
        ensures all { (logs : AllLogs) (me : ℕ) (own : Sequence LogItemOf) → HasAll setup.now logs me own self.old → HasAll setup.now logs me own self.new }
        ensures ready { OnOk result (HasEntriesFor setup.now items.now needs.now self.new) }
        ensures kept { KeepsEntries self.old self.new }
    {
        self.ready_items(setup, items)?;
        self.ready_needs(setup, needs)
    }

    /// Accepts what an Out gives.
    fn accept_of(&mut self, setup: &Setup, out: &Body)
        requires replicas { replicas_of self.old ≡ setup.now.replicas }
        requires entered { (to : ℕ) (r : RightOf) (piece : PieceOf) → out.now ≡ body_of.Out to r piece → IsEntered self.old r }
        requires well_formed { IsWellFormed setup.now.spec }
        requires joins { (to : ℕ) × (r : RightOf) × (piece : PieceOf) × (out.now ≡ body_of.Out to r piece) × PieceFits setup.now r piece × (can_accept setup.now.replicas (held_in setup.now self.old r (span_given piece)) piece ≡ true) }
        ensures accepted { (logs : AllLogs) (me : ℕ) (own : Sequence LogItemOf) (x item : LogItemOf) (from at : ℕ) → x.body ≡ body_of.Accept from at → item_at logs from at ≡ Some item → item.body ≡ out.now → IsTable setup.now logs me own (λ r. true) self.old → IsTable setup.now logs me (own ++ x ∷ []) (λ r. true) self.new }
        ensures kept { KeepsEntries self.old self.new }
    {
        match out {
            Body::Out { right, piece, .. } => self.accept(setup, right, piece),
            _ => unreachable!(),
        }
    }

    /// Does what the next item of the own log does to what is held. `of` is the body of the item
    /// that an Accept takes, and `needs` are those of an act.
    pub fn own(&mut self, setup: &Setup, body: &Body, of: Option<Body>, needs: &[Need])
        requires setup { SetupFits setup.now }
        requires ready { HasEntryFor setup.now body.now of needs.now self.old }
        requires may { (logs : AllLogs) × (me : ℕ) × (own : Sequence LogItemOf) × (x : LogItemOf) × (x.body ≡ body.now) × HasAll setup.now logs me own self.old × MayOwn setup.now logs me own x of needs.now }
        ensures owned { (logs : AllLogs) (me : ℕ) (own : Sequence LogItemOf) (x : LogItemOf) → x.body ≡ body.now → HasAll setup.now logs me own self.old → MayOwn setup.now logs me own x of needs.now → HasAll setup.now logs me (own ++ x ∷ []) self.new }
        ensures kept { KeepsEntries self.old self.new }
    {
        match body {
            Body::Act(inst) => self.act(setup, inst, needs),
            Body::Out { right, piece, .. } => self.give(setup, right, piece),
            Body::Accept { .. } => match of {
                Some(out) => {
                    few_replicas(setup);
                    self.accept_of(setup, &out)
                }
                None => unreachable!(),
            },
        }
    }
}

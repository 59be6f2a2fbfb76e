//! Acts in the own log.

ghost use Rattle.std.specs.Prelude.{◌≡◌, ◌+◌, ◌<◌, ◌≤◌, ◌^◌, ◌++◌, ◌∷◌, [], ℕ, true, List as Sequence};
ghost use Rattle.spec_model.specs.Fits.{IsWellFormed};
ghost use Rattle.spec_model.specs.Changes.{effect_lines};
ghost use Rattle.spec_model.specs.Needs.{spends};
ghost use Rattle.spec_model.specs.declared.log.Body.TheVariants as body;
ghost use Rattle.spec_model.specs.declared.log.LogItem.{LogItem as LogItemOf};
ghost use Rattle.spec_model.specs.declared.right.Right.{Right as RightOf};
ghost use Rattle.run_model.specs.Holding.{needs_in};
ghost use Rattle.run_model.specs.Logs.{Logs as AllLogs};

use crate::table::Table;
use spec_model::{Inst, Need, Setup};

impl Table {
    ghost use Rattle.rights_table.specs.Acting.{AreEntered, AreOnShares};
    ghost use Rattle.rights_table.specs.Cells.{AreCellsEntered, all_gain};
    ghost use Rattle.rights_table.specs.Tables.{IsTable, KeepsEntries, count_in, replicas_of};

    /// Does an act, whose needs are all given: what is held with the act more in the own log. Needs
    /// on levels set modes where all shares are held, a witness that of the literal that is met.
    pub fn act(&mut self, setup: &Setup, inst: &Inst, needs: &[Need])
        requires well_formed { IsWellFormed setup.now.spec }
        requires some { 0 < setup.now.replicas }
        requires replicas { replicas_of self.old ≡ setup.now.replicas }
        requires shared { AreOnShares needs.now }
        requires entered { AreEntered setup.now self.old needs.now }
        requires cells { AreCellsEntered setup.now.spec inst.now (effect_lines setup.now.spec inst.now) self.old }
        requires small { (q : RightOf) → count_in setup.now self.old q + all_gain setup.now.spec inst.now q < 2 ^ 64 }
        requires held { (q : RightOf) → spends setup.now.spec inst.now q ≤ count_in setup.now self.old q }
        ensures acted { (logs : AllLogs) (me : ℕ) (own : Sequence LogItemOf) (x : LogItemOf) → x.body ≡ body.Act inst.now → needs.now ≡ needs_in setup.now logs x.deps inst.now → IsTable setup.now logs me own (λ r. true) self.old → IsTable setup.now logs me (own ++ x ∷ []) (λ r. true) self.new }
        ensures kept { KeepsEntries self.old self.new }
    {
        self.set_modes(setup, needs);
        self.move_cells(setup, inst);
    }
}

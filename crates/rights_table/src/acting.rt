//! What an act does to the modes of shares.

ghost use Rattle.std.specs.Prelude.{◌≡◌, ◌<◌, true, false, map, IfSome};
ghost use Rattle.std.specs.List.{AllByRecursion, find};
ghost use Rattle.std.specs.Option.{option_map, option_map_or};
ghost use Rattle.spec_model.specs.Fits.{IsWellFormed};
ghost use Rattle.spec_model.specs.declared.right.Need.{Need as NeedOf};
ghost use Rattle.spec_model.specs.declared.right.Right.{Right as RightOf};
ghost use Rattle.spec_model.specs.declared.right.Level.TheVariants as level_of;
ghost use Rattle.spec_model.specs.declared.right.Amount.TheVariants as amount;
ghost use Rattle.run_model.specs.Rights as rights;
ghost use Rattle.run_model.specs.Levels as levels;

use crate::step::Step;
use crate::table::Table;
use crate::told::at_literal;
use spec_model::{Amount, Level, Need, Right, Setup, WantAsk};

fn same_level(a: Level, b: Level) -> bool
    ensures { result ≡ levels.same_level a b }
{
    match (a, b) {
        (Level::Forbid, Level::Forbid) => true,
        (Level::Allow, Level::Allow) => true,
        (Level::Exclusive, Level::Exclusive) => true,
        _ => false,
    }
}

impl Table {
    ghost use Rattle.rights_table.specs.Tables.{IsEntered, replicas_of};
    ghost use Rattle.rights_table.specs.Acting.{ActsBy, AreEntered, AreOnShares, IsOnShares, SetsModes, is_it, shares_in};

    /// Whether what is held of a right permits a level.
    fn permits_level(&self, setup: &Setup, right: &Right, level: Level) -> bool
        requires well_formed { IsWellFormed setup.now.spec }
        requires some { 0 < setup.now.replicas }
        requires replicas { replicas_of self.now ≡ setup.now.replicas }
        requires shared { rights.is_shared right.now ≡ true }
        ensures { result ≡ levels.is_permitted setup.now.replicas (shares_in setup.now self.now) (record { right = right.now; amount = amount.Level level }) }
    {
        self.is_permitted(setup, right, &Amount::Level(level))
    }

    /// Of the entries of these literals of the right's instance the first that permits forbid.
    fn first_forbid(&self, setup: &Setup, right: &Right, literals: &[u32]) -> Option<Right>
        requires well_formed { IsWellFormed setup.now.spec }
        requires some { 0 < setup.now.replicas }
        requires replicas { replicas_of self.now ≡ setup.now.replicas }
        requires shared { rights.is_shared right.now ≡ true }
        ensures permitted { IfSome result (λ r. (rights.is_shared r ≡ true) × (levels.is_permitted setup.now.replicas (shares_in setup.now self.now) (record { right = r; amount = amount.Level level_of.Forbid }) ≡ true)) }
        ensures first { option_map (λ r. let n : NeedOf = record { right = r; amount = amount.Level level_of.Forbid } in n) result ≡ find (levels.is_permitted setup.now.replicas (shares_in setup.now self.now)) (map (levels.forbid_at right.now) literals.now) }
    {
        for literal in literals {
            let entry = at_literal(right, *literal);
            if self.permits_level(setup, &entry, Level::Forbid) {
                return Some(entry);
            }
        }
        None
    }

    /// The right on which an act with this need acts at a level.
    fn acted_on(&self, setup: &Setup, need: &Need, level: Level) -> Option<Right>
        requires well_formed { IsWellFormed setup.now.spec }
        requires some { 0 < setup.now.replicas }
        requires replicas { replicas_of self.now ≡ setup.now.replicas }
        requires shared { IsOnShares need.now.right need.now.amount }
        ensures permitted { IfSome result (λ r. (rights.is_shared r ≡ true) × (levels.is_permitted setup.now.replicas (shares_in setup.now self.now) (record { right = r; amount = amount.Level level }) ≡ true)) }
        ensures it { (q : RightOf) → is_it q result ≡ levels.acts_on setup.now.replicas (shares_in setup.now self.now) q level need.now }
    {
        match &need.amount {
            Amount::Level(needed) => {
                if same_level(*needed, level) && self.permits_level(setup, &need.right, level) {
                    Some(need.right)
                } else {
                    None
                }
            }
            Amount::AnyForbid(literals) => {
                if same_level(Level::Forbid, level) {
                    self.first_forbid(setup, &need.right, literals.as_slice())
                } else {
                    None
                }
            }
            _ => None,
        }
    }

    /// Acts at a level of a right that permits it.
    fn act_at(&mut self, setup: &Setup, right: &Right, level: Level)
        requires entered { IsEntered self.old right.now }
        requires replicas { replicas_of self.old ≡ setup.now.replicas }
        requires shared { rights.is_shared right.now ≡ true }
        requires permitted { levels.is_permitted setup.now.replicas (shares_in setup.now self.old) (record { right = right.now; amount = amount.Level level }) ≡ true }
        ensures { ActsBy setup.now level (λ q. rights.same_right right.now q) self.old self.new }
    {
        self.change(right, &Step::Spend(WantAsk::Level(level)));
    }

    /// Does what a need does to the mode of a right at a level.
    fn act_on(&mut self, setup: &Setup, need: &Need, level: Level)
        requires well_formed { IsWellFormed setup.now.spec }
        requires some { 0 < setup.now.replicas }
        requires replicas { replicas_of self.old ≡ setup.now.replicas }
        requires shared { IsOnShares need.now.right need.now.amount }
        requires entered { (q : RightOf) → levels.acts_on setup.now.replicas (shares_in setup.now self.old) q level need.now ≡ true → IsEntered self.old q }
        ensures { ActsBy setup.now level (λ q. levels.acts_on setup.now.replicas (shares_in setup.now self.old) q level need.now) self.old self.new }
    {
        match self.acted_on(setup, need, level) {
            Some(right) => self.act_at(setup, &right, level),
            None => {}
        }
    }

    /// Does what needs do to modes at a level.
    fn act_at_level(&mut self, setup: &Setup, needs: &[Need], level: Level)
        requires well_formed { IsWellFormed setup.now.spec }
        requires some { 0 < setup.now.replicas }
        requires replicas { replicas_of self.old ≡ setup.now.replicas }
        requires shared { AreOnShares needs.now }
        requires entered { (q : RightOf) → levels.acts_at setup.now.replicas (shares_in setup.now self.old) needs.now q level ≡ true → IsEntered self.old q }
        ensures { ActsBy setup.now level (λ q. levels.acts_at setup.now.replicas (shares_in setup.now self.old) needs.now q level) self.old self.new }
    {
        for need in needs {
            self.act_on(setup, need, level);
        }
    }

    /// Does what the needs of an act do to modes. Where one right is acted on at two levels forbid
    /// goes last.
    pub(crate) fn set_modes(&mut self, setup: &Setup, needs: &[Need])
        requires well_formed { IsWellFormed setup.now.spec }
        requires some { 0 < setup.now.replicas }
        requires replicas { replicas_of self.old ≡ setup.now.replicas }
        requires shared { AreOnShares needs.now }
        requires entered { AreEntered setup.now self.old needs.now }
        ensures { SetsModes setup.now needs.now self.old self.new }
    {
        self.act_at_level(setup, needs, Level::Allow);
        self.act_at_level(setup, needs, Level::Forbid);
    }
}

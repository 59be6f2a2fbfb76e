//! What a table tells, and which needs it meets.

ghost use Rattle.std.specs.Prelude.{◌≡◌, ◌<◌, map, IfSome, IfNone, None, Some};
ghost use Rattle.std.specs.List.{list_any};
ghost use Rattle.std.specs.Option.{option_copied, option_map};
ghost use Rattle.spec_model.specs.Fits.{IsWellFormed};
ghost use Rattle.run_model.specs.Holding as holding;
ghost use Rattle.run_model.specs.Levels as levels;
ghost use Rattle.rights_table.specs.Lacks.{lacking_of};

use crate::first::first_told;
use crate::table::Table;
use ind_base::Span;
use multilevel_locks::mode_permits;
use spec_model::{Amount, Held, Level, Need, Right, Setup};

/// Whether what is held permits an amount, where so many are all shares.
fn permits(all: u32, held: &Held, amount: &Amount) -> bool
    ensures { result ≡ levels.permits all held.now amount.now }
{
    match (held, amount) {
        (Held::Count(have), Amount::Count(n)) => *n <= *have,
        (Held::Shares { shares, mode }, Amount::Level(level)) => {
            *shares == all || (*shares > 0 && mode_permits(*mode, *level))
        }
        (Held::Points { missing, .. }, Amount::Points(_)) => missing.is_none(),
        _ => false,
    }
}

/// The points of an amount.
fn span_in(amount: &Amount) -> Span
    ensures { result ≡ holding.span_in amount.now }
{
    match amount {
        Amount::Points(span) => *span,
        _ => Span { lo: 1, hi: 0 },
    }
}

/// The entry of another literal of the right's instance.
pub(crate) fn at_literal(right: &Right, literal: u32) -> Right
    ensures { result ≡ levels.at_literal right.now literal }
{
    match right {
        Right::Entry { clause, args, .. } => Right::Entry {
            clause: *clause,
            args: *args,
            literal,
        },
        _ => *right,
    }
}

impl Table {
    ghost use Rattle.std.specs.Prelude.{List as Sequence};
    ghost use Rattle.spec_model.specs.declared.log.LogItem.{LogItem as LogItemOf};
    ghost use Rattle.spec_model.specs.declared.right.Right.{Right as RightOf};
    ghost use Rattle.run_model.specs.Logs.{Logs as AllLogs};
    ghost use Rattle.rights_table.specs.Tables.{IsTable, held_in, holding_in, replicas_of};

    /// What is held of a right, of points those of a span.
    pub(crate) fn held_of(&self, setup: &Setup, right: &Right, span: &Span) -> Held
        requires well_formed { IsWellFormed setup.now.spec }
        requires some { 0 < setup.now.replicas }
        requires replicas { replicas_of self.now ≡ setup.now.replicas }
        ensures { result ≡ held_in setup.now self.now right.now span.now }
    {
        match self.entry(right) {
            Some(holding) => holding.told(span),
            None => first_told(setup, self.me, right, span),
        }
    }

    /// Whether a right permits an amount.
    pub(crate) fn is_permitted(&self, setup: &Setup, right: &Right, amount: &Amount) -> bool
        requires well_formed { IsWellFormed setup.now.spec }
        requires some { 0 < setup.now.replicas }
        requires replicas { replicas_of self.now ≡ setup.now.replicas }
        ensures { result ≡ levels.is_permitted setup.now.replicas (holding_in setup.now self.now) (record { right = right.now; amount = amount.now }) }
    {
        match self.entry(right) {
            Some(holding) => holding.allows(setup.replicas, amount),
            None => {
                let held = first_told(setup, self.me, right, &span_in(amount));
                permits(setup.replicas, &held, amount)
            }
        }
    }

    /// Whether forbid is permitted on some of these literals of the right's instance.
    fn meets_any(&self, setup: &Setup, right: &Right, literals: &[u32]) -> bool
        requires well_formed { IsWellFormed setup.now.spec }
        requires some { 0 < setup.now.replicas }
        requires replicas { replicas_of self.now ≡ setup.now.replicas }
        ensures { result ≡ list_any (levels.is_permitted setup.now.replicas (holding_in setup.now self.now)) (map (levels.forbid_at right.now) literals.now) }
    {
        for literal in literals {
            let entry = at_literal(right, *literal);
            if self.is_permitted(setup, &entry, &Amount::Level(Level::Forbid)) {
                return true;
            }
        }
        false
    }

    /// Whether what is held meets a need.
    pub fn is_met(&self, setup: &Setup, need: &Need) -> bool
        requires well_formed { IsWellFormed setup.now.spec }
        requires some { 0 < setup.now.replicas }
        requires replicas { replicas_of self.now ≡ setup.now.replicas }
        ensures { result ≡ levels.is_met setup.now.replicas (holding_in setup.now self.now) need.now }
    {
        match &need.amount {
            Amount::AnyForbid(literals) => self.meets_any(setup, &need.right, literals.as_slice()),
            _ => self.is_permitted(setup, &need.right, &need.amount),
        }
    }

    /// What is held of a need's right; of a witness, of the entry of its first literal.
    pub fn held(&self, setup: &Setup, need: &Need) -> Held
        requires well_formed { IsWellFormed setup.now.spec }
        requires some { 0 < setup.now.replicas }
        requires replicas { replicas_of self.now ≡ setup.now.replicas }
        ensures { result ≡ holding_in setup.now self.now need.now }
    {
        self.held_of(setup, &need.right, &span_in(&need.amount))
    }

    /// The first need that isn't met; `None` where all are.
    pub fn first_lacking<'a>(&self, setup: &Setup, needs: &'a [Need]) -> Option<&'a Need>
        requires well_formed { IsWellFormed setup.now.spec }
        requires some { 0 < setup.now.replicas }
        requires replicas { replicas_of self.now ≡ setup.now.replicas }
        ensures { option_map (lacking_of (holding_in setup.now self.now)) (option_copied result) ≡ levels.first_lacking setup.now.replicas (holding_in setup.now self.now) needs.now }
    {
        for need in needs {
            if !self.is_met(setup, need) {
                return Some(need);
            }
        }
        None
    }
}

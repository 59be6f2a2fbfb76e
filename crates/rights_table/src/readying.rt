//! Room for what items and needs touch.

ghost use Rattle.std.specs.Prelude.{◌≡◌, ◌&&◌, [], false, is_ok};
ghost use Rattle.std.specs.List.{AllByRecursion, list_any};
ghost use Rattle.spec_model.specs.declared.right.Right.TheVariants as right_of;
ghost use Rattle.run_model.specs.Fitting.{BodyFits, NeedFits, SetupFits};
ghost use Rattle.run_model.specs.Rights as rights;
ghost use Rattle.run_model.specs.Rights.{same_right};
ghost use Rattle.rights_table.specs.Bounded as bounded;

use crate::moving::{has_lower, has_upper, lines_of};
use crate::table::Table;
use crate::told::at_literal;
use effect_model::cell_named;
use ind_base::NoMemory;
use spec_model::{Amount, Body, Cell, Inst, Line, LogItem, Need, Right, Setup};

/// Whether a right is held in shares.
fn is_shared(right: &Right) -> bool
    ensures { result ≡ rights.is_shared right.now }
{
    match right {
        Right::Lock { .. } => true,
        Right::Entry { .. } => true,
        _ => false,
    }
}

impl Table {
    ghost use Rattle.rights_table.specs.Cells.{line_moves};
    ghost use Rattle.rights_table.specs.Tables.{replicas_of};
    ghost use Rattle.rights_table.specs.Touched.{MakesRoom, body_touches, cell_touches, item_touches, literal_touches, need_touches, shared_touches};

    /// Makes room for a right.
    fn ready_right(&mut self, setup: &Setup, right: &Right) -> Result<(), NoMemory>
        requires setup { SetupFits setup.now }
        requires replicas { replicas_of self.old ≡ setup.now.replicas }
        ensures { MakesRoom setup.now (is_ok result) (same_right right.now) self.old self.new }
    {
        self.make_room(setup, right)
    }

    /// Makes room for the right to lower a cell, where it has a lower bound.
    fn ready_low(&mut self, setup: &Setup, cell: &Cell) -> Result<(), NoMemory>
        requires setup { SetupFits setup.now }
        requires replicas { replicas_of self.old ≡ setup.now.replicas }
        ensures { MakesRoom setup.now (is_ok result) (λ r. bounded.has_lower setup.now.spec cell.now.num && same_right (right_of.Low cell.now) r) self.old self.new }
    {
        if has_lower(&setup.spec, cell.num) {
            self.ready_right(setup, &Right::Low(*cell))
        } else {
            Ok(())
        }
    }

    /// Makes room for the right to raise a cell, where it has an upper bound.
    fn ready_high(&mut self, setup: &Setup, cell: &Cell) -> Result<(), NoMemory>
        requires setup { SetupFits setup.now }
        requires replicas { replicas_of self.old ≡ setup.now.replicas }
        ensures { MakesRoom setup.now (is_ok result) (λ r. bounded.has_upper setup.now.spec cell.now.num && same_right (right_of.High cell.now) r) self.old self.new }
    {
        if has_upper(&setup.spec, cell.num) {
            self.ready_right(setup, &Right::High(*cell))
        } else {
            Ok(())
        }
    }

    /// Makes room for the rights of a cell.
    fn ready_cell(&mut self, setup: &Setup, cell: &Cell) -> Result<(), NoMemory>
        requires setup { SetupFits setup.now }
        requires replicas { replicas_of self.old ≡ setup.now.replicas }
        ensures { MakesRoom setup.now (is_ok result) (cell_touches setup.now.spec cell.now) self.old self.new }
    {
        self.ready_low(setup, cell)?;
        self.ready_high(setup, cell)
    }

    /// Makes room for the rights that a line changes.
    fn ready_line(&mut self, setup: &Setup, inst: &Inst, line: &Line) -> Result<(), NoMemory>
        requires setup { SetupFits setup.now }
        requires replicas { replicas_of self.old ≡ setup.now.replicas }
        ensures { MakesRoom setup.now (is_ok result) (λ r. line_moves setup.now.spec inst.now r line.now) self.old self.new }
    {
        match line {
            Line::Add { num, params, .. } => {
                self.ready_cell(setup, &cell_named(inst, *num, params))
            }
            Line::Sub { num, params, .. } => {
                self.ready_cell(setup, &cell_named(inst, *num, params))
            }
            _ => Ok(()),
        }
    }

    /// Makes room for the rights that lines change.
    fn ready_lines(&mut self, setup: &Setup, inst: &Inst, lines: &[Line]) -> Result<(), NoMemory>
        requires setup { SetupFits setup.now }
        requires replicas { replicas_of self.old ≡ setup.now.replicas }
        ensures { MakesRoom setup.now (is_ok result) (λ r. list_any (line_moves setup.now.spec inst.now r) lines.now) self.old self.new }
    {
        for line in lines {
            self.ready_line(setup, inst, line)?;
        }
        Ok(())
    }

    /// Makes room for what a body touches, of an item of the own log or of another.
    fn ready_body(&mut self, setup: &Setup, mine: bool, body: &Body) -> Result<(), NoMemory>
        requires setup { SetupFits setup.now }
        requires replicas { replicas_of self.old ≡ setup.now.replicas }
        requires body { BodyFits setup.now body.now }
        ensures { MakesRoom setup.now (is_ok result) (body_touches setup.now.spec mine body.now) self.old self.new }
    {
        match body {
            Body::Act(inst) => {
                if mine {
                    self.ready_lines(setup, inst, lines_of(&setup.spec, inst))
                } else {
                    Ok(())
                }
            }
            Body::Out { right, .. } => self.ready_right(setup, right),
            Body::Accept { .. } => Ok(()),
        }
    }

    /// Makes room for what an item touches, by whose table it is.
    fn ready_item(&mut self, setup: &Setup, me: u32, item: &LogItem) -> Result<(), NoMemory>
        requires setup { SetupFits setup.now }
        requires replicas { replicas_of self.old ≡ setup.now.replicas }
        requires item { BodyFits setup.now item.now.body }
        ensures { MakesRoom setup.now (is_ok result) (λ r. item_touches setup.now.spec me r item.now) self.old self.new }
    {
        self.ready_body(setup, item.origin == me, &item.body)
    }

    /// Makes room for what items touch.
    pub(crate) fn ready_items(&mut self, setup: &Setup, items: &[LogItem]) -> Result<(), NoMemory>
        requires setup { SetupFits setup.now }
        requires replicas { replicas_of self.old ≡ setup.now.replicas }
        requires items { AllByRecursion (λ item. BodyFits setup.now item.body) items.now }
        ensures { MakesRoom setup.now (is_ok result) (λ r. list_any (item_touches setup.now.spec self.old.me r) items.now) self.old self.new }
    {
        let me = self.me;
        for item in items {
            self.ready_item(setup, me, item)?;
        }
        Ok(())
    }

    /// Makes room for a right that is held in shares.
    fn ready_shared(&mut self, setup: &Setup, right: &Right) -> Result<(), NoMemory>
        requires setup { SetupFits setup.now }
        requires replicas { replicas_of self.old ≡ setup.now.replicas }
        ensures { MakesRoom setup.now (is_ok result) (shared_touches right.now) self.old self.new }
    {
        if is_shared(right) {
            self.ready_right(setup, right)
        } else {
            Ok(())
        }
    }

    /// Makes room for the entry of a literal of the right's instance.
    fn ready_literal(&mut self, setup: &Setup, right: &Right, literal: u32) -> Result<(), NoMemory>
        requires setup { SetupFits setup.now }
        requires replicas { replicas_of self.old ≡ setup.now.replicas }
        ensures { MakesRoom setup.now (is_ok result) (λ r. literal_touches right.now r literal) self.old self.new }
    {
        self.ready_shared(setup, &at_literal(right, literal))
    }

    /// Makes room for the entries of these literals of the right's instance.
    fn ready_literals(
        &mut self,
        setup: &Setup,
        right: &Right,
        literals: &[u32],
    ) -> Result<(), NoMemory>
        requires setup { SetupFits setup.now }
        requires replicas { replicas_of self.old ≡ setup.now.replicas }
        ensures { MakesRoom setup.now (is_ok result) (λ r. list_any (literal_touches right.now r) literals.now) self.old self.new }
    {
        for literal in literals {
            self.ready_literal(setup, right, *literal)?;
        }
        Ok(())
    }

    /// Makes room for the shares that a need may be met by.
    fn ready_need(&mut self, setup: &Setup, need: &Need) -> Result<(), NoMemory>
        requires setup { SetupFits setup.now }
        requires replicas { replicas_of self.old ≡ setup.now.replicas }
        ensures { MakesRoom setup.now (is_ok result) (λ r. need_touches r need.now) self.old self.new }
    {
        match &need.amount {
            Amount::AnyForbid(literals) => {
                self.ready_literals(setup, &need.right, literals.as_slice())
            }
            _ => self.ready_shared(setup, &need.right),
        }
    }

    /// Makes room for the shares that needs may be met by.
    pub(crate) fn ready_needs(&mut self, setup: &Setup, needs: &[Need]) -> Result<(), NoMemory>
        requires setup { SetupFits setup.now }
        requires replicas { replicas_of self.old ≡ setup.now.replicas }
        requires needs { AllByRecursion (NeedFits setup.now) needs.now }
        ensures { MakesRoom setup.now (is_ok result) (λ r. list_any (need_touches r) needs.now) self.old self.new }
    {
        for need in needs {
            self.ready_need(setup, need)?;
        }
        Ok(())
    }
}

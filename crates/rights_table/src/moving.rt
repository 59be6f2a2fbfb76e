//! What an act creates and spends of the rights of cells.

ghost use Rattle.std.specs.Prelude.{◌≡◌, ◌+◌, ◌<◌, ◌≤◌, ◌^◌, true, is_some, sum_by, slice_get, None};
ghost use Rattle.std.specs.Option.{option_map_or};
ghost use Rattle.spec_model.specs.Changes as changes;
ghost use Rattle.spec_model.specs.Needs as needs;
ghost use Rattle.spec_model.specs.declared.right.Right.{Right as RightOf};
ghost use Rattle.run_model.specs.Rights as rights;
ghost use Rattle.rights_table.specs.Bounded as bounded;

use crate::step::Step;
use crate::table::Table;
use effect_model::cell_named;
use spec_model::{Inst, Line, Right, Setup, Spec, WantAsk};

/// Whether a number has a lower bound.
pub(crate) fn has_lower(spec: &Spec, num: u32) -> bool
    ensures { result ≡ bounded.has_lower spec.now num }
{
    match spec.nums.get(num as usize) {
        Some(num) => num.min.is_some(),
        None => false,
    }
}

/// Whether it has an upper bound.
pub(crate) fn has_upper(spec: &Spec, num: u32) -> bool
    ensures { result ≡ bounded.has_upper spec.now num }
{
    match spec.nums.get(num as usize) {
        Some(num) => num.max.is_some(),
        None => false,
    }
}

/// The effect lines of an instance's operation.
pub(crate) fn lines_of<'a>(spec: &'a Spec, inst: &Inst) -> &'a [Line]
    ensures { result.now ≡ changes.effect_lines spec.now inst.now }
{
    match spec.ops.get(inst.op as usize) {
        Some(op) => op.lines.as_slice(),
        None => &[],
    }
}

impl Table {
    ghost use Rattle.rights_table.specs.Tables.{IsEntered, count_in};
    ghost use Rattle.rights_table.specs.Cells.{AreCellsEntered, MovesBy, all_gain, all_lose, line_gains, line_loses, line_moves, of_right};

    /// Adds so many of an escrow right.
    fn gain(&mut self, setup: &Setup, right: &Right, n: u64)
        requires escrow { rights.is_escrow right.now ≡ true }
        requires entered { IsEntered self.old right.now }
        requires small { count_in setup.now self.old right.now + n < 2 ^ 64 }
        ensures { MovesBy setup.now (of_right right.now n) (λ q. 0) self.old self.new }
    {
        self.change(right, &Step::Create(n));
    }

    /// Takes so many of an escrow right away.
    fn lose(&mut self, setup: &Setup, right: &Right, n: u64)
        requires escrow { rights.is_escrow right.now ≡ true }
        requires entered { IsEntered self.old right.now }
        requires held { n ≤ count_in setup.now self.old right.now }
        ensures { MovesBy setup.now (λ q. 0) (of_right right.now n) self.old self.new }
    {
        self.change(right, &Step::Spend(WantAsk::Count(n)));
    }

    /// Adds what a line creates.
    fn gain_line(&mut self, setup: &Setup, inst: &Inst, line: &Line)
        requires entered { (q : RightOf) → line_moves setup.now.spec inst.now q line.now ≡ true → IsEntered self.old q }
        requires small { (q : RightOf) → count_in setup.now self.old q + line_gains setup.now.spec inst.now q line.now < 2 ^ 64 }
        ensures { MovesBy setup.now (λ q. line_gains setup.now.spec inst.now q line.now) (λ q. 0) self.old self.new }
    {
        match line {
            Line::Add {
                num,
                params,
                amount,
            } => {
                if has_lower(&setup.spec, *num) {
                    self.gain(setup, &Right::Low(cell_named(inst, *num, params)), *amount);
                }
            }
            Line::Sub {
                num,
                params,
                amount,
            } => {
                if has_upper(&setup.spec, *num) {
                    self.gain(setup, &Right::High(cell_named(inst, *num, params)), *amount);
                }
            }
            _ => {}
        }
    }

    /// Takes away what a line spends.
    fn lose_line(&mut self, setup: &Setup, inst: &Inst, line: &Line)
        requires entered { (q : RightOf) → line_moves setup.now.spec inst.now q line.now ≡ true → IsEntered self.old q }
        requires held { (q : RightOf) → line_loses setup.now.spec inst.now q line.now ≤ count_in setup.now self.old q }
        ensures { MovesBy setup.now (λ q. 0) (λ q. line_loses setup.now.spec inst.now q line.now) self.old self.new }
    {
        match line {
            Line::Add {
                num,
                params,
                amount,
            } => {
                if has_upper(&setup.spec, *num) {
                    self.lose(setup, &Right::High(cell_named(inst, *num, params)), *amount);
                }
            }
            Line::Sub {
                num,
                params,
                amount,
            } => {
                if has_lower(&setup.spec, *num) {
                    self.lose(setup, &Right::Low(cell_named(inst, *num, params)), *amount);
                }
            }
            _ => {}
        }
    }

    /// Adds what lines create.
    fn gain_lines(&mut self, setup: &Setup, inst: &Inst, lines: &[Line])
        requires entered { AreCellsEntered setup.now.spec inst.now lines.now self.old }
        requires small { (q : RightOf) → count_in setup.now self.old q + sum_by (line_gains setup.now.spec inst.now q) lines.now < 2 ^ 64 }
        ensures { MovesBy setup.now (λ q. sum_by (line_gains setup.now.spec inst.now q) lines.now) (λ q. 0) self.old self.new }
    {
        for line in lines {
            self.gain_line(setup, inst, line);
        }
    }

    /// Takes away what lines spend.
    fn lose_lines(&mut self, setup: &Setup, inst: &Inst, lines: &[Line])
        requires entered { AreCellsEntered setup.now.spec inst.now lines.now self.old }
        requires held { (q : RightOf) → sum_by (line_loses setup.now.spec inst.now q) lines.now ≤ count_in setup.now self.old q }
        ensures { MovesBy setup.now (λ q. 0) (λ q. sum_by (line_loses setup.now.spec inst.now q) lines.now) self.old self.new }
    {
        for line in lines {
            self.lose_line(setup, inst, line);
        }
    }

    /// Creates and spends what an act does to cells. What it spends is held.
    pub(crate) fn move_cells(&mut self, setup: &Setup, inst: &Inst)
        requires entered { AreCellsEntered setup.now.spec inst.now (changes.effect_lines setup.now.spec inst.now) self.old }
        requires small { (q : RightOf) → count_in setup.now self.old q + all_gain setup.now.spec inst.now q < 2 ^ 64 }
        requires held { (q : RightOf) → needs.spends setup.now.spec inst.now q ≤ count_in setup.now self.old q }
        ensures { MovesBy setup.now (needs.creates setup.now.spec inst.now) (needs.spends setup.now.spec inst.now) self.old self.new }
    {
        let lines = lines_of(&setup.spec, inst);
        // What is created first is there when the rest is spent.
        self.gain_lines(setup, inst, lines);
        self.lose_lines(setup, inst, lines);
    }
}

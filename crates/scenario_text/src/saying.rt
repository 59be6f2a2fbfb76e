//! The lines that say a run, with names for places.

ghost use Rattle.std.specs.Prelude.{◌≡◌, [], OnOk};
ghost use Rattle.scenario_text.specs.Saying as sayings;

use crate::document::StopLine;
use crate::request::params_at;
use ind_base::{List, NoMemory, Span, Spans};
use scenario_lines::{NamedArg, RunLine};
use spec_model::{Inst, Op, Var};

#[tactic(auto, unfolding(crate::specs::Saying::say_arg))]
fn say_arg(param: &Var, span: Span) -> NamedArg
    ensures { result ≡ sayings.say_arg param.now span }
{
    if param.interval {
        NamedArg::Span {
            lo: u64::from(span.lo),
            hi: u64::from(span.hi),
        }
    } else {
        NamedArg::One(u64::from(span.lo))
    }
}

/// Says the arguments, parameter by parameter.
fn say_args(found: &mut List<NamedArg>, params: &[Var], spans: Spans) -> Result<(), NoMemory>
    requires { found.old ≡ [] }
    ensures { OnOk result (found.new ≡ sayings.say_args params.now spans) }
{
    for (at, x) in params.iter().enumerate() {
        match spans.get(at) {
            Some(span) => found.push(say_arg(x, span))?,
            None => return Ok(()),
        }
    }
    Ok(())
}

/// Says the arguments of an instance, in a list that may have held others.
pub(crate) fn inst_args(found: &mut List<NamedArg>, ops: &[Op], inst: &Inst) -> Result<(), NoMemory>
    ensures { OnOk result (found.new ≡ sayings.inst_args ops.now inst.now) }
{
    found.truncate(0);
    say_args(found, params_at(ops, inst.op), inst.args)
}

pub(crate) fn number_of(number: Option<u32>) -> u64
    ensures { result ≡ sayings.number_of number }
{
    match number {
        Some(n) => u64::from(n),
        None => 0,
    }
}

#[tactic(auto, unfolding(crate::specs::Saying::say_stop))]
pub(crate) fn say_stop(line: StopLine) -> RunLine
    ensures { result ≡ sayings.say_stop line }
{
    RunLine::Stop {
        replica: u64::from(line.replica),
        call: u64::from(line.stop.call),
        keep: u64::from(line.stop.keep),
        fill: u64::from(line.stop.fill),
    }
}

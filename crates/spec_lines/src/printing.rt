//! The canonical text of the lines of a specification.

ghost use Rattle.std.specs.Prelude.{◌≡◌, ◌++◌, codes, OnOk};
ghost use Rattle.spec_lines.specs.Texts as texts;

use crate::item::{NamedParam, NamedTerm, NamedVar};
use crate::line::{NamedLiteral, SpecLine};
use ind_base::{List, NoMemory, Text, put_num};
use line_text::{Written, put_list};
use spec_model::Rule;

impl Written for NamedVar {
    ghost use Rattle.spec_lines.specs.Texts as texts;

    ghost text = { texts.var_text };

    fn put(&self, out: &mut List<u8>) -> Result<(), NoMemory> {
        out.extend(self.name.as_slice())?;
        out.extend(b":")?;
        out.extend(self.sort.as_slice())
    }
}

impl Written for NamedParam {
    ghost use Rattle.spec_lines.specs.Texts as texts;

    ghost text = { texts.param_text };

    fn put(&self, out: &mut List<u8>) -> Result<(), NoMemory> {
        out.extend(self.name.as_slice())?;
        out.extend(b":")?;
        out.extend(self.sort.as_slice())?;
        put_flag(out, self.interval, b" interval")
    }
}

impl Written for NamedTerm {
    ghost use Rattle.spec_lines.specs.Texts as texts;

    ghost text = { texts.term_text };

    fn put(&self, out: &mut List<u8>) -> Result<(), NoMemory> {
        match self {
            NamedTerm::Param(name) => out.extend(name.as_slice()),
            NamedTerm::Every => out.extend(b"*"),
        }
    }
}

/// Appends a word where it is said.
fn put_flag(out: &mut List<u8>, said: bool, word: &[u8]) -> Result<(), NoMemory>
    ensures { OnOk result (out.new ≡ out.old ++ texts.flag_text said word.now) }
{
    if said { out.extend(word) } else { Ok(()) }
}

fn put_literal(out: &mut List<u8>, literal: &NamedLiteral) -> Result<(), NoMemory>
    ensures { OnOk result (out.new ≡ out.old ++ texts.literal_text literal.now) }
{
    match literal {
        NamedLiteral::Atom { pred, vars } => {
            out.extend(pred.as_slice())?;
            put_list(out, vars.as_slice())
        }
        NamedLiteral::Equal { left, right } => {
            out.extend(left.as_slice())?;
            out.extend(b" = ")?;
            out.extend(right.as_slice())
        }
    }
}

/// Appends literals behind the first one, each with the word before it.
fn put_more(out: &mut List<u8>, word: &[u8], literals: &[NamedLiteral]) -> Result<(), NoMemory>
    ensures { OnOk result (out.new ≡ out.old ++ texts.more_text word.now literals.now) }
{
    for x in literals {
        out.extend(word)?;
        put_literal(out, x)?;
    }
    Ok(())
}

/// Appends literals with the word between them.
fn put_literals(out: &mut List<u8>, word: &[u8], literals: &[NamedLiteral]) -> Result<(), NoMemory>
    ensures { OnOk result (out.new ≡ out.old ++ texts.literals_text word.now literals.now) }
{
    match literals {
        [first, rest @ ..] => {
            out.extend(b" ")?;
            put_literal(out, first)?;
            put_more(out, word, rest)
        }
        _ => Ok(()),
    }
}

fn put_rule(out: &mut List<u8>, rule: Rule) -> Result<(), NoMemory>
    ensures { OnOk result (out.new ≡ out.old ++ texts.rule_text rule) }
{
    match rule {
        Rule::AddWins => out.extend(b"add_wins"),
        Rule::RemoveWins => out.extend(b"remove_wins"),
        Rule::Locked => out.extend(b"locked"),
    }
}

/// Appends a bound behind its word, where it is given.
fn put_bound(out: &mut List<u8>, word: &[u8], bound: Option<u64>) -> Result<(), NoMemory>
    ensures { OnOk result (out.new ≡ out.old ++ texts.bound_text word.now bound) }
{
    match bound {
        Some(n) => {
            out.extend(word)?;
            put_num(out, n)
        }
        None => Ok(()),
    }
}

fn put_sort(out: &mut List<u8>, name: &[u8], size: u64) -> Result<(), NoMemory>
    ensures { OnOk result (out.new ≡ out.old ++ texts.sort_text name.now size) }
{
    out.extend(b"sort ")?;
    out.extend(name)?;
    out.extend(b" ")?;
    put_num(out, size)
}

fn put_pred(
    out: &mut List<u8>,
    name: &[u8],
    sorts: &[Text],
    rule: Rule,
    first: bool,
) -> Result<(), NoMemory>
    ensures { OnOk result (out.new ≡ out.old ++ texts.pred_text name.now sorts.now rule first) }
{
    out.extend(b"pred ")?;
    out.extend(name)?;
    put_list(out, sorts)?;
    out.extend(b" ")?;
    put_rule(out, rule)?;
    put_flag(out, first, b" true")
}

fn put_number(
    out: &mut List<u8>,
    name: &[u8],
    sorts: &[Text],
    init: u64,
    min: Option<u64>,
    max: Option<u64>,
) -> Result<(), NoMemory>
    ensures { OnOk result (out.new ≡ out.old ++ texts.num_text name.now sorts.now init min max) }
{
    out.extend(b"num ")?;
    out.extend(name)?;
    put_list(out, sorts)?;
    out.extend(b" init ")?;
    put_num(out, init)?;
    put_bound(out, b" min ", min)?;
    put_bound(out, b" max ", max)
}

fn put_clause(
    out: &mut List<u8>,
    vars: &[NamedVar],
    premise: &[NamedLiteral],
    conclusion: &[NamedLiteral],
    mask: bool,
) -> Result<(), NoMemory>
    ensures { OnOk result (out.new ≡ out.old ++ texts.clause_text vars.now premise.now conclusion.now mask) }
{
    out.extend(b"clause ")?;
    put_list(out, vars)?;
    put_literals(out, b" and ", premise)?;
    out.extend(b" =>")?;
    put_literals(out, b" or ", conclusion)?;
    put_flag(out, mask, b" mask")
}

fn put_op(out: &mut List<u8>, name: &[u8], params: &[NamedParam]) -> Result<(), NoMemory>
    ensures { OnOk result (out.new ≡ out.old ++ texts.op_text name.now params.now) }
{
    out.extend(b"op ")?;
    out.extend(name)?;
    put_list(out, params)
}

fn put_touch(
    out: &mut List<u8>,
    truth: bool,
    pred: &[u8],
    terms: &[NamedTerm],
) -> Result<(), NoMemory>
    ensures { OnOk result (out.new ≡ out.old ++ texts.touch_text truth pred.now terms.now) }
{
    if truth {
        out.extend(b"set ")?;
    } else {
        out.extend(b"clear ")?;
    }
    out.extend(pred)?;
    put_list(out, terms)
}

fn put_change(
    out: &mut List<u8>,
    raises: bool,
    amount: u64,
    num: &[u8],
    params: &[Text],
) -> Result<(), NoMemory>
    ensures { OnOk result (out.new ≡ out.old ++ texts.change_text raises amount num.now params.now) }
{
    if raises {
        out.extend(b"add ")?;
    } else {
        out.extend(b"sub ")?;
    }
    put_num(out, amount)?;
    out.extend(b" ")?;
    out.extend(num)?;
    put_list(out, params)
}

fn put_free(out: &mut List<u8>, first: &[u8], second: &[u8]) -> Result<(), NoMemory>
    ensures { OnOk result (out.new ≡ out.old ++ texts.free_text first.now second.now) }
{
    out.extend(b"free ")?;
    out.extend(first)?;
    out.extend(b" ")?;
    out.extend(second)
}

/// Appends the canonical text of a line, without its end.
#[tactic(auto, unfolding(crate::specs::Texts::line_text))]
pub fn put_spec_line(out: &mut List<u8>, line: &SpecLine) -> Result<(), NoMemory>
    ensures { OnOk result (out.new ≡ out.old ++ texts.line_text line.now) }
{
    match line {
        SpecLine::Sort { name, size } => put_sort(out, name.as_slice(), *size),
        SpecLine::Pred {
            name,
            sorts,
            rule,
            first,
        } => put_pred(out, name.as_slice(), sorts.as_slice(), *rule, *first),
        SpecLine::Num {
            name,
            sorts,
            init,
            min,
            max,
        } => put_number(out, name.as_slice(), sorts.as_slice(), *init, *min, *max),
        SpecLine::Clause {
            vars,
            premise,
            conclusion,
            mask,
        } => put_clause(
            out,
            vars.as_slice(),
            premise.as_slice(),
            conclusion.as_slice(),
            *mask,
        ),
        SpecLine::Op { name, params } => put_op(out, name.as_slice(), params.as_slice()),
        SpecLine::Touch { truth, pred, terms } => {
            put_touch(out, *truth, pred.as_slice(), terms.as_slice())
        }
        SpecLine::Change {
            raises,
            amount,
            num,
            params,
        } => put_change(out, *raises, *amount, num.as_slice(), params.as_slice()),
        SpecLine::Free { first, second } => put_free(out, first.as_slice(), second.as_slice()),
    }
}

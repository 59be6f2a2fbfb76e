//! The lines of a rejection.

ghost use Rattle.std.specs.Prelude.{◌≡◌, ◌++◌, IfOk, OnOk};
ghost use Rattle.std.specs.List.{flat_map};
ghost use Rattle.std.specs.Option.{option_map};
ghost use Rattle.ground_clauses.specs.Cases.{CaseKnown};
ghost use Rattle.ground_clauses.specs.Listing.{CaseFits};
ghost use Rattle.rejection_text.specs.Texts as texts;
ghost use Rattle.spec_model.specs.Fits.{IsWellFormed};

use crate::parts::{put_classes, put_numbers, put_op_name, put_params, put_pred_name, put_truth};
use ground_clauses::{
    AtomStates, Case, Target, atom_states, first_classes, second_classes, target_classes,
};
use ind_base::{List, NoMemory, put_num};
use spec_model::Spec;
use std::alloc::Global;

/// Appends the line of the two operations.
fn put_pair(out: &mut List<u8>, spec: &Spec, case: &Case) -> Result<(), NoMemory>
    requires { CaseKnown spec.now case.now }
    ensures { OnOk result (out.new ≡ out.old ++ texts.pair_line spec.now case.now) }
{
    out.extend(b"rejected free ")?;
    put_op_name(out, spec, case.a)?;
    out.extend(b" ")?;
    put_op_name(out, spec, case.b)?;
    out.extend(b"\n")
}

/// Appends what the case is about.
fn put_target(out: &mut List<u8>, spec: &Spec, target: Target) -> Result<(), NoMemory>
    ensures { OnOk result (out.new ≡ out.old ++ texts.target_text spec.now target) }
{
    match target {
        Target::Clause(place) => {
            out.extend(b"clause ")?;
            put_num(out, u64::from(place))
        }
        Target::Locked(pred) => {
            out.extend(b"locked ")?;
            put_pred_name(out, spec, pred)
        }
    }
}

/// Appends the classes of the first operation's parameters.
fn put_first(out: &mut List<u8>, spec: &Spec, case: &Case) -> Result<(), NoMemory>
    requires well_formed { IsWellFormed spec.now }
    requires known { CaseKnown spec.now case.now }
    ensures { OnOk result (out.new ≡ out.old ++ texts.first_text spec.now case.now) }
{
    let params = spec.ops.as_slice()[case.a as usize].params.as_slice();
    let classes = first_classes(spec, case);
    put_params(out, spec, case, params, classes, case.bits_a)
}

/// Appends the classes of the second operation's parameters.
fn put_second(out: &mut List<u8>, spec: &Spec, case: &Case) -> Result<(), NoMemory>
    requires well_formed { IsWellFormed spec.now }
    requires known { CaseKnown spec.now case.now }
    ensures { OnOk result (out.new ≡ out.old ++ texts.second_text spec.now case.now) }
{
    let params = spec.ops.as_slice()[case.b as usize].params.as_slice();
    let classes = second_classes(spec, case);
    put_params(out, spec, case, params, classes, case.bits_b)
}

/// Appends the line of the case.
fn put_case(out: &mut List<u8>, spec: &Spec, case: &Case) -> Result<(), NoMemory>
    requires well_formed { IsWellFormed spec.now }
    requires known { CaseKnown spec.now case.now }
    ensures { OnOk result (out.new ≡ out.old ++ texts.case_line spec.now case.now) }
{
    out.extend(b"case ")?;
    put_target(out, spec, case.target)?;
    out.extend(b" first ")?;
    put_first(out, spec, case)?;
    out.extend(b" second ")?;
    put_second(out, spec, case)?;
    out.extend(b" vars ")?;
    put_classes(out, target_classes(spec, case))?;
    out.extend(b"\n")
}

/// Appends the line of an atom.
fn put_atom(out: &mut List<u8>, spec: &Spec, states: &AtomStates) -> Result<(), NoMemory>
    ensures { OnOk result (out.new ≡ out.old ++ texts.atom_line spec.now states.now) }
{
    out.extend(b"atom ")?;
    put_pred_name(out, spec, states.atom.pred)?;
    out.extend(b"(")?;
    put_numbers(out, states.atom.args.as_slice())?;
    out.extend(b")")?;
    put_truth(out, states.start)?;
    put_truth(out, states.first)?;
    put_truth(out, states.second)?;
    put_truth(out, states.both)?;
    out.extend(b"\n")
}

/// Appends the lines of atoms.
#[tactic(auto, using(crate::proofs::Pieces::flat_next))]
fn put_atoms(out: &mut List<u8>, spec: &Spec, atoms: &[AtomStates]) -> Result<(), NoMemory>
    ensures { OnOk result (out.new ≡ out.old ++ flat_map (texts.atom_line spec.now) atoms.now) }
{
    for atom in atoms {
        put_atom(out, spec, atom)?;
    }
    Ok(())
}

/// Appends a line for each atom of the query, with its truths in the four states of the model.
fn put_states(
    alloc: Global,
    out: &mut List<u8>,
    spec: &Spec,
    case: &Case,
    model: Option<&[bool]>,
) -> Result<(), NoMemory>
    requires well_formed { IsWellFormed spec.now }
    requires fits { CaseFits spec.now case.now }
    ensures { OnOk result (out.new ≡ out.old ++ texts.atom_lines spec.now case.now (option_map (λ m. m.now) model.entry)) }
{
    match model {
        Some(model) => {
            let atoms = atom_states(alloc, spec, case, model)?;
            put_atoms(out, spec, atoms.as_slice())
        }
        None => Ok(()),
    }
}

/// The text of a rejected pair: the line of its operations, that of the case, and, where a model of
/// the case's query is given, a line for each atom of the query.
pub fn rejection(
    alloc: Global,
    spec: &Spec,
    case: &Case,
    model: Option<&[bool]>,
) -> Result<List<u8>, NoMemory>
    requires well_formed { IsWellFormed spec.now }
    requires fits { CaseFits spec.now case.now }
    ensures { IfOk result (λ text. text ≡ texts.rejection_text spec.now case.now (option_map (λ m. m.now) model.entry)) }
{
    let mut out = List::new(alloc);
    put_pair(&mut out, spec, case)?;
    put_case(&mut out, spec, case)?;
    put_states(alloc, &mut out, spec, case, model)?;
    Ok(out)
}

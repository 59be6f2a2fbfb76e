//! What an instance needs on the literals of marked clauses.

ghost use Rattle.std.specs.Prelude.{◌≡◌, ◌<◌, ◌≤◌, ◌+◌, ◌++◌, if◌then◌else◌, [], length, map, slice_get, Some, OnOk};
ghost use Rattle.std.specs.List.{list_any, flat_map};
ghost use Rattle.spec_model.specs.Fits.{ClauseFits, IsWellFormed, marked_from};
ghost use Rattle.spec_model.specs.Masks as masks;
ghost use Rattle.spec_model.specs.Truths as truths;
ghost use Rattle.effect_model.specs.Laying.{IsLaid, truths_after};
ghost use Rattle.effect_model.specs.Masking.{IsShort, MayMask, wanted_needs, wanted_parts, wanted_of, wanted_of_masks};
ghost use Rattle.effect_model.specs.Pruning.{ClauseStands, LiteralStands};

use crate::breaking::{element, values, var_sizes};
use crate::pruning::next_broken;
use crate::touching::lines_of;
use crate::truth::{Laid, Truth};
use crate::walk::{Listing, walk};
use ind_base::{Args, Few, List, NoMemory};
use spec_model::{Amount, Atom, Clause, Level, Literal, Need, Right};
use std::alloc::Global;

/// Places of literals of a clause.
type LiteralPlaces = Few<8>;

/// What is wanted of what an instance of a marked clause needs.
#[derive(Clone, Copy)]
pub(crate) struct Wanted {
    /// Allow on each literal that the effect makes false.
    pub(crate) allows: bool,
    /// Forbid on one of those that are true afterwards.
    pub(crate) witness: bool,
}

/// Whether an equality has this truth.
fn equal_true(xs: &[u32], sign: bool, literal: &Literal) -> bool
    ensures { result ≡ masks.equal_true xs.now sign literal.now }
{
    match literal {
        Literal::Atom { .. } => false,
        Literal::Equal { left, right } => (element(xs, *left) == element(xs, *right)) == sign,
    }
}

/// Whether one of these is an equality that has this truth.
fn any_equal(xs: &[u32], sign: bool, literals: &[Literal]) -> bool
    ensures { result ≡ list_any (masks.equal_true xs.now sign) literals.now }
{
    literals.iter().any(|literal| equal_true(xs, sign, literal))
}

/// Whether equalities make the clause true at these elements.
#[tactic(auto, using(crate::proofs::Pruned::any_sides))]
fn is_given(clause: &Clause, xs: &[u32]) -> bool
    ensures { result ≡ masks.is_given xs.now clause.now }
{
    any_equal(xs, false, clause.premise.as_slice())
        || any_equal(xs, true, clause.conclusion.as_slice())
}

/// How many literals a clause has.
fn literal_count(clause: &Clause) -> usize
    requires { IsShort clause.now }
    ensures { result ≡ length clause.now.premise + length clause.now.conclusion }
{
    clause.premise.len() + clause.conclusion.len()
}

/// A literal of a clause, and the truth that it has to have; the premise comes first.
fn literal_at(clause: &Clause, at: usize) -> (bool, Literal)
    requires { at < length clause.now.premise + length clause.now.conclusion }
    ensures { slice_get (truths.literals clause.now) at ≡ Some (truths.signed result.0 result.1) }
{
    let premise = clause.premise.as_slice();
    if at < premise.len() {
        (false, premise[at])
    } else {
        (true, clause.conclusion.as_slice()[at - premise.len()])
    }
}

/// Whether the effect sets an atom to the other truth, whatever it was before.
fn is_falsified<T: Truth>(laid: &Laid<'_, T>, xs: &[u32], sign: bool, literal: &Literal) -> bool
    requires laid { IsLaid T.knows laid.now }
    requires stands { LiteralStands laid.now.spec.now xs.now literal.now }
    ensures { result ≡ masks.atom_falsified laid.now.spec.now laid.now.inst.now xs.now sign literal.now }
{
    match literal {
        Literal::Atom { pred, vars } => {
            let args = values(xs, vars);
            match laid.sets(*pred, args.as_slice()) {
                Some(truth) => truth != sign,
                None => false,
            }
        }
        Literal::Equal { .. } => false,
    }
}

/// Whether an atom has this truth once the effect is laid over.
fn is_true_after<T: Truth>(laid: &Laid<'_, T>, xs: &[u32], sign: bool, literal: &Literal) -> bool
    requires laid { IsLaid T.knows laid.now }
    requires stands { LiteralStands laid.now.spec.now xs.now literal.now }
    ensures { result ≡ masks.atom_true (truths_after T.truths laid.now) xs.now sign literal.now }
{
    match literal {
        Literal::Atom { pred, vars } => {
            let atom = Atom {
                pred: *pred,
                args: values(xs, vars),
            };
            laid.truth(&atom) == sign
        }
        Literal::Equal { .. } => false,
    }
}

/// The places of the literals that the effect makes false at these elements.
fn falsified_places<T: Truth>(laid: &Laid<'_, T>, clause: &Clause, xs: &[u32]) -> LiteralPlaces
    requires laid { IsLaid T.knows laid.now }
    requires stands { ClauseStands laid.now.spec.now xs.now clause.now }
    requires short { IsShort clause.now }
    ensures { result ≡ masks.falsified_places laid.now.spec.now laid.now.inst.now xs.now clause.now }
{
    let mut places = LiteralPlaces::new();
    for at in 0..literal_count(clause) {
        let (sign, literal) = literal_at(clause, at);
        if is_falsified(laid, xs, sign, &literal) {
            places.push(at as u32);
        }
    }
    places
}

/// The places of the literals that are true once the effect is laid over.
fn true_places<T: Truth>(laid: &Laid<'_, T>, clause: &Clause, xs: &[u32]) -> LiteralPlaces
    requires laid { IsLaid T.knows laid.now }
    requires stands { ClauseStands laid.now.spec.now xs.now clause.now }
    requires short { IsShort clause.now }
    ensures { result ≡ masks.true_places (truths_after T.truths laid.now) xs.now clause.now }
{
    let mut places = LiteralPlaces::new();
    for at in 0..literal_count(clause) {
        let (sign, literal) = literal_at(clause, at);
        if is_true_after(laid, xs, sign, &literal) {
            places.push(at as u32);
        }
    }
    places
}

/// Appends allow on these literals of an instance.
fn add_allows(
    clause: u32,
    args: &Args,
    places: &[u32],
    out: &mut List<Need>,
) -> Result<(), NoMemory>
    ensures { OnOk result (out.new ≡ out.old ++ map (masks.allow_need clause args.now) places.now) }
{
    for literal in places {
        out.push(Need {
            right: Right::Entry {
                clause,
                args: *args,
                literal: *literal,
            },
            amount: Amount::Level(Level::Allow),
        })?;
    }
    Ok(())
}

/// Appends forbid on one of these literals of an instance, if there are any.
fn add_witness(
    alloc: Global,
    clause: u32,
    args: &Args,
    places: &[u32],
    out: &mut List<Need>,
) -> Result<(), NoMemory>
    ensures { OnOk result (out.new ≡ out.old ++ masks.witness_need clause args.now places.now) }
{
    let _so_far = out.as_slice();
    let [literal, ..] = places else {
        return Ok(());
    };
    let right = Right::Entry {
        clause,
        args: *args,
        literal: *literal,
    };
    let amount = Amount::AnyForbid(List::from_slice(alloc, places)?);
    out.push(Need { right, amount })
}

/// What is wanted of the needs on one marked clause.
#[derive(Drop)]
struct Masking<'a, 'b, T> {
    alloc: Global,
    laid: &'b Laid<'a, T>,
    clause: &'a Clause,
    at: u32,
    wanted: Wanted,
}

impl<T: Truth> Masking<'_, '_, T> {
    /// Appends the allows, where they are wanted.
    fn list_allows(
        &self,
        args: &Args,
        falsified: &[u32],
        out: &mut List<Need>,
    ) -> Result<(), NoMemory>
        ensures { OnOk result (out.new ≡ out.old ++ (if self.now.wanted.allows then map (masks.allow_need self.now.at args.now) falsified.now else [])) }
    {
        let _so_far = out.as_slice();
        if !self.wanted.allows {
            return Ok(());
        }
        add_allows(self.at, args, falsified, out)
    }

    /// Appends the witness, where it is wanted.
    fn list_witness(&self, args: &Args, out: &mut List<Need>) -> Result<(), NoMemory>
        requires { MayMask T.knows self.now.laid.now self.now.clause.now args.now }
        ensures { OnOk result (out.new ≡ out.old ++ (if self.now.wanted.witness then masks.witness_need self.now.at args.now (masks.true_places (truths_after T.truths self.now.laid.now) args.now self.now.clause.now) else [])) }
    {
        let _so_far = out.as_slice();
        if !self.wanted.witness {
            return Ok(());
        }
        let places = true_places(self.laid, self.clause, args.as_slice());
        add_witness(self.alloc, self.at, args, places.as_slice(), out)
    }

    /// Appends both, where the effect makes these literals false.
    fn list_parts(
        &self,
        args: &Args,
        falsified: &[u32],
        out: &mut List<Need>,
    ) -> Result<(), NoMemory>
        requires may { MayMask T.knows self.now.laid.now self.now.clause.now args.now }
        requires falsified { falsified.now ≡ masks.falsified_places self.now.laid.now.spec.now self.now.laid.now.inst.now args.now self.now.clause.now }
        ensures { OnOk result (out.new ≡ out.old ++ wanted_parts self.now.wanted self.now.laid.now.spec.now self.now.laid.now.inst.now (T.truths self.now.laid.now.state.now) self.now.at self.now.clause.now args.now) }
    {
        self.list_allows(args, falsified, out)?;
        self.list_witness(args, out)
    }
}

impl<T: Truth> Listing for Masking<'_, '_, T> {
    type Item = Need;

    ghost fits = { λ s xs. MayMask T.knows s.laid.now s.clause.now xs };

    ghost listed = { λ s xs. wanted_needs s.wanted s.laid.now.spec.now s.laid.now.inst.now (T.truths s.laid.now.state.now) s.at s.clause.now xs };

    fn next(&self, front: &[u32], from: u32) -> u32 {
        let lines = lines_of(self.laid.spec, self.laid.inst);
        next_broken(self.laid.inst, lines, self.clause, front, from)
    }

    fn list(&self, args: &Args, out: &mut List<Need>) -> Result<(), NoMemory> {
        let _so_far = out.as_slice();
        if is_given(self.clause, args.as_slice()) {
            return Ok(());
        }
        let falsified = falsified_places(self.laid, self.clause, args.as_slice());
        if falsified.len() == 0 {
            return Ok(());
        }
        self.list_parts(args, falsified.as_slice(), out)
    }
}

/// Appends what is wanted of the needs on one marked clause.
fn add_clause<T: Truth>(masking: &Masking<'_, '_, T>, out: &mut List<Need>) -> Result<(), NoMemory>
    requires laid { IsLaid T.knows masking.now.laid.now }
    requires fits { ClauseFits masking.now.laid.now.spec.now masking.now.clause.now }
    requires clause_is { masking.now.clause.now ≡ truths.clause_in masking.now.laid.now.spec.now masking.now.at }
    ensures { OnOk result (out.new ≡ out.old ++ wanted_of masking.now.wanted masking.now.laid.now.spec.now masking.now.laid.now.inst.now (T.truths masking.now.laid.now.state.now) masking.now.at) }
{
    let sizes = var_sizes(masking.laid.spec, masking.clause.vars.as_slice());
    walk(masking, Args::new(), sizes.as_slice(), out)
}

/// Appends what is wanted of the needs on all marked clauses, by clause and elements.
pub(crate) fn add_masks<T: Truth>(
    alloc: Global,
    laid: &Laid<'_, T>,
    wanted: Wanted,
    out: &mut List<Need>,
) -> Result<(), NoMemory>
    requires well_formed { IsWellFormed laid.now.spec.now }
    requires laid { IsLaid T.knows laid.now }
    ensures { OnOk result (out.new ≡ out.old ++ wanted_of_masks wanted laid.now.spec.now laid.now.inst.now (T.truths laid.now.state.now) (marked_from 0 laid.now.spec.now.clauses)) }
{
    for (at, clause) in laid.spec.clauses.as_slice().iter().enumerate() {
        if clause.mask {
            let masking = Masking {
                alloc,
                laid: &*laid,
                clause,
                at: at as u32,
                wanted,
            };
            add_clause(&masking, out)?;
        }
    }
    Ok(())
}

//! The query of a case.

ghost use Rattle.std.specs.Prelude.{◌≡◌, true, false, ◌<◌, ◌≤◌, ◌+◌, ◌^◌, ◌++◌, ◌∷◌, [], length, map, IfOk, OnOk};
ghost use Rattle.std.specs.List.{flat_map, AllByRecursion};
ghost use Rattle.spec_model.specs.Fits.{IsWellFormed};
ghost use Rattle.spec_model.specs.Stable as stable;
ghost use Rattle.ground_clauses.specs.Cases as cases;
ghost use Rattle.ground_clauses.specs.Cases.{CaseKnown};
ghost use Rattle.ground_clauses.specs.Asking.{CanAsk, pieces, denial_clauses, form_clauses, instance_clauses, rise_clauses, row_clauses, sets_in};
ghost use Rattle.ground_clauses.specs.Derivations.{SpeaksOf};
ghost use Rattle.ground_clauses.specs.Listing.{CaseFits};
ghost use Rattle.ground_clauses.specs.Instances.{instance_of};
ghost use Rattle.ground_clauses.specs.Rows as rows;
ghost use Rattle.ground_clauses.specs.Rows.{AreApart, CanLook, IsNumbered, IsRow, row_atom};
ghost use Rattle.ground_clauses.specs.ThreeStates.{read_clauses, same_number};
ghost use Rattle.spec_model.specs.declared.state.Touch.TheVariants.{Loses};
ghost use Rattle.ground_clauses.specs.Query as queries;

use crate::case::{Case, Target};
use crate::clauses::{Cnf, Lit};
use crate::instances::{Instance, find_hypotheses, list_atoms};
use crate::literals::{
    ClauseRoom, KnownForm, KnownLit, denied, literal_form, make_clause, same_moment, same_variable,
};
use crate::memory::{Memory, Topic, count_classes};
use crate::places::clause_at;
use crate::rows::{Looking, Row, Seen, list_rows, seen_in};
use crate::slots::{Slots, note_places};
use crate::state_lit::{StateLit, Variable};
use crate::table::{Touches, entry, touches_by};
use crate::three_states::{OneState, ThreeStates, has_number};
use crate::touched::{parts_of, target_classes};
use ind_base::{List, NoMemory};
use spec_model::{Atom, Clause, Entry, Literal, Moment, Spec, Touch};
use std::alloc::Global;

/// Appends the atom's variable in a state, where it has one of its own by this entry of the table.
fn add_variable(
    atom: &Atom,
    moment: Moment,
    entry: Entry,
    variables: &mut List<Variable>,
) -> Result<(), NoMemory>
    ensures { OnOk result (variables.new ≡ variables.old ++ queries.entry_variables atom.now moment entry) }
{
    if let Entry::Same(same) = entry
        && same_moment(moment, same)
    {
        let atom = *atom;
        variables.push(Variable { atom, moment })?;
    }
    Ok(())
}

/// Appends the variables of an atom to which the operations do this, in the order of the states.
#[tactic(auto, using(crate::proofs::Building::four_variables))]
fn add_variables(
    atom: &Atom,
    touches: Touches,
    variables: &mut List<Variable>,
) -> Result<(), NoMemory>
    ensures { OnOk result (variables.new ≡ variables.old ++ rows.touched_variables atom.now touches) }
{
    let Touches { first, second } = touches;
    add_variable(
        atom,
        Moment::Start,
        entry(first, second, Moment::Start),
        variables,
    )?;
    add_variable(
        atom,
        Moment::First,
        entry(first, second, Moment::First),
        variables,
    )?;
    add_variable(
        atom,
        Moment::Second,
        entry(first, second, Moment::Second),
        variables,
    )?;
    add_variable(
        atom,
        Moment::Both,
        entry(first, second, Moment::Both),
        variables,
    )?;
    Ok(())
}

/// Lists what the operations do to these atoms, and the variables of the atoms, in place of those
/// listed before.
#[tactic(auto, using(crate::proofs::Building::flat_step, crate::proofs::Building::map_step))]
fn list_variables(
    spec: &Spec,
    case: &Case,
    atoms: &[Atom],
    touches: &mut List<Touches>,
    variables: &mut List<Variable>,
) -> Result<(), NoMemory>
    requires { CaseKnown spec.now case.now }
    ensures touches { OnOk result (touches.new ≡ map (rows.touches_at spec.now (cases.case_sets spec.now case.now)) atoms.now) }
    ensures variables { OnOk result (variables.new ≡ flat_map (queries.atom_variables spec.now (cases.case_sets spec.now case.now)) atoms.now) }
{
    touches.truncate(0);
    variables.truncate(0);
    let parts = parts_of(spec, case);
    for atom in atoms {
        let touched = touches_by(spec, &parts.first, &parts.second, atom);
        add_variables(atom, touched, variables)?;
        touches.push(touched)?;
    }
    Ok(())
}

/// What a query is about: its hypotheses, their atoms, and the variables of these, in lists that are
/// used again for the next query.
#[derive(Drop)]
pub(crate) struct Subject<'a> {
    target: List<Atom>,
    pub(crate) found: List<Instance<'a>>,
    pub(crate) atoms: List<Atom>,
    pub(crate) slots: Slots,
    counts: List<u64>,
    touches: List<Touches>,
    pub(crate) variables: List<Variable>,
}

impl<'a> Subject<'a> {
    /// Nothing was found yet.
    pub(crate) fn new(alloc: Global) -> Subject<'a> {
        Subject {
            target: List::new(alloc),
            found: List::new(alloc),
            atoms: List::new(alloc),
            slots: Slots::new(alloc),
            counts: List::new(alloc),
            touches: List::new(alloc),
            variables: List::new(alloc),
        }
    }

    /// Finds the hypotheses of the query of a case about the clause at this place, and their atoms:
    /// those that are remembered, or anew.
    fn find_instances(
        &mut self,
        alloc: Global,
        spec: &'a Spec,
        case: &Case,
        place: u32,
        memory: &mut Memory<'a>,
    ) -> Result<(), NoMemory>
        requires well_formed { IsWellFormed spec.now }
        requires over { memory.old ≡ spec.now }
        requires known { CaseKnown spec.now case.now }
        requires clause { place < length spec.now.clauses }
        ensures found { OnOk result (map instance_of self.new.found ≡ cases.case_hypotheses spec.now case.now place) }
        ensures atoms { OnOk result (self.new.atoms ≡ queries.atoms_of (cases.case_hypotheses spec.now case.now place)) }
        ensures same { memory.new ≡ memory.old }
    {
        count_classes(spec, case, &mut self.counts)?;
        let topic = Topic {
            place,
            classes: target_classes(spec, case),
            counts: self.counts.as_slice(),
        };
        if memory.recall(&topic, &mut self.found, &mut self.atoms)? {
            note_places(self.atoms.as_slice(), &mut self.slots)?;
            return Ok(());
        }
        find_hypotheses(spec, case, place, &mut self.target, &mut self.found)?;
        list_atoms(self.found.as_slice(), &mut self.slots, &mut self.atoms)?;
        let found = self.found.as_slice();
        memory.keep(alloc, &topic, found, self.atoms.as_slice())?;
        Ok(())
    }

    /// Finds what the query of a case about the clause at this place is about.
    #[tactic(auto, using(crate::proofs::Bounds::few_made, crate::proofs::Apart::variables_apart))]
    pub(crate) fn find(
        &mut self,
        alloc: Global,
        spec: &'a Spec,
        case: &Case,
        place: u32,
        memory: &mut Memory<'a>,
    ) -> Result<(), NoMemory>
        requires well_formed { IsWellFormed spec.now }
        requires over { memory.old ≡ spec.now }
        requires fits { CaseFits spec.now case.now }
        requires clause { place < length spec.now.clauses }
        ensures found { OnOk result (map instance_of self.new.found ≡ cases.case_hypotheses spec.now case.now place) }
        ensures atoms { OnOk result (self.new.atoms ≡ queries.atoms_of (cases.case_hypotheses spec.now case.now place)) }
        ensures touches { OnOk result (self.new.touches ≡ map (rows.touches_at spec.now (cases.case_sets spec.now case.now)) self.new.atoms) }
        ensures variables { OnOk result (self.new.variables ≡ flat_map (queries.atom_variables spec.now (cases.case_sets spec.now case.now)) self.new.atoms) }
        ensures few { OnOk result (length self.new.variables < 2 ^ 32) }
        ensures apart { OnOk result (AreApart self.new.variables) }
        ensures same { memory.new ≡ memory.old }
    {
        self.find_instances(alloc, spec, case, place, memory)?;
        list_variables(
            spec,
            case,
            self.atoms.as_slice(),
            &mut self.touches,
            &mut self.variables,
        )?;
        Ok(())
    }
}

/// The number of a variable: its place among these.
#[tactic(auto, using(crate::proofs::Building::index_step))]
pub(crate) fn number_of(variables: &[Variable], variable: &Variable) -> usize
    ensures value { result ≡ queries.index_of (queries.same_variable variable.now) variables.now }
    ensures fits { result ≤ length variables.now }
{
    let mut place = 0;
    for other in variables {
        if same_variable(variable, other) {
            return place;
        }
        place += 1;
    }
    place
}

/// A query that is being made: its case and its variables.
#[derive(Clone, Copy)]
pub(crate) struct Asked<'a> {
    pub(crate) spec: &'a Spec,
    pub(crate) case: &'a Case,
    pub(crate) variables: &'a [Variable],
}

/// The clauses of a query that is being made, and lists of earlier clauses that are used again.
#[derive(Drop)]
pub struct Draft {
    pub cnf: Cnf,
    spare: List<List<Lit>>,
}

impl Draft {
    /// No clauses.
    fn new(alloc: Global) -> Draft {
        let clauses = List::new(alloc);
        Draft {
            cnf: Cnf { vars: 0, clauses },
            spare: List::new(alloc),
        }
    }

    /// Takes all clauses away.
    fn clear(&mut self) -> Result<(), NoMemory>
        ensures { OnOk result (self.new.cnf.clauses ≡ []) }
    {
        'clearing: while let Some(clause) = self.cnf.clauses.pop() {
            self.spare.push(clause)?;
        }
        Ok(())
    }

    /// The query that was made.
    fn into_cnf(self) -> Cnf
        ensures { result ≡ self.cnf }
    {
        let Draft { cnf, spare: _ } = self;
        cnf
    }

    /// A list without literals.
    fn fresh(&mut self, alloc: Global) -> List<Lit>
        ensures list { result ≡ [] }
        ensures same { self.new.cnf.clauses ≡ self.old.cnf.clauses }
    {
        match self.spare.pop() {
            Some(clause) => {
                let mut clause = clause;
                clause.truncate(0);
                clause
            }
            None => List::new(alloc),
        }
    }

    /// Appends a clause.
    #[tactic(auto, using(crate::proofs::Building::map_step))]
    fn push(&mut self, alloc: Global, lits: &[KnownLit]) -> Result<(), NoMemory>
        ensures { OnOk result (self.new.cnf.clauses ≡ self.old.cnf.clauses ++ map rows.lit_of lits.now ∷ []) }
    {
        let mut clause = self.fresh(alloc);
        for known in lits {
            clause.push(Lit {
                var: known.number,
                yes: known.lit.yes,
            })?;
        }
        self.cnf.clauses.push(clause)?;
        Ok(())
    }

    /// Appends a clause of these literals, each once.
    #[tactic(auto, using(crate::proofs::ThreeStates::dedup_step))]
    fn push_once(&mut self, alloc: Global, lits: &[Lit]) -> Result<(), NoMemory>
        ensures { OnOk result (self.new.cnf.clauses ≡ self.old.cnf.clauses ++ queries.dedup same_number lits.now ∷ []) }
    {
        let mut clause = self.fresh(alloc);
        for lit in lits {
            if !has_number(*lit, clause.as_slice()) {
                clause.push(*lit)?;
            }
        }
        self.cnf.clauses.push(clause)?;
        Ok(())
    }
}

/// Room for the literals of one hypothesis: in three states at once, and in one where some row isn't
/// found.
#[derive(Drop)]
struct Room {
    three: ThreeStates,
    clause: ClauseRoom,
}

impl Room {
    /// Room without literals.
    fn new(alloc: Global) -> Room {
        Room {
            three: ThreeStates::new(alloc),
            clause: ClauseRoom::new(alloc),
        }
    }
}

/// Appends the clause that was read in a state, if there is one.
fn push_read(alloc: Global, state: &OneState, draft: &mut Draft) -> Result<(), NoMemory>
    ensures { OnOk result (draft.new.cnf.clauses ≡ draft.old.cnf.clauses ++ read_clauses state.now) }
{
    if state.is_true() {
        return Ok(());
    }
    draft.push_once(alloc, state.lits.as_slice())
}

/// Appends the clauses that were read in the three states.
fn push_three(alloc: Global, three: &ThreeStates, draft: &mut Draft) -> Result<(), NoMemory>
    ensures { OnOk result (draft.new.cnf.clauses ≡ ((draft.old.cnf.clauses ++ read_clauses three.now.start) ++ read_clauses three.now.first) ++ read_clauses three.now.second) }
{
    push_read(alloc, &three.start, draft)?;
    push_read(alloc, &three.first, draft)?;
    push_read(alloc, &three.second, draft)?;
    Ok(())
}

/// Appends the form of a hypothesis in a state.
#[tactic(auto, using(crate::proofs::Looking::no_clauses))]
fn add_form(
    alloc: Global,
    looking: &Looking<'_>,
    moment: Moment,
    instance: &Instance<'_>,
    room: &mut ClauseRoom,
    draft: &mut Draft,
) -> Result<(), NoMemory>
    requires { CanLook looking.now }
    ensures { OnOk result (draft.new.cnf.clauses ≡ draft.old.cnf.clauses ++ form_clauses looking.now.asked moment instance.now) }
{
    let classes = instance.classes.as_slice();
    if make_clause(looking, moment, instance.clause, classes, room)? {
        draft.push(alloc, room.once.as_slice())?;
    }
    Ok(())
}

/// Appends the forms of a hypothesis in the first three states, one after the other.
#[tactic(auto, using(crate::proofs::Asking::three_forms))]
fn add_forms(
    alloc: Global,
    looking: &Looking<'_>,
    instance: &Instance<'_>,
    room: &mut ClauseRoom,
    draft: &mut Draft,
) -> Result<(), NoMemory>
    requires { CanLook looking.now }
    ensures { OnOk result (draft.new.cnf.clauses ≡ draft.old.cnf.clauses ++ instance_clauses looking.now.asked instance.now) }
{
    add_form(alloc, looking, Moment::Start, instance, room, draft)?;
    add_form(alloc, looking, Moment::First, instance, room, draft)?;
    add_form(alloc, looking, Moment::Second, instance, room, draft)?;
    Ok(())
}

/// Appends the forms of a hypothesis in the first three states.
#[tactic(auto, using(crate::proofs::ThreeStates::three_read, crate::proofs::Asking::three_forms))]
fn add_hypothesis(
    alloc: Global,
    looking: &Looking<'_>,
    instance: &Instance<'_>,
    room: &mut Room,
    draft: &mut Draft,
) -> Result<(), NoMemory>
    requires { CanLook looking.now }
    ensures { OnOk result (draft.new.cnf.clauses ≡ draft.old.cnf.clauses ++ instance_clauses looking.now.asked instance.now) }
{
    if room.three.read(looking, instance)? {
        push_three(alloc, &room.three, draft)
    } else {
        add_forms(alloc, looking, instance, &mut room.clause, draft)
    }
}

/// Appends the forms of all hypotheses.
#[tactic(auto, using(crate::proofs::Asking::instances_step))]
fn add_hypotheses(
    alloc: Global,
    looking: &Looking<'_>,
    instances: &[Instance<'_>],
    room: &mut Room,
    draft: &mut Draft,
) -> Result<(), NoMemory>
    requires { CanLook looking.now }
    ensures { OnOk result (draft.new.cnf.clauses ≡ draft.old.cnf.clauses ++ flat_map (instance_clauses looking.now.asked) instances.now) }
{
    for instance in instances {
        add_hypothesis(alloc, looking, instance, room, draft)?;
    }
    Ok(())
}

/// The literal that the atom of a row has its winning value in a state, or that it hasn't.
#[tactic(auto, using(crate::proofs::Looking::own_number))]
fn row_lit(asked: &Asked<'_>, row: &Row, moment: Moment, yes: bool) -> KnownLit
    requires can { CanAsk asked.now }
    requires row { IsRow asked.now row.now }
    ensures lit { result.lit ≡ queries.state_lit (queries.variable row.now.atom moment) yes }
    ensures number { IsNumbered asked.now.variables.now result }
{
    let atom = row.atom;
    let var = Variable { atom, moment };
    let number = match seen_in(row, moment) {
        Seen::Same {
            moment: same,
            number,
        } if same_moment(moment, same) => number,
        _ => number_of(asked.variables, &var) as u32,
    };
    let lit = StateLit { var, yes };
    KnownLit { lit, number }
}

/// Appends the clause that an atom which wins in one state wins in another.
#[tactic(auto, using(crate::proofs::Looking::rise_numbered))]
fn push_rise(
    alloc: Global,
    asked: &Asked<'_>,
    row: &Row,
    from: Moment,
    to: Moment,
    draft: &mut Draft,
) -> Result<(), NoMemory>
    requires can { CanAsk asked.now }
    requires row { IsRow asked.now row.now }
    ensures { OnOk result (draft.new.cnf.clauses ≡ draft.old.cnf.clauses ++ map (queries.numbered asked.now.variables.now) (queries.rise_clause row.now.atom (stable.rise from to)) ∷ []) }
{
    let before = row_lit(asked, row, from, false);
    let after = row_lit(asked, row, to, true);
    draft.push(alloc, &[before, after])
}

/// Appends the clauses of an atom that both operations set to the losing value.
#[tactic(auto, using(crate::proofs::Asking::four_rises))]
fn push_four_rises(
    alloc: Global,
    asked: &Asked<'_>,
    row: &Row,
    draft: &mut Draft,
) -> Result<(), NoMemory>
    requires can { CanAsk asked.now }
    requires row { IsRow asked.now row.now }
    ensures { OnOk result (draft.new.cnf.clauses ≡ draft.old.cnf.clauses ++ rise_clauses asked.now row.now.atom (stable.rises Loses Loses)) }
{
    push_rise(alloc, asked, row, Moment::First, Moment::Start, draft)?;
    push_rise(alloc, asked, row, Moment::Second, Moment::Start, draft)?;
    push_rise(alloc, asked, row, Moment::Both, Moment::First, draft)?;
    push_rise(alloc, asked, row, Moment::Both, Moment::Second, draft)?;
    Ok(())
}

/// Appends the clauses of the table for the atom of a row.
fn add_row(alloc: Global, asked: &Asked<'_>, row: &Row, draft: &mut Draft) -> Result<(), NoMemory>
    requires can { CanAsk asked.now }
    requires row { IsRow asked.now row.now }
    ensures { OnOk result (draft.new.cnf.clauses ≡ draft.old.cnf.clauses ++ row_clauses asked.now row.now.atom) }
{
    match (row.touches.first, row.touches.second) {
        (Touch::Loses, Touch::Loses) => push_four_rises(alloc, asked, row, draft),
        (Touch::Loses, _) => push_rise(alloc, asked, row, Moment::First, Moment::Start, draft),
        (_, Touch::Loses) => push_rise(alloc, asked, row, Moment::Second, Moment::Start, draft),
        _ => Ok(()),
    }
}

/// Appends the clauses of the table for the atoms of these rows.
#[tactic(auto, using(crate::proofs::Apart::row_at, crate::proofs::Apart::rows_step))]
fn add_rows(
    alloc: Global,
    asked: &Asked<'_>,
    rows: &[Row],
    draft: &mut Draft,
) -> Result<(), NoMemory>
    requires can { CanAsk asked.now }
    requires rows { AllByRecursion (IsRow asked.now) rows.now }
    ensures { OnOk result (draft.new.cnf.clauses ≡ draft.old.cnf.clauses ++ flat_map (row_clauses asked.now) (map row_atom rows.now)) }
{
    for row in rows {
        add_row(alloc, asked, row, draft)?;
    }
    Ok(())
}

/// Appends that a literal of the target is false with both, where it is an atom.
#[tactic(auto, using(crate::proofs::Looking::denial_made, crate::proofs::Looking::denial_open))]
fn add_denial(
    alloc: Global,
    looking: &Looking<'_>,
    sign: bool,
    literal: &Literal,
    classes: &[u32],
    draft: &mut Draft,
) -> Result<(), NoMemory>
    requires { CanLook looking.now }
    ensures { OnOk result (draft.new.cnf.clauses ≡ draft.old.cnf.clauses ++ denial_clauses looking.now.asked classes.now sign literal.now) }
{
    let Literal::Atom { .. } = literal else {
        return Ok(());
    };
    match literal_form(looking, Moment::Both, sign, literal, classes) {
        KnownForm::Certain(true) => draft.push(alloc, &[]),
        KnownForm::Certain(false) => Ok(()),
        KnownForm::Open(lit) => draft.push(alloc, &[denied(&lit)]),
    }
}

/// Appends that these literals of the target are false with both.
#[tactic(auto, using(crate::proofs::Building::flat_step))]
fn add_denials(
    alloc: Global,
    looking: &Looking<'_>,
    sign: bool,
    literals: &[Literal],
    classes: &[u32],
    draft: &mut Draft,
) -> Result<(), NoMemory>
    requires { CanLook looking.now }
    ensures { OnOk result (draft.new.cnf.clauses ≡ draft.old.cnf.clauses ++ flat_map (denial_clauses looking.now.asked classes.now sign) literals.now) }
{
    for literal in literals {
        add_denial(alloc, looking, sign, literal, classes, draft)?;
    }
    Ok(())
}

/// Appends that all atoms of the target are false with both.
fn add_target(
    alloc: Global,
    looking: &Looking<'_>,
    target: &Clause,
    classes: &[u32],
    draft: &mut Draft,
) -> Result<(), NoMemory>
    requires { CanLook looking.now }
    ensures { OnOk result (draft.new.cnf.clauses ≡ (draft.old.cnf.clauses ++ flat_map (denial_clauses looking.now.asked classes.now false) target.now.premise) ++ flat_map (denial_clauses looking.now.asked classes.now true) target.now.conclusion) }
{
    add_denials(
        alloc,
        looking,
        false,
        target.premise.as_slice(),
        classes,
        draft,
    )?;
    add_denials(
        alloc,
        looking,
        true,
        target.conclusion.as_slice(),
        classes,
        draft,
    )?;
    Ok(())
}

/// The clauses of the query about the clause at this place, in place of those before.
fn make_query(
    alloc: Global,
    looking: &Looking<'_>,
    place: u32,
    subject: &Subject<'_>,
    room: &mut Room,
    draft: &mut Draft,
) -> Result<(), NoMemory>
    requires can { CanLook looking.now }
    requires clause { place < length looking.now.asked.spec.now.clauses }
    requires rows { map row_atom looking.now.rows.now ≡ subject.now.atoms }
    requires found { map instance_of subject.now.found ≡ cases.case_hypotheses looking.now.asked.spec.now looking.now.asked.case.now place }
    requires once { subject.now.atoms ≡ queries.atoms_of (cases.case_hypotheses looking.now.asked.spec.now looking.now.asked.case.now place) }
    requires own { looking.now.asked.variables.now ≡ flat_map (queries.atom_variables looking.now.asked.spec.now (sets_in looking.now.asked)) subject.now.atoms }
    ensures { OnOk result (draft.new.cnf.clauses ≡ cases.query_of looking.now.asked.spec.now looking.now.asked.case.now place) }
{
    let target = clause_at(looking.asked.spec, place);
    let classes = target_classes(looking.asked.spec, looking.asked.case);
    draft.clear()?;
    add_hypotheses(alloc, looking, subject.found.as_slice(), room, draft)?;
    add_rows(alloc, &looking.asked, looking.rows, draft)?;
    add_target(alloc, looking, target, classes, draft)?;
    Ok(())
}

/// Room in which queries of one specification are made, one after another: each takes the lists that
/// the last one had, and the hypotheses that are remembered.
#[derive(Drop)]
pub struct Queries<'a> {
    /// The specification, as contracts see it.
    pub over: Memory<'a>,
    /// The query that was made last.
    pub draft: Draft,
    subject: Subject<'a>,
    rows: List<Row>,
    room: Room,
}

impl<'a> Queries<'a> {
    /// Room that has no lists yet. It takes no memory.
    pub fn new(alloc: Global, spec: &'a Spec) -> Queries<'a>
        ensures { result.over ≡ spec.now }
    {
        Queries {
            over: Memory::new(alloc, spec),
            draft: Draft::new(alloc),
            subject: Subject::new(alloc),
            rows: List::new(alloc),
            room: Room::new(alloc),
        }
    }

    /// Makes the query about the clause at this place.
    #[tactic(auto, using(crate::proofs::Asking::made_vars))]
    fn make_clause_query(
        &mut self,
        alloc: Global,
        spec: &'a Spec,
        case: &Case,
        place: u32,
    ) -> Result<(), NoMemory>
        requires well_formed { IsWellFormed spec.now }
        requires over { self.old.over ≡ spec.now }
        requires fits { CaseFits spec.now case.now }
        requires clause { place < length spec.now.clauses }
        ensures made { OnOk result (self.new.draft.cnf ≡ cases.clause_cnf spec.now case.now place) }
        ensures same { self.new.over ≡ self.old.over }
    {
        self.subject.find(alloc, spec, case, place, &mut self.over)?;
        let subject = &self.subject;
        let variables = subject.variables.as_slice();
        let vars = variables.len() as u32;
        let asked = Asked {
            spec,
            case,
            variables,
        };
        list_rows(
            &asked,
            subject.atoms.as_slice(),
            subject.touches.as_slice(),
            &mut self.rows,
        )?;
        let looking = Looking {
            asked,
            rows: self.rows.as_slice(),
            slots: &subject.slots,
        };
        make_query(
            alloc,
            &looking,
            place,
            subject,
            &mut self.room,
            &mut self.draft,
        )?;
        self.draft.cnf.vars = vars;
        Ok(())
    }

    /// Makes the query of a case, as `query` gives it, in place of the last one. Whatever a call left
    /// here, also one that wanted memory, the next query is that of its case.
    #[tactic(auto, using(crate::proofs::Speaking::query_speaks))]
    pub fn make(&mut self, alloc: Global, spec: &'a Spec, case: &Case) -> Result<(), NoMemory>
        requires well_formed { IsWellFormed spec.now }
        requires over { self.old.over ≡ spec.now }
        requires fits { CaseFits spec.now case.now }
        ensures value { OnOk result (self.new.draft.cnf ≡ cases.cnf_of spec.now case.now) }
        ensures own { cases.is_touched_case spec.now case.now ≡ true → SpeaksOf (cases.cnf_of spec.now case.now).vars (cases.cnf_of spec.now case.now).clauses }
        ensures same { self.new.over ≡ self.old.over }
    {
        match case.target {
            Target::Clause(place) => self.make_clause_query(alloc, spec, case, place),
            Target::Locked(_) => {
                self.draft.clear()?;
                self.draft.cnf.vars = 0;
                Ok(())
            }
        }
    }
}

/// The query of a case about a clause. A model of it is a way in which the two operations, each
/// harmless alone, make the clause false together.
#[tactic(auto, using(crate::proofs::Speaking::query_speaks))]
pub fn query(alloc: Global, spec: &Spec, case: &Case) -> Result<Cnf, NoMemory>
    requires well_formed { IsWellFormed spec.now }
    requires fits { CaseFits spec.now case.now }
    ensures value { IfOk result (λ cnf. cnf ≡ cases.cnf_of spec.now case.now) }
    ensures own { cases.is_touched_case spec.now case.now ≡ true → SpeaksOf (cases.cnf_of spec.now case.now).vars (cases.cnf_of spec.now case.now).clauses }
{
    let mut queries = Queries::new(alloc, spec);
    queries.make(alloc, spec, case)?;
    let Queries { draft, .. } = queries;
    Ok(draft.into_cnf())
}

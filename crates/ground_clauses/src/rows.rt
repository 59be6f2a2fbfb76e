//! What a query says of its atoms, found once for each.

ghost use Rattle.std.specs.Prelude.{◌≡◌, ◌≤◌, ◌<◌, ◌^◌, [], length, map, OnOk};
ghost use Rattle.std.specs.List.{AllByRecursion};
ghost use Rattle.spec_model.specs.declared.state.Entry.{Entry as OneEntry};
ghost use Rattle.spec_model.specs.declared.state.Moment.TheVariants as moments;
ghost use Rattle.ground_clauses.specs.Asking.{CanAsk, sets_in};
ghost use Rattle.ground_clauses.specs.Query as queries;
ghost use Rattle.spec_model.specs.Stable as stable;
ghost use Rattle.ground_clauses.specs.Rows.{AreApart, HasNumber, IsRow, entry_seen, row_atom, seen_at, touches_at};

use crate::literals::{same_moment, same_variable};
use crate::queries::{Asked, number_of};
use crate::slots::Slots;
use crate::state_lit::Variable;
use crate::table::{Touches, entry, touches_in, winner};
use ind_base::{List, NoMemory};
use spec_model::{Atom, Entry, Moment, Touch};

/// An atom's truth in a state: the winning one for certain, or that of the variable of this state,
/// which has this number.
#[derive(Clone, Copy)]
pub(crate) enum Seen {
    Always,
    Same { moment: Moment, number: u32 },
}

/// An atom of a query, the truth that wins there, what the operations do to it, and what it is in
/// the four states.
#[derive(Clone, Copy)]
pub(crate) struct Row {
    pub(crate) atom: Atom,
    pub(crate) wins: bool,
    pub(crate) touches: Touches,
    pub(crate) start: Seen,
    pub(crate) first: Seen,
    pub(crate) second: Seen,
    pub(crate) both: Seen,
}

/// What an atom is in the first three states.
#[derive(Clone, Copy)]
struct Earlier {
    start: Seen,
    first: Seen,
    second: Seen,
}

/// The number of a variable, which is looked for from this place on first.
#[tactic(auto, using(crate::proofs::Apart::number_at))]
fn number_from(variables: &[Variable], variable: &Variable, near: usize) -> usize
    requires { AreApart variables.now }
    ensures value { result ≡ queries.index_of (queries.same_variable variable.now) variables.now }
    ensures fits { result ≤ length variables.now }
{
    for place in near..variables.len() {
        if same_variable(variable, &variables[place]) {
            return place;
        }
    }
    number_of(variables, variable)
}

/// What an atom with this entry of the table is.
fn see(variables: &[Variable], atom: &Atom, entry: Entry, near: usize) -> Seen
    requires apart { AreApart variables.now }
    requires few { length variables.now < 2 ^ 32 }
    ensures entry { entry_seen result ≡ entry }
    ensures number { HasNumber variables.now atom.now result }
{
    match entry {
        Entry::Always => Seen::Always,
        Entry::Same(moment) => {
            let variable = Variable {
                atom: *atom,
                moment,
            };
            let number = number_from(variables, &variable, near) as u32;
            Seen::Same { moment, number }
        }
    }
}

/// The place behind the variable of this state, or the place that is given.
fn place_behind(seen: Seen, place: usize) -> usize {
    match seen {
        Seen::Always => place,
        Seen::Same { number, .. } => place.max(number as usize + 1),
    }
}

/// What an atom with this entry of the table is, where this is seen of it already.
#[tactic(auto, using(crate::proofs::Apart::seen_again))]
fn see_next(variables: &[Variable], atom: &Atom, entry: Entry, known: Seen, near: usize) -> Seen
    requires apart { AreApart variables.now }
    requires few { length variables.now < 2 ^ 32 }
    requires known { HasNumber variables.now atom.now known }
    ensures entry { entry_seen result ≡ entry }
    ensures number { HasNumber variables.now atom.now result }
{
    match (entry, known) {
        (Entry::Same(moment), Seen::Same { moment: same, .. }) if same_moment(moment, same) =>
            known,
        _ => see(variables, atom, entry, near),
    }
}

/// What an atom with this entry of the table is with both operations, where this is seen of it
/// already: mostly what it is with the one that does something to it.
fn see_both(
    variables: &[Variable],
    atom: &Atom,
    touches: Touches,
    earlier: &Earlier,
    near: usize,
) -> Seen
    requires apart { AreApart variables.now }
    requires few { length variables.now < 2 ^ 32 }
    requires start { HasNumber variables.now atom.now earlier.now.start }
    requires first { HasNumber variables.now atom.now earlier.now.first }
    requires second { HasNumber variables.now atom.now earlier.now.second }
    ensures entry { entry_seen result ≡ stable.entry touches.first touches.second moments.Both }
    ensures number { HasNumber variables.now atom.now result }
{
    let Touches { first, second } = touches;
    let both = entry(first, second, Moment::Both);
    match (first, second) {
        (Touch::Leaves, Touch::Leaves) => see_next(variables, atom, both, earlier.start, near),
        (_, Touch::Leaves) => see_next(variables, atom, both, earlier.first, near),
        _ => see_next(variables, atom, both, earlier.second, near),
    }
}

/// The row of an atom, to which the operations do this, and whose variables are looked for from this
/// place on first. In most states it is what it is at the start.
fn row_of(asked: &Asked<'_>, atom: &Atom, touches: Touches, near: usize) -> Row
    requires can { CanAsk asked.now }
    requires apart { AreApart asked.now.variables.now }
    requires first { touches.first ≡ stable.touch_of (queries.winner asked.now.spec.now atom.now) ((sets_in asked.now).one atom.now.pred atom.now.args) }
    requires second { touches.second ≡ stable.touch_of (queries.winner asked.now.spec.now atom.now) ((sets_in asked.now).other atom.now.pred atom.now.args) }
    ensures row { IsRow asked.now result }
    ensures atom { result.atom ≡ atom.now }
{
    let variables = asked.variables;
    let Touches { first, second } = touches;
    let start = see(variables, atom, entry(first, second, Moment::Start), near);
    let behind = place_behind(start, near);
    let one = see_next(
        variables,
        atom,
        entry(first, second, Moment::First),
        start,
        behind,
    );
    let behind = place_behind(one, behind);
    let other = see_next(
        variables,
        atom,
        entry(first, second, Moment::Second),
        start,
        behind,
    );
    let behind = place_behind(other, behind);
    let earlier = Earlier {
        start,
        first: one,
        second: other,
    };
    let both = see_both(variables, atom, touches, &earlier, behind);
    Row {
        atom: *atom,
        touches,
        wins: winner(asked.spec, atom.pred),
        start,
        first: one,
        second: other,
        both,
    }
}

/// The row of an atom that isn't listed.
pub(crate) fn new_row(asked: &Asked<'_>, atom: &Atom) -> Row
    requires can { CanAsk asked.now }
    requires apart { AreApart asked.now.variables.now }
    ensures row { IsRow asked.now result }
    ensures atom { result.atom ≡ atom.now }
{
    row_of(asked, atom, touches_in(asked.spec, asked.case, atom), 0)
}

/// What the atom of a row is in a state.
pub(crate) fn seen_in(row: &Row, moment: Moment) -> Seen
    ensures { result ≡ seen_at row.now moment }
{
    match moment {
        Moment::Start => row.start,
        Moment::First => row.first,
        Moment::Second => row.second,
        Moment::Both => row.both,
    }
}

/// The place behind the variables of a row, or the place that is given.
fn next_place(row: &Row, place: usize) -> usize {
    let place = place_behind(row.start, place);
    let place = place_behind(row.first, place);
    let place = place_behind(row.second, place);
    place_behind(row.both, place)
}

/// Lists the rows of these atoms, to which the operations do this, in place of those listed before.
#[tactic(auto, using(crate::proofs::Apart::rows_more, crate::proofs::Apart::place_touched, crate::proofs::Apart::first_at, crate::proofs::Apart::second_at))]
pub(crate) fn list_rows(
    asked: &Asked<'_>,
    atoms: &[Atom],
    touches: &[Touches],
    rows: &mut List<Row>,
) -> Result<(), NoMemory>
    requires can { CanAsk asked.now }
    requires apart { AreApart asked.now.variables.now }
    requires touched { touches.now ≡ map (touches_at asked.now.spec.now (sets_in asked.now)) atoms.now }
    ensures rows { OnOk result (AllByRecursion (IsRow asked.now) rows.new) }
    ensures atoms { OnOk result (map row_atom rows.new ≡ atoms.now) }
{
    rows.truncate(0);
    let mut near = 0;
    for place in 0..atoms.len() {
        let row = row_of(asked, &atoms[place], touches[place], near);
        near = next_place(&row, near);
        rows.push(row)?;
    }
    Ok(())
}

/// A query that is being made, with the rows of its atoms. The slots name the place of an atom's row.
#[derive(Clone, Copy)]
pub(crate) struct Looking<'a> {
    pub(crate) asked: Asked<'a>,
    pub(crate) rows: &'a [Row],
    pub(crate) slots: &'a Slots,
}

//! Specifications by their lines.

ghost use Rattle.std.specs.Prelude.{IfOk};
ghost use Rattle.spec_model.specs.Fits.{IsWellFormed};

use ind_base::List;
use line_text::ParseError;
use spec_language::parse_spec;
use spec_model::Spec;
use std::alloc::Global;

/// A hall of two rooms with eight slots each.
pub(crate) const HALL: [&str; 20] = [
    "sort room 2",
    "sort slot 8",
    "pred booked(room,slot) add_wins",
    "pred open(room) add_wins",
    "num left(room) init 3 min 0 max 3",
    "num sold() init 0",
    "clause (r:room,s:slot) booked(r,s) => open(r)",
    "op book(r:room,i:slot interval)",
    "set booked(r,i)",
    "sub 2 left(r)",
    "add 1 sold()",
    "add 1 left(r)",
    "op keep(r:room,i:slot interval)",
    "clear booked(r,*)",
    "set booked(r,i)",
    "op unlock(r:room)",
    "set open(r)",
    "op swap(r:room,q:room)",
    "sub 1 left(r)",
    "add 1 left(q)",
];

/// A tournament: who enrolls, and who is taken off the lists.
pub(crate) const CUP: [&str; 13] = [
    "sort person 2",
    "sort cup 2",
    "pred player(person) remove_wins true",
    "pred listed(cup) remove_wins true",
    "pred enrolled(person,cup) add_wins",
    "clause (p:person,t:cup) enrolled(p,t) => player(p)",
    "clause (p:person,t:cup) enrolled(p,t) => listed(t)",
    "op enroll(p:person,t:cup)",
    "set enrolled(p,t)",
    "op remPlayer(p:person)",
    "clear player(p)",
    "op remCup(t:cup)",
    "clear listed(t)",
];

/// Members come and go by a locked predicate.
pub(crate) const CLUB: [&str; 9] = [
    "sort person 2",
    "pred open() add_wins",
    "pred member(person) locked",
    "op join(p:person)",
    "set member(p)",
    "op leave(p:person)",
    "clear member(p)",
    "op close()",
    "clear open()",
];

/// Harmless, with up to seven classes of one sort, whose queries have a variable for each triple.
pub(crate) const WIDE: [&str; 6] = [
    "sort s 16",
    "pred q() add_wins",
    "pred p(s,s,s) add_wins",
    "clause (x:s,y:s,z:s) q() and p(x,y,z) =>",
    "op f(a:s,b:s)",
    "set q()",
];

/// The same behind a clause that two of them can make false.
pub(crate) const LATER: [&str; 10] = [
    "sort s 16",
    "pred q() add_wins",
    "pred p(s,s,s) add_wins",
    "pred e() add_wins",
    "pred g() add_wins true",
    "clause () e() => g()",
    "clause (x:s,y:s,z:s) q() and p(x,y,z) =>",
    "op f(a:s,b:s)",
    "set q()",
    "clear g()",
];

/// The specification of these lines, or the first line that is refused.
pub(crate) fn spec_of(alloc: Global, lines: &[&str]) -> Result<Spec, ParseError>
    ensures { IfOk result (λ s. IsWellFormed s) }
{
    let mut texts = List::new(alloc);
    for line in lines {
        let Ok(text) = List::from_slice(alloc, line.as_bytes()) else {
            return Err(ParseError::Memory);
        };
        if texts.push(text).is_err() {
            return Err(ParseError::Memory);
        }
    }
    if texts.len() > 1000 {
        return Err(ParseError::Memory);
    }
    parse_spec(alloc, texts.as_slice())
}

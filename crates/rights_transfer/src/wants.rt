//! What a replica lacked.

ghost use Rattle.std.specs.Prelude.{◌≡◌, ◌<◌, ◌≤◌, ◌++◌, ◌∷◌, [], IfOk, if◌then◌else◌, length, remove};
ghost use Rattle.std.specs.List.{list_any};
ghost use Rattle.run_model.specs.Rights as rights;
ghost use Rattle.run_model.specs.Wants as wanted;

use ind_base::NoMemory;
use spec_model::{Right, Want};
use std::alloc::Global;
use std::marker::Model;

/// The most wants that are kept.
const WANTS: usize = 8;

/// Whether the two are one right.
fn same_right(a: &Right, b: &Right) -> bool
    ensures { result ≡ rights.same_right a.now b.now }
{
    a == b
}

/// Whether a want on this right is among them.
fn is_wanted(wants: &[Want], right: &Right) -> bool
    ensures { result ≡ list_any (wanted.is_on right.now) wants.now }
{
    for want in wants {
        if same_right(&want.right, right) {
            return true;
        }
    }
    false
}

/// A want, or the new one in its place if that is on the same right.
fn instead_of(old: &Want, want: &Want) -> Want
    ensures { result ≡ (if wanted.is_on want.now.right old.now then want.now else old.now) }
{
    if same_right(&old.right, &want.right) {
        *want
    } else {
        *old
    }
}

/// What a replica lacked: at most eight wants, for which there is always room.
#[derive(Drop)]
pub struct Wants {
    items: Vec<Want>,
}

impl Model for Wants {
    ghost use Rattle.std.specs.Prelude.{◌≤◌, List, length, vec_capacity};
    ghost use Rattle.spec_model.specs.declared.right.Want.{Want as WantOf};

    ghost Value = { List WantOf };

    ghost view = { λ w. w.items.items };

    ghost invariant = { λ w. (length w.items.items ≤ 8) × (8 ≤ vec_capacity w.items) };
}

impl Wants {
    /// No wants, and room for eight.
    pub fn begin(alloc: Global) -> Result<Wants, NoMemory>
        ensures { IfOk result (λ w. w ≡ []) }
    {
        let items = Vec::with_capacity(alloc, WANTS)?;
        Ok(Wants { items })
    }

    /// The wants in their order.
    pub fn list(&self) -> &[Want]
        ensures value { result.now ≡ self.now }
        ensures few { length result.now ≤ 8 }
    {
        self.items.as_slice()
    }

    /// Takes the want at a place out. The others keep their order.
    pub fn drop_at(&mut self, place: u32)
        requires { place < length self.old }
        ensures { self.new ≡ remove self.old place }
    {
        self.items.remove(place as usize);
    }

    /// Replaces those on the same right.
    fn replace(&mut self, want: &Want)
        ensures { self.new ≡ wanted.replaced self.old want.now }
    {
        for k in 0..self.list().len() {
            self.items[k] = instead_of(&self.items[k], want);
        }
    }

    /// Puts one at the end; of more than eight the first is dropped.
    fn put_behind(&mut self, want: &Want)
        ensures { self.new ≡ wanted.behind self.old want.now }
    {
        if self.items.len() == WANTS {
            self.items.remove(0);
        }
        let _so_far = self.items.as_slice();
        match self.items.push(*want) {
            Ok(()) => {}
            Err(_) => unreachable!(),
        }
    }

    /// Notes a want: it takes the place of one on the same right, and else goes last, where of more
    /// than eight the first is dropped.
    pub fn note_want(&mut self, want: Want)
        ensures { self.new ≡ wanted.noted self.old want }
    {
        if is_wanted(self.items.as_slice(), &want.right) {
            self.replace(&want);
        } else {
            self.put_behind(&want);
        }
    }
}

//! A walk over the tuples at which something is listed, in lexicographic order.

ghost use Rattle.std.specs.Prelude.{◌≡◌, ◌≤◌, ◌<◌, ◌+◌, ◌++◌, ◌∷◌, [], length, List as Numbers, ℕ, OnOk};
ghost use Rattle.std.specs.List.{flat_map};
ghost use Rattle.spec_model.specs.Truths.{Within};
ghost use Rattle.spec_model.specs.Universe.{tuples};

use ind_base::{Args, List, NoMemory};

/// What is listed of each tuple.
pub(crate) trait Listing {
    type Item: Drop;

    ghost fits: { Self → Numbers ℕ → Type 0 };

    ghost listed: { Self → Numbers ℕ → Numbers Self.Item };

    /// The first element, from this one on, behind which tuples have to be looked at.
    fn next(&self, front: &[u32], from: u32) -> u32
        ensures later { from ≤ result }
        ensures untouched { (x : ℕ) → from ≤ x → x < result → (behind : Numbers ℕ) → listed self.now (front.now ++ x ∷ behind) ≡ [] };

    /// Appends what is listed of one tuple.
    fn list(&self, args: &Args, out: &mut List<Self::Item>) -> Result<(), NoMemory>
        requires { fits self.now args.now }
        ensures { OnOk result (out.new ≡ out.old ++ listed self.now args.now) };
}

/// Appends what is listed of each tuple that begins with these elements.
pub(crate) fn walk<L: Listing>(
    listing: &L,
    front: Args,
    sizes: &[u32],
    out: &mut List<L::Item>,
) -> Result<(), NoMemory>
    requires fits { (behind : Numbers ℕ) → Within (λ s. s) sizes.now behind → L.fits listing.now (front ++ behind) }
    requires few { length front + length sizes.now ≤ 4 }
    ensures { OnOk result (out.new ≡ out.old ++ flat_map (λ behind. L.listed listing.now (front ++ behind)) (tuples sizes.now)) }
{
    if sizes.is_empty() {
        return listing.list(&front, out);
    }
    let (first, others) = sizes.split_at(1);
    let size = first[0];
    let mut x = 0;
    for _turn in 0..size {
        let next = listing.next(front.as_slice(), x);
        if next >= size {
            return Ok(());
        }
        let mut longer = front;
        longer.push(next);
        walk(listing, longer, others, out)?;
        x = next + 1;
    }
    Ok(())
}

//! Effects of operations: the places of atoms and cells, what an instance changes, and what it breaks.
#![tactic(auto)]

mod acting;
mod block;
mod breaking;
mod change;
mod effects;
mod escrow;
mod fitting;
mod keys;
mod laws;
mod layout;
mod map;
mod masking;
mod needing;
mod next;
mod places;
mod pruning;
mod right_list;
mod rights;
mod state;
mod touching;
mod truth;
mod visit;
mod walk;

pub use acting::{inst_sets, net_change};
pub use breaking::breaks;
pub use change::{AtomChange, CellChange, Change};
pub use effects::effect;
pub use escrow::escrow_needs;
pub use fitting::{atom_fits, cell_fits, inst_fits};
pub use keys::key_of;
pub use laws::{changes_are_small, plain_needs_are_fixed, universe_is_all};
pub use layout::sort_sizes;
pub use map::Places;
pub use needing::{all_needs, needs, witnesses};
pub use next::{next_changed, next_set};
pub use places::{atom_at, atom_count, atom_place, cell_at, cell_count, cell_place};
pub use right_list::all_rights;
pub use rights::right_fits;
pub use state::{State, initial};
pub use touching::{cell_named, lines_of};
pub use truth::Truth;
pub use visit::{Visiting, visit_all};

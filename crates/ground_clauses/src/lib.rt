//! Cases of pairs of operations, their queries, and what a right derivation shows of them.
#![tactic(auto)]

mod case;
mod clauses;
mod counting;
mod instances;
mod laws;
mod listing;
mod literals;
mod memory;
mod pattern;
mod places;
mod queries;
mod reach;
mod reached;
mod rows;
mod slots;
mod state_lit;
mod states;
mod table;
mod three_states;
mod touched;
mod walk;

pub use case::{Case, Target};
pub use clauses::{Cnf, Derivation, Lit, Step};
pub use counting::case_count;
pub use laws::{case_keeps, has_its_case, model_shows, no_model, refuted_holds};
pub use listing::cases;
pub use memory::Memory;
pub use pattern::classes_in;
pub use queries::{Draft, Queries, query};
pub use reach::has_bit;
pub use states::{AtomStates, atom_states};
pub use touched::{first_class, first_classes, second_class, second_classes, target_classes};
pub use walk::Cases;

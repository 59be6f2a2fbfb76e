//! Going over the touched cases of two operations.

ghost use Rattle.std.specs.Prelude.{◌≡◌};

use crate::case::Case;
use ind_base::List;
use std::marker::Model;

/// The touched cases that are still to come, in canonical order.
#[derive(Drop)]
pub struct Cases {
    items: List<Case>,
    at: usize,
}

impl Model for Cases {
    ghost use Rattle.std.specs.Prelude.{List, drop};
    ghost use Rattle.ground_clauses.specs.declared.case.Case.{Case};

    ghost Value = { List Case };

    ghost view = { λ s. drop s.at s.items };
}

impl Cases {
    /// All of these cases.
    pub(crate) fn over(items: List<Case>) -> Cases
        ensures { result ≡ items }
    {
        Cases { items, at: 0 }
    }
}

impl Iterator for Cases {
    ghost use Rattle.std.specs.Iterator.{YieldsFirst, item_count};

    type Item = Case;

    ghost next_gives = { YieldsFirst (λ left. left) };

    ghost remaining = { item_count (λ left. left) };

    #[tactic(auto, using(crate::proofs::Reaches::next_item, crate::proofs::Reaches::none_left))]
    fn next(&mut self) -> Option<Case> {
        let items = self.items.as_slice();
        if self.at < items.len() {
            let case = items[self.at];
            self.at += 1;
            Some(case)
        } else {
            None
        }
    }
}

//! Points as a kind of right.

use crate::edits::{add, take_out};
use crate::points::Points;
use crate::runs::{count_in, size_of};
use ind_base::{GiveError, NoMemory, RightKind, Span};

impl RightKind for Points {
    ghost use Rattle.std.specs.Prelude.{length};
    ghost use Rattle.run_model.specs.Points.{points_of};
    ghost use Rattle.partition_locks.specs.Held as held;

    type Ask = Span;

    type Piece = Span;

    ghost permits = { λ h span. held.holds_all h span };

    ghost counted = { λ h x. held.held_times h x };

    ghost counted_of = { λ span x. held.point_times span x };

    ghost held_of = { λ h span. held.held_in h span };

    ghost size = { λ span. length (points_of span) };

    ghost may_give = { λ h span. Unit {0} };

    ghost may_accept = { λ h span. held.IsFree h span };

    ghost given = { λ h span new. held.HoldsLess h span new };

    ghost accepted = { λ h span new. held.HoldsMore h span new };

    ghost spent = { λ h span. h };

    ghost room = { λ h. h.spare };

    fn can(&self, span: &Span) -> bool {
        self.first_missing(span).is_none()
    }

    fn give(&mut self, span: &Span) -> Result<(), GiveError> {
        let have = count_in(self.items.as_slice(), span);
        if have < size_of(span) {
            return Err(GiveError::Lacks { have });
        }
        if span.lo > span.hi {
            return Ok(());
        }
        match take_out(&mut self.items, span) {
            Ok(()) => Ok(()),
            Err(NoMemory) => Err(GiveError::Memory),
        }
    }

    fn accept(&mut self, span: &Span) -> Result<(), NoMemory> {
        if span.lo > span.hi {
            return Ok(());
        }
        add(&mut self.items, span)
    }

    fn spend(&mut self, _span: &Span) {}
}

//! What the answers to one specification are to one another: a law, which runs nothing.

ghost use Rattle.plan_answers.specs.Laws.{PlannedIsChecked};

use certificate_check::text_is_read_again;

/// The lines that an analysis prints are a plan and a certificate that check.
pub fn planned_is_checked()
    ensures { PlannedIsChecked }
{
    text_is_read_again();
}

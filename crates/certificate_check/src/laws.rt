//! What a certificate that checks shows of instances: laws, which run nothing.

ghost use Rattle.certificate_check.specs.Laws.{CheckedIsStable, TextIsReadAgain, YesChecks};

/// Two instances that the plan doesn't separate are stable, where a certificate checks.
pub fn checked_is_stable()
    ensures { CheckedIsStable }
{}

/// The verdict is Yes exactly where the certificate checks.
pub fn yes_checks()
    ensures { YesChecks }
{}

/// The text of a plan and a certificate is read as them again.
pub fn text_is_read_again()
    ensures { TextIsReadAgain }
{}

//! A law of logs, the contract of a function that does nothing.

ghost use Rattle.ca_chip_diag.specs.Laws.{LoggedCanBeDiagnosed};

use ca_outputs::outputs_are_named;

/// Pairs of a linked chip, and a log that was read for them, are what its diagnosis asks for.
pub fn logged_can_be_diagnosed()
    ensures { LoggedCanBeDiagnosed }
{
    outputs_are_named();
}

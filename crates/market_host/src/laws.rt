//! What holds of calls that follow one another: each call here does nothing, and its contract is a
//! law.
ghost use Rattle.market_host.specs.Confirmations.{RunIsConfirmed};
ghost use Rattle.market_host.specs.OneTexts.{OneAuditTold, OneReasonTold, OneTextAnOrder};

use published_market::laws::one_published_text;

/// `check` accepts the text that `run` printed, where it is given the same inputs: whatever the
/// outcome of `check` is, it is that the text is accepted, but where a fault of an input was
/// counted, the text is above its limit, or memory is wanted.
pub fn run_is_confirmed()
    ensures { RunIsConfirmed }
{}

/// Two calls of `run` that answer 0 for the same inputs and write the same order line have written
/// the same bytes, whatever the number of workers of each: nothing but the order in which commands
/// were taken is free.
pub fn one_text_an_order()
    ensures { OneTextAnOrder }
{
    one_published_text();
}

/// Two calls of `explain` that answer 0 for the same inputs, student and section have written the
/// same bytes.
pub fn one_reason_told()
    ensures { OneReasonTold }
{}

/// Two calls of `audit` that answer 0 for the same inputs have written the same bytes, whatever the
/// number of workers of each.
pub fn one_audit_told()
    ensures { OneAuditTold }
{}

// The commands of an order, said again at a desk.
ghost use Rattle.std.specs.Prelude.{◌≡◌, ◌<◌, ◌≤◌, ◌+◌, ◌-◌, ◌^◌, ℕ, true, IsTrue, ◌↔◌, IfOk, IfErr, IfSome, IfNone, Some, length, map, slice_get, slice_index, slice_index_or, slice_set};
ghost use Rattle.preference_desk.specs.DeskView.{names_of, entries_of};
ghost use Rattle.published_parts.specs.{Journals.IsJournalOf, Markets.names_in, Views.market_in};
ghost use Rattle.certificate_checker.specs.Findings.{OnFound};
ghost use Rattle.certificate_checker.specs.Orders.{HasNext, IsNextCommand, IsOrderFinding, SaidAll};
ghost use Rattle.certificate_checker.specs.declared.findings.CheckEnd.TheVariants as end;
ghost use Rattle.certificate_checker.specs.declared.findings.Finding.TheVariants as finding;

use crate::{CheckEnd, Finding};
use preference_desk::Desk;
use published_parts::Market;
use std::alloc::Global;
use utility_language::Command;

/// The desk after the commands of all sessions, taken in this order: each entry names a session,
/// whose next command is posted. Else a finding on the first entry at which the order does not
/// merge the streams, or want of memory.
pub(crate) fn replay(
    alloc: Global,
    market: &Market,
    streams: &[Vec<Command>],
    order: &[u8],
) -> Result<Desk, CheckEnd>
    requires { length order.now < 2 ^ 32 - 1 }
    ensures names { IfOk result (λ desk. names_of desk ≡ names_in (market_in market.now)) }
    ensures journal { IfOk result
        (λ desk. IsJournalOf (names_in (market_in market.now))
        (map (λ stream. stream.items) streams.now) order.now (entries_of desk)) }
    ensures fails { IfErr result
        (λ end. OnFound end (IsOrderFinding (map (λ stream. stream.items) streams.now) order.now)) }
{
    let mut desk = Desk::prepare(alloc, market.catalog, market.roll, order.len() as u32)?;
    let mut said = vec![in alloc; 0usize; streams.len()]?;
    'entries: for (place, session) in order.iter().enumerate() {
        match next_command(streams, &mut said, *session) {
            Some(command) => {
                desk.post(u16::from(*session), command);
            }
            None => return Err(failed_at(place)),
        }
    }
    if !said_all(streams, &said) {
        return Err(failed_at(order.len()));
    }
    let entries = desk.journal().len();
    prove!(entries == order.len());
    Ok(desk)
}

// The finding that an order fails at this place, from 0.
fn failed_at(place: usize) -> CheckEnd
    requires { place < 2 ^ 32 - 1 }
    ensures { result ≡ end.Found (finding.Journal (place + 1)) }
{
    CheckEnd::Found(Finding::Journal {
        at: place as u32 + 1,
    })
}

// The session's next command, which then is said; none where the session is not given or has no
// command left.
fn next_command(streams: &[Vec<Command>], said: &mut [usize], session: u8) -> Option<Command>
    requires { length said.old ≡ length streams.now }
    ensures some { IfSome result
        (λ command. IsNextCommand (map (λ stream. stream.items) streams.now) said.old session
        said.new command) }
    ensures none { IfNone result
        (¬ HasNext (map (λ stream. stream.items) streams.now) said.old session) }
{
    if session == 0 || usize::from(session) > streams.len() {
        return None;
    }
    let place = usize::from(session) - 1;
    let command = *streams[place].get(said[place])?;
    said[place] += 1;
    Some(command)
}

// Whether so many commands are all commands of each stream.
fn said_all(streams: &[Vec<Command>], said: &[usize]) -> bool
    requires { length said.now ≡ length streams.now }
    ensures { IsTrue result ↔ SaidAll (map (λ stream. stream.items) streams.now) said.now }
{
    for place in 0..streams.len() {
        if said[place] < streams[place].len() {
            return false;
        }
    }
    true
}

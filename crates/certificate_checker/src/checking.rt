// The check.
ghost use Rattle.std.specs.Prelude.{◌≡◌, ◌≤◌, ◌<◌, ◌^◌, ◌-◌, IfOk, IfErr, OnOk, length, map};
ghost use Rattle.market_certificate.specs.Publications.{IsPublication};
ghost use Rattle.market_certificate.specs.Views.{publication_of};
ghost use Rattle.published_parts.specs.{Holdings.demanded, Markets.market_of, Markets.tables_in};
ghost use Rattle.published_parts.specs.Views.{market_in};
ghost use Rattle.certificate_checker.specs.Certificates.{HoldsBy, HoldsOf, IsAccepted, IsTextOf};
ghost use Rattle.certificate_checker.specs.Findings.{IsFirstIn, IsFirstOf, OnFound};
ghost use Rattle.certificate_checker.specs.{Parts.AreHeldOn, Refusals.IsRefused};
ghost use Rattle.certificate_checker.specs.Views.{printed_in, terms_seen};
ghost use Rattle.demand_api.specs.Views.{data_of};

use crate::allocation::check_allocation;
use crate::budgets::check_budgets;
use crate::bundles::check_bundles;
use crate::orders::replay;
use crate::printed::Printed;
use crate::seats::{check_seats, check_used};
use crate::terms::terms_at;
use crate::turns::check_turns;
use crate::{Accepted, CheckEnd};
use course_catalog::Catalog;
use held_seats::Floor;
use market_certificate::{Publication, read_publication};
use market_settings::Settings;
use market_units::{MAX_RAISE, MAX_SPREAD, NoMemory};
use published_parts::Market;
use std::alloc::Global;
use student_roll::Roll;
use utility_language::Command;

/// Whether the text is accepted for this market and these streams, one for each session: `Ok`
/// exactly where it is the text of a publication of which the certificate holds, and else the first
/// finding. Nothing is trusted of whoever wrote the text, and its prices are not judged. Whom a
/// finding names is on the roll, or in the catalogue. The text has fewer than 4,294,967,295 bytes.
/// `NoMemory` comes where memory is wanted, and has no other cause. The text is copied;
/// `check_owned` takes it and lets it go as soon as it is read.
pub fn check(
    alloc: Global,
    catalog: &Catalog,
    roll: &Roll,
    settings: &Settings,
    streams: &[Vec<Command>],
    text: &[u8],
) -> Result<(), CheckEnd>
    requires text { length text.now < 2 ^ 32 - 1 }
    requires spread { settings.now.spread ≤ MAX_SPREAD }
    requires raise { settings.now.raise ≤ MAX_RAISE }
    ensures accepted { OnOk result
        (IsAccepted (market_of catalog.now roll.now settings.now)
        (map (λ stream. stream.items) streams.now) text.now) }
    ensures refused { IfErr result
        (λ end. OnFound end
        (IsRefused (market_of catalog.now roll.now settings.now)
        (map (λ stream. stream.items) streams.now) text.now)) }
{
    let market = Market {
        catalog,
        roll,
        settings,
    };
    let copy = text.to_vec(alloc)?;
    check_owned(alloc, &market, streams, copy)
}

/// The same, of a text that is let go as soon as it is read: what the check makes stands in its
/// room.
pub fn check_owned(
    alloc: Global,
    market: &Market,
    streams: &[Vec<Command>],
    text: Vec<u8>,
) -> Result<(), CheckEnd>
    requires { length text.items < 2 ^ 32 - 1 }
    ensures accepted { OnOk result
        (IsAccepted (market_in market.now) (map (λ stream. stream.items) streams.now)
        text.items) }
    ensures refused { IfErr result
        (λ end. OnFound end
        (IsRefused (market_in market.now) (map (λ stream. stream.items) streams.now)
        text.items)) }
{
    let _accepted = accept(alloc, market, streams, text)?;
    Ok(())
}

/// The same as `check_owned`, with what an accepted text says, and the students' menus and budgets
/// against which it was checked. It takes the text, and lets it go as soon as it is read.
pub fn accept(
    alloc: Global,
    market: &Market,
    streams: &[Vec<Command>],
    text: Vec<u8>,
) -> Result<Accepted, CheckEnd>
    requires { length text.items < 2 ^ 32 - 1 }
    ensures text { IfOk result
        (λ accepted. IsTextOf (market_in market.now) (publication_of accepted.publication)
        text.items) }
    ensures holds { IfOk result
        (λ accepted. HoldsBy (market_in market.now) (map (λ stream. stream.items) streams.now)
        (publication_of accepted.publication) (data_of accepted.crowd)) }
    ensures refused { IfErr result
        (λ end. OnFound end
        (IsRefused (market_in market.now) (map (λ stream. stream.items) streams.now)
        text.items)) }
{
    let _few_sections = market.catalog.len();
    let _few_students = market.roll.len();
    let publication = {
        // The text, which may be the greater part of all that is held, is let go at the end of
        // this block, before the check makes anything of its own.
        let text = text;
        read_publication(alloc, market.catalog, market.roll, &text)?
    };
    accept_publication(alloc, market, streams, publication)
}

// The publication, where the certificate holds of it, with the students' menus and budgets against
// which it was checked, or the first finding.
fn accept_publication(
    alloc: Global,
    market: &Market,
    streams: &[Vec<Command>],
    publication: Publication,
) -> Result<Accepted, CheckEnd>
    requires publication { IsPublication (tables_in (market_in market.now))
        (publication_of publication) }
    requires entries { length publication.order.items < 2 ^ 32 - 1 }
    requires turns { length publication.turns.items < 2 ^ 32 - 1 }
    ensures same { IfOk result
        (λ accepted. publication_of accepted.publication ≡ publication_of publication) }
    ensures holds { IfOk result
        (λ accepted. HoldsBy (market_in market.now) (map (λ stream. stream.items) streams.now)
        (publication_of publication) (data_of accepted.crowd)) }
    ensures first { IfErr result
        (λ end. OnFound end
        (IsFirstOf (market_in market.now) (map (λ stream. stream.items) streams.now)
        (publication_of publication))) }
{
    let desk = replay(alloc, market, streams, &publication.order)?;
    let terms = terms_at(alloc, market, desk)?;
    let printed = Printed {
        terms: &terms,
        publication: &publication,
    };
    match check_printed(alloc, &printed) {
        Ok(()) => Ok(Accepted {
            publication,
            crowd: terms.crowd,
        }),
        Err(end) => Err(end),
    }
}

// Whether what is printed is right, or the first finding.
fn check_printed(alloc: Global, printed: &Printed) -> Result<(), CheckEnd>
    ensures holds { OnOk result (HoldsOf (terms_seen printed.now) (printed_in printed.now)) }
    ensures first { IfErr result
        (λ end. OnFound end (IsFirstIn (terms_seen printed.now) (printed_in printed.now))) }
{
    check_budgets(printed)?;
    check_bundles(printed)?;
    let mut floor = stage_two(alloc, printed)?;
    check_seats(printed, &floor)?;
    check_turns(alloc, printed, &mut floor)?;
    check_allocation(printed, &floor)?;
    check_used(printed, &floor)?;
    Ok(())
}

// What is held in the second stage.
fn stage_two(alloc: Global, printed: &Printed) -> Result<Floor, NoMemory>
    ensures { IfOk result
        (AreHeldOn printed.now.terms.now.seats.items (demanded (printed_in printed.now))) }
{
    let publication = printed.publication;
    let mut bundles = Vec::with_capacity(alloc, publication.bundles.len())?;
    'students: for proved in &publication.bundles {
        bundles.push(proved.bundle)?;
    }
    Floor::open(alloc, &printed.terms.seats, &bundles)
}

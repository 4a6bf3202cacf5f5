// The reason of a student's published bundle.
ghost use Rattle.std.specs.Prelude.{◌<◌, ◌^◌, ◌-◌, IfOk, IfErr, length, map};
ghost use Rattle.published_parts.specs.Views.{market_in};
ghost use Rattle.certificate_checker.specs.{Findings.OnFound, Refusals.IsRefused};
ghost use Rattle.explain_desk.specs.Told.{IsToldOf};

use crate::{explain, put_explained};
use certificate_checker::{CheckEnd, accept};
use market_units::{SectionNo, StudentNo};
use published_parts::Market;
use std::alloc::Global;
use utility_language::Command;

/// The text that tells why a student does not have a section, at the prices and beside the bundle
/// of the second stage that a text publishes which is accepted for this market and these streams,
/// one for each session; and the first finding where it is not accepted. Whom a finding names is on
/// the roll, or in the catalogue. The text has fewer than 4,294,967,295 bytes. `NoMemory` comes
/// where memory is wanted, and has no other cause.
pub fn published_reason(
    alloc: Global,
    market: &Market,
    streams: &[Vec<Command>],
    text: Vec<u8>,
    student: StudentNo,
    section: SectionNo,
) -> Result<Vec<u8>, CheckEnd>
    requires text { length text.items < 2 ^ 32 - 1 }
    requires student { student.0 < length market.now.roll.now.students }
    requires section { section.0 < length market.now.catalog.now.sections }
    ensures told { IfOk result
        (λ told. IsToldOf (market_in market.now) (map (λ stream. stream.items) streams.now)
        text.items student.0 section.0 told.items) }
    ensures refused { IfErr result
        (λ end. OnFound end
        (IsRefused (market_in market.now) (map (λ stream. stream.items) streams.now)
        text.items)) }
{
    let accepted = accept(alloc, market, streams, text)?;
    let publication = &accepted.publication;
    let crowd = &accepted.crowd;
    let place = usize::from(student.0);
    let name = market.roll.name(student);
    let menu = &crowd.menus[place];
    let budget = crowd.budgets[place];
    let prices = publication.prices.as_slice();
    let proved = &publication.bundles[place];
    let bundle = &proved.bundle;
    let explained = explain(alloc, menu, prices, budget, crowd.sections, bundle, section)?;
    let told = put_explained(
        alloc,
        market.catalog,
        name,
        section,
        menu,
        bundle,
        &explained,
    )?;
    Ok(told)
}

// Envy at the bundles of an accepted text.
ghost use Rattle.std.specs.Prelude.{◌≡◌, ◌≤◌, ◌<◌, ◌^◌, ◌-◌, IfOk, IfErr, length, map};
ghost use Rattle.std.specs.Arc.{arc_value};
ghost use Rattle.bundle_rules.specs.Bundles.{sections_of};
ghost use Rattle.fairness_audit.specs.Allocations.{IsAllocation, allocation_of};
ghost use Rattle.fairness_audit.specs.{Audits.IsAuditOf, Audits.IsAudited, Checked.IsChecked};
ghost use Rattle.fairness_audit.specs.{Rows.rows, Texts.AreRowsAmong, Views.row_of};
ghost use Rattle.market_certificate.specs.Views.{publication_of};
ghost use Rattle.published_parts.specs.{Holdings.demanded, Views.market_in};
ghost use Rattle.certificate_checker.specs.{Findings.OnFound, Refusals.IsRefused};
ghost use Rattle.demand_api.specs.Views.{data_of};

use crate::{EnvyRow, audit, put_rows};
use bundle_rules::Bundle;
use certificate_checker::{Accepted, CheckEnd, accept};
use demand_api::Crowd;
use market_certificate::Publication;
use market_edge::Gate;
use market_units::{MAX_WORKERS, NoMemory};
use published_parts::Market;
use std::alloc::Global;
use std::sync::{Arc, Wait};
use std::thread::Threads;
use utility_language::Command;

/// The text of an audit of what a text publishes that is accepted for this market and these
/// streams, one for each session: whom each student envies at the bundles of the second stage, and
/// whom at the final ones; and the first finding where the text is not accepted. 1 to 16 workers
/// look for both, and no number of workers occurs in what is told. For each of the two each worker
/// passes the gate before its first student and after each of its students. Whom a finding names is
/// on the roll, or in the catalogue. The text has fewer than 4,294,967,295 bytes. `NoMemory` comes
/// where memory is wanted, and has no other cause.
pub fn published_audit<R: Threads + Wait + Sync, G: Gate + Sync>(
    rt: &R,
    alloc: Global,
    workers: u16,
    market: &Market,
    streams: &[Vec<Command>],
    text: Vec<u8>,
    gate: &G,
) -> Result<Vec<u8>, CheckEnd>
    requires workers { (1 ≤ workers) × (workers ≤ MAX_WORKERS) }
    requires text { length text.items < 2 ^ 32 - 1 }
    ensures audited { IfOk result
        (λ audited. IsAuditOf (market_in market.now) (map (λ stream. stream.items) streams.now)
        text.items audited.items) }
    ensures refused { IfErr result
        (λ end. OnFound end
        (IsRefused (market_in market.now) (map (λ stream. stream.items) streams.now)
        text.items)) }
{
    let accepted = accept(alloc, market, streams, text)?;
    Ok(audit_accepted(rt, alloc, workers, market, accepted, gate)?)
}

// The text of an audit of what was checked.
fn audit_accepted<R: Threads + Wait + Sync, G: Gate + Sync>(
    rt: &R,
    alloc: Global,
    workers: u16,
    market: &Market,
    accepted: Accepted,
    gate: &G,
) -> Result<Vec<u8>, NoMemory>
    requires workers { (1 ≤ workers) × (workers ≤ MAX_WORKERS) }
    requires checked { IsChecked market.now.catalog.now market.now.roll.now
        (publication_of accepted.publication) (data_of accepted.crowd) }
    ensures { IfOk result
        (λ audited. IsAudited market.now.catalog.now market.now.roll.now
        (data_of accepted.crowd) (publication_of accepted.publication) audited.items) }
{
    let Accepted { publication, crowd } = accepted;
    let settled = settled_bundles(alloc, &publication)?;
    let crowd = Arc::new(alloc, crowd)?;
    let first = rows_with(rt, alloc, workers, &crowd, settled, gate)?;
    let last = rows_with(rt, alloc, workers, &crowd, publication.allocation, gate)?;
    put_rows(alloc, market.catalog, market.roll, &first, &last)
}

// Each student's bundle of the second stage.
fn settled_bundles(alloc: Global, publication: &Publication) -> Result<Vec<Bundle>, NoMemory>
    ensures { IfOk result
        (λ bundles. map sections_of bundles.items ≡ demanded (publication_of publication.now)) }
{
    let mut bundles = Vec::with_capacity(alloc, publication.bundles.len())?;
    'students: for proved in &publication.bundles {
        bundles.push(proved.bundle)?;
    }
    Ok(bundles)
}

// The rows of the students with these bundles.
fn rows_with<R: Threads + Wait + Sync, G: Gate + Sync>(
    rt: &R,
    alloc: Global,
    workers: u16,
    crowd: &Arc<Crowd>,
    bundles: Vec<Bundle>,
    gate: &G,
) -> Result<Vec<EnvyRow>, NoMemory>
    requires workers { (1 ≤ workers) × (workers ≤ MAX_WORKERS) }
    requires bundles { IsAllocation (allocation_of (arc_value crowd.now) bundles.items) }
    ensures rows { IfOk result
        (λ found. map row_of found.items
        ≡ rows (allocation_of (arc_value crowd.now) bundles.items)) }
    ensures among { IfOk result
        (λ found. AreRowsAmong (length (arc_value crowd.now).menus.items)
        (arc_value crowd.now).sections (map row_of found.items)) }
{
    let shared = Arc::try_clone(crowd)?;
    let held = Arc::new(alloc, bundles)?;
    audit(rt, alloc, shared, held, workers, gate)
}

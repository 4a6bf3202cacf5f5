// What was found for inquiries.
ghost use Rattle.std.specs.Prelude.{IfSome};
ghost use Rattle.std.specs.Arc.{arc_value};
ghost use Rattle.std.proofs.Props.{props};
ghost use Rattle.demand_workers.specs.Found.{AreFound};
ghost use Rattle.demand_workers.specs.{Notes.IsNoted, Views.crowd_of};

use crate::inquiry::Inquiries;
use crate::note::Note;
use bundle_rules::Bundle;

/// Inquiries, and what each of their students takes, in their order; and a note of a student that
/// was asked at a raised price, where a worker that was alone left one.
#[derive(Drop)]
pub(crate) struct Found {
    pub inquiries: Inquiries,
    pub bundles: Vec<Bundle>,
    pub note: Option<Note>,
    pub ghost right: { AreFound inquiries bundles.items },
    pub ghost noted: { IfSome note (IsNoted (crowd_of (arc_value inquiries.remembered))) } by { Prim.hlevel props },
}

// What is printed, as it is looked at.
ghost use Rattle.std.specs.Prelude.{◌<◌, ◌^◌, ◌-◌, length};
ghost use Rattle.std.proofs.Props.{props};
ghost use Rattle.bundle_rules.specs.Sets.{IsAscending-prop};
ghost use Rattle.market_certificate.specs.Views.{publication_of};
ghost use Rattle.certificate_checker.specs.Parts.{CanCheck};

use crate::terms::Terms;
use market_certificate::Publication;

/// A publication, and the terms by which it is checked. It has a line for each student and each
/// section of the terms, and fewer than 4,294,967,295 turns; the terms have seats for each section,
/// and a raise of at most 50 percent.
#[derive(Clone, Copy)]
pub(crate) struct Printed<'a> {
    pub terms: &'a Terms,
    pub publication: &'a Publication,
    pub ghost can: { CanCheck terms.now (publication_of publication.now) } by { Prim.hlevel (props, IsAscending-prop) },
    pub ghost few: { length publication.now.turns.items < 2 ^ 32 - 1 },
}

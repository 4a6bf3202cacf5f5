// Two sections.
ghost use Rattle.std.specs.Prelude.{◌<◌};

use market_units::SectionNo;

/// Two different sections, the lower one first.
#[derive(Clone, Copy, Debug)]
pub(crate) struct TwoSections {
    pub lower: SectionNo,
    pub higher: SectionNo,
    ghost order: { lower.0 < higher.0 },
}

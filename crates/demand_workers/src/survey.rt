// What the students of a crowd take at some versions.
ghost use Rattle.std.specs.Prelude.{◌≡◌, ◌<◌, [], All, IfOk, length, slice_index_or};
ghost use Rattle.std.specs.Arc.{arc_value};
ghost use Rattle.bundle_rules.specs.Demand.{price_in};
ghost use Rattle.demand_api.specs.Crowds.{counts};
ghost use Rattle.demand_workers.specs.{Remembered.AreTaken, Rounds.prices_of};
ghost use Rattle.demand_workers.specs.Surveyed.{AreParts, AreSurveyed};
ghost use Rattle.demand_workers.specs.Views.{AreRememberedCounts, crowd_of};
ghost use Rattle.demand_workers.specs.Found.{tasks_of};

use crate::found::Found;
use crate::inquiry::Inquiries;
use crate::remembered::Remembered;
use crate::unsettled::write_found;
use bundle_rules::Bundle;
use demand_api::{Crowd, count_bundles, exchange_bundle};
use market_units::{NoMemory, Tokens};
use price_board::Task;
use std::alloc::Global;

/// What students who were asked take at some versions. Who was not asked at one of them takes there
/// what is remembered.
#[derive(Drop)]
pub(crate) struct Survey {
    pub found: Found,
    // Between which places all inquiries at a version stand, for each of them.
    parts: Vec<(usize, usize)>,
    pub ghost surveyed: { AreSurveyed found.inquiries },
    ghost each: { length parts.items ≡ length (arc_value found.inquiries.round).versions.items },
    ghost parted: { AreParts (tasks_of found.inquiries) (length (tasks_of found.inquiries)) parts.items },
}

// Between which places all inquiries at a version stand, for each of so many versions.
fn parts_of(
    alloc: Global,
    versions: usize,
    inquiries: &[Task],
) -> Result<Vec<(usize, usize)>, NoMemory>
    requires { All (λ inquiry. inquiry.version < versions) inquiries.now }
    ensures each { IfOk result (λ parts. length parts.items ≡ versions) }
    ensures parts { IfOk result
        (λ parts. AreParts inquiries.now (length inquiries.now) parts.items) }
{
    let mut parts = vec![in alloc; (0, 0); versions]?;
    for place in 0..inquiries.len() {
        let version = inquiries[place].version;
        let (first, past) = parts[version];
        let from = if first < past { first } else { place };
        parts[version] = (from, place + 1);
    }
    Ok(parts)
}

impl Survey {
    /// What was found for all who have to be asked. The only error is that memory was not given.
    pub(crate) fn of(alloc: Global, found: Found) -> Result<Survey, NoMemory>
        requires { AreSurveyed found.inquiries }
        ensures { IfOk result (λ survey. survey.found ≡ found) }
    {
        let inquiries: &Inquiries = &found.inquiries;
        let parts = parts_of(alloc, inquiries.versions().len(), inquiries.list())?;
        Ok(Survey { found, parts })
    }

    /// What each student takes at a version: what was found for it there, or what is remembered.
    /// The only error is that memory was not given.
    pub(crate) fn bundles_at(&self, alloc: Global, version: usize) -> Result<Vec<Bundle>, NoMemory>
        requires { version < length (arc_value self.now.found.inquiries.round).versions.items }
        ensures len { IfOk result
            (λ bundles. length bundles.items
            ≡ length
            (crowd_of (arc_value self.now.found.inquiries.remembered)).students) }
        ensures taken { IfOk result
            (λ bundles. AreTaken
            (crowd_of (arc_value self.now.found.inquiries.remembered))
            (slice_index_or (prices_of (arc_value self.now.found.inquiries.round).versions.items)
            version [])
            bundles.items) }
    {
        let inquiries: &Inquiries = &self.found.inquiries;
        let remembered: &Remembered = &inquiries.remembered;
        let crowd: &Crowd = &remembered.crowd;
        let prices: &[Tokens] = &inquiries.versions()[version];
        let mut bundles = remembered.bundles.as_slice().to_vec(alloc)?;
        write_found(
            crowd,
            prices,
            inquiries.list(),
            &self.found.bundles,
            version,
            &mut bundles,
        );
        Ok(bundles)
    }

    /// How many students take each section, of what is remembered. The only error is that memory
    /// was not given.
    pub(crate) fn remembered_counts(&self, alloc: Global) -> Result<Vec<u32>, NoMemory>
        ensures { IfOk result
            (λ base. AreRememberedCounts
            (arc_value self.now.found.inquiries.remembered) base.items) }
    {
        let inquiries: &Inquiries = &self.found.inquiries;
        let remembered: &Remembered = &inquiries.remembered;
        count_bundles(
            alloc,
            usize::from(remembered.crowd.sections),
            &remembered.bundles,
        )
    }

    /// How many students take each section at a version. The base is how many take it of what is
    /// remembered; for who was asked at the version, what was found is counted in its place. The
    /// only error is that memory was not given.
    pub(crate) fn counts_at(
        &self,
        alloc: Global,
        base: &[u32],
        version: usize,
    ) -> Result<Vec<u32>, NoMemory>
        requires version { version < length (arc_value self.now.found.inquiries.round).versions.items }
        requires base { AreRememberedCounts
            (arc_value self.now.found.inquiries.remembered) base.now }
        ensures { IfOk result
            (λ counted. counted.items
            ≡ counts (crowd_of (arc_value self.now.found.inquiries.remembered))
            (price_in (slice_index_or
            (prices_of (arc_value self.now.found.inquiries.round).versions.items) version []))) }
    {
        let inquiries: &Inquiries = &self.found.inquiries;
        let mut bundles = inquiries.remembered.bundles.as_slice().to_vec(alloc)?;
        let mut counted = base.to_vec(alloc)?;
        let (first, past) = self.parts[version];
        'part: for place in first..past {
            let inquiry = inquiries.list()[place];
            if inquiry.version != version {
                continue;
            }
            let student = usize::from(inquiry.student.0);
            exchange_bundle(
                &mut counted,
                &mut bundles,
                student,
                self.found.bundles[place],
            );
        }
        Ok(counted)
    }
}

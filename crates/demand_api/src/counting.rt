// Counts of all sections at once.
ghost use Rattle.std.specs.Prelude.{◌≡◌, ◌<◌, ◌≤◌, ◌+◌, ◌^◌, ℕ, All, IfOk, length, map, slice_index};
ghost use Rattle.std.specs.Prelude.{true, slice_set};
ghost use Rattle.market_units.specs.Members.{has};
ghost use Rattle.bundle_rules.specs.{Bundles.sections_of, Ordinals.ordinals, Sets.IsAscending};
ghost use Rattle.demand_api.specs.Counting.{AreCounts, AreWithin, HasCounted, IsTally};

use bundle_rules::Bundle;
use market_units::{NoMemory, SectionNo};
use std::alloc::Global;

/// How many of these bundles, fewer than 2,147,483,648, have each section, by ordinal. They have no
/// sections beyond the given number of sections. The one error is the want of memory.
pub fn count_bundles(
    alloc: Global,
    sections: usize,
    bundles: &[Bundle],
) -> Result<Vec<u32>, NoMemory>
    requires few { length bundles.now < 2 ^ 31 }
    requires within { AreWithin sections (map sections_of bundles.now) }
    ensures { IfOk result
        (λ counts. AreCounts sections (map sections_of bundles.now) counts.items) }
{
    let mut counts = vec![in alloc; 0u32; sections]?;
    for bundle in bundles {
        count_bundle(&mut counts, bundle.sections());
    }
    Ok(counts)
}

/// Adds one to the count of each section of a bundle. The sections are ascending and have a count,
/// and no count is so great that it could pass its type.
pub fn count_bundle(counts: &mut [u32], sections: &[SectionNo])
    requires range { All (λ section. section.0 < length counts.old) sections.now }
    requires set { IsAscending (ordinals sections.now) }
    requires room { All (λ n. n + length sections.now < 2 ^ 32) counts.old }
    ensures len { length counts.new ≡ length counts.old }
    ensures each { (s : ℕ) → s < length counts.old
        → HasCounted counts.old counts.new (ordinals sections.now) s }
{
    match sections {
        [] => {}
        [section, more @ ..] => {
            counts[usize::from(section.0)] += 1;
            count_bundle(counts, more);
        }
    }
}

/// Takes one from the count of each section of a bundle. The sections are ascending and have a
/// count, of at least 1.
pub fn uncount_bundle(counts: &mut [u32], sections: &[SectionNo])
    requires range { All (λ section. section.0 < length counts.old) sections.now }
    requires set { IsAscending (ordinals sections.now) }
    requires counted { All (λ section. 1 ≤ slice_index counts.old section.0) sections.now }
    ensures len { length counts.new ≡ length counts.old }
    ensures each { (s : ℕ) → s < length counts.old
        → HasCounted counts.new counts.old (ordinals sections.now) s }
{
    match sections {
        [] => {}
        [section, more @ ..] => {
            uncount_bundle(counts, more);
            counts[usize::from(section.0)] -= 1;
        }
    }
}

/// Puts another bundle at this place, and keeps the counts of the sections in step. The counts are
/// those of the bundles, of which there are at most 2,000, and each section of the other has one.
pub fn exchange_bundle(counts: &mut [u32], bundles: &mut [Bundle], place: usize, other: Bundle)
    requires tally { IsTally (length counts.old) bundles.old counts.old }
    requires place { place < length bundles.old }
    requires within { (s : ℕ) → has (sections_of other) s ≡ true → s < length counts.old }
    ensures bundles { bundles.new ≡ slice_set bundles.old place other }
    ensures tally { IsTally (length counts.old) bundles.new counts.new }
{
    uncount_bundle(counts, bundles[place].sections());
    count_bundle(counts, other.sections());
    bundles[place] = other;
}

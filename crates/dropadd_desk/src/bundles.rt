// Bundles with one section more or less.
ghost use Rattle.std.specs.Prelude.{◌≡◌, ◌<◌, ◌≤◌, ◌+◌, ◌++◌, true, false, length, nat_le};
ghost use Rattle.bundle_rules.specs.{Bundles.sections_of, Ordinals.ordinals, Ordinals.IsBundle};
ghost use Rattle.bundle_rules.specs.Sets.{without_section};
ghost use Rattle.market_units.specs.Members.{has};
ghost use Rattle.std.specs.List.{position};
ghost use Rattle.dropadd_desk.specs.Sets.{place_in, with_section};

use bundle_rules::Bundle;
use market_units::{MAX_COURSES, SectionNo};

/// The bundle with one section more, put at its place in the order.
pub(crate) fn with_section(bundle: &Bundle, section: SectionNo) -> Bundle
    requires room { length (sections_of bundle.now) < MAX_COURSES }
    requires new { has (sections_of bundle.now) section.0 ≡ false }
    ensures { sections_of result ≡ with_section section.0 (sections_of bundle.now) }
{
    let sections = bundle.sections();
    let place = place_of(sections, section);
    let (lower, higher) = sections.split_at(place);
    let below = put_all(Bundle::empty(), lower);
    put_all(below.with(section), higher)
}

/// The bundle without this section, which it has.
pub(crate) fn without_section(bundle: &Bundle, section: SectionNo) -> Bundle
    requires { has (sections_of bundle.now) section.0 ≡ true }
    ensures { sections_of result ≡ without_section section.0 (sections_of bundle.now) }
{
    let sections = bundle.sections();
    let place = place_of(sections, section);
    let (lower, _) = sections.split_at(place);
    let (_, higher) = sections.split_at(place + 1);
    put_all(put_all(Bundle::empty(), lower), higher)
}

// How many sections are below this one.
fn place_of(sections: &[SectionNo], section: SectionNo) -> usize
    ensures { result ≡ place_in section.0 sections.now }
{
    match first_from(sections, section) {
        Some(place) => place,
        None => sections.len(),
    }
}

// The place of the first section that is not below this one.
fn first_from(sections: &[SectionNo], section: SectionNo) -> Option<usize>
    ensures { result ≡ position (λ other. nat_le section.0 other.0) sections.now }
{
    sections.iter().position(|other| section.0 <= other.0)
}

// The bundle with these sections too, which are above all of its own.
fn put_all(bundle: Bundle, sections: &[SectionNo]) -> Bundle
    requires { IsBundle (sections_of bundle ++ ordinals sections.now) }
    ensures { sections_of result ≡ sections_of bundle ++ ordinals sections.now }
{
    let mut whole = bundle;
    for section in sections {
        whole = whole.with(*section);
    }
    whole
}

// What a student sees in the bundle of another.
ghost use Rattle.std.specs.Prelude.{◌≡◌, ◌≤◌, ◌<◌, ◌+◌, ◌++◌, length, option_map};
ghost use Rattle.market_units.specs.declared.units.SectionNo.{SectionNo};
ghost use Rattle.bundle_rules.specs.{Bundles.sections_of, Menus.wishes_of};
ghost use Rattle.bundle_rules.specs.Ordinals.{ordinals, IsBundle};
ghost use Rattle.bundle_rules.specs.{Sets.IsAscending, Sets.without_section, Wishes.IsFeasible};
ghost use Rattle.fairness_audit.specs.{Envy.ended_by, Envy.is_more, Envy.seen, Rows.envied};
ghost use Rattle.fairness_audit.specs.{Searching.IsBestOfThese, Views.seen_of};

use crate::row::Seen;
use crate::weights::{Weights, may_be_more};
use bundle_rules::{Bundle, Menu, feasible, prefers, utility};
use market_units::{MAX_COURSES, SectionNo, StudentNo};

/// What a student with the menu of these weights, whose own bundle has this utility for it, sees in
/// the bundle of another; `None` where it has no more utility than its own. Most bundles need no
/// search, by their weights.
pub(crate) fn sight(
    weights: &Weights,
    own: i32,
    student: StudentNo,
    bundle: &Bundle,
) -> Option<Seen>
    ensures { option_map seen_of result
        ≡ envied weights.now.menu.now own student.0 (sections_of bundle.now) }
{
    if !may_be_more(weights, own, bundle) {
        return None;
    }
    let menu = weights.menu;
    let best = best_out_of(menu, bundle);
    if utility(menu, &best) <= own {
        return None;
    }
    Some(Seen {
        student,
        bundle: best,
        without: ended_by(menu, own, bundle),
    })
}

// The lowest section of the bundle but for which what is seen is not worth more.
fn ended_by(menu: &Menu, own: i32, bundle: &Bundle) -> Option<SectionNo>
    ensures { option_map (λ (s : SectionNo). s.0) result
        ≡ ended_by menu.now own (sections_of bundle.now) }
{
    for section in bundle.sections() {
        if !is_more(menu, own, &but_for(bundle, *section)) {
            return Some(*section);
        }
    }
    None
}

// Whether what is seen in the bundle is worth more than this.
fn is_more(menu: &Menu, own: i32, bundle: &Bundle) -> bool
    ensures { result ≡ is_more menu.now own (sections_of bundle.now) }
{
    let best = best_out_of(menu, bundle);
    utility(menu, &best) > own
}

// The bundle without one section.
fn but_for(bundle: &Bundle, section: SectionNo) -> Bundle
    ensures { sections_of result ≡ without_section section.0 (sections_of bundle.now) }
{
    let mut rest = Bundle::empty();
    for other in bundle.sections() {
        if *other == section {
            continue;
        }
        rest = rest.with(*other);
    }
    rest
}

// The best bundle out of another, where no section costs anything. Not by `demand`: the tables of a
// search cost more than all parts of so small a bundle.
fn best_out_of(menu: &Menu, bundle: &Bundle) -> Bundle
    ensures value { sections_of result ≡ seen menu.now (sections_of bundle.now) }
    ensures feasible { IsFeasible (wishes_of menu.now) (sections_of result) }
{
    best_from(menu, bundle.sections(), Bundle::empty())
}

// The best of the bundles that are these sections and some of the later ones. Of at most 8 sections
// all are tried, but for those with a part that the student may not take.
fn best_from(menu: &Menu, later: &[SectionNo], chosen: Bundle) -> Bundle
    requires chosen { IsFeasible (wishes_of menu.now) (sections_of chosen) }
    requires few { length (sections_of chosen) + length later.now ≤ MAX_COURSES }
    requires later { IsAscending (sections_of chosen ++ ordinals later.now) }
    ensures { IsBestOfThese (wishes_of menu.now) (sections_of chosen) (ordinals later.now)
        (sections_of result) }
{
    match later {
        [] => chosen,
        [section, more @ ..] => {
            let without = best_from(menu, more, chosen);
            let wider = chosen.with(*section);
            if !feasible(menu, &wider) {
                return without;
            }
            let with_it = best_from(menu, more, wider);
            if prefers(menu, &with_it, &without) {
                with_it
            } else {
                without
            }
        }
    }
}

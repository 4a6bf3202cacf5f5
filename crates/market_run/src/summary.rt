// The whole summary.
ghost use Rattle.std.specs.Prelude.{◌≡◌, IfOk};
ghost use Rattle.demand_api.specs.Views.{data_of};
ghost use Rattle.market_certificate.specs.Views.{publication_of};
ghost use Rattle.published_market.specs.Publishing.{lengths_of};
ghost use Rattle.market_run.specs.Summaries.{IsSomeOutcome, summary_text};

use crate::lines::{put_count, put_signed};
use crate::sums::{bundle_trees, turn_trees, used_seats, worth};
use demand_api::Crowd;
use market_units::NoMemory;
use published_market::Published;
use std::alloc::Global;

/// The summary of what was published of this crowd: the numbers of students, of sections and of
/// commands; the error of the search's prices; the turns of the search, the rounds of the
/// elimination and the passes of the aftermarket; the used seats; what the students have of their
/// last bundles; and the bytes of all trees. The one error is the want of memory.
pub fn summary_text(
    alloc: Global,
    crowd: &Crowd,
    published: &Published,
) -> Result<Vec<u8>, NoMemory>
    requires { IsSomeOutcome (data_of crowd.now)
        (lengths_of published.now.turns published.now.rounds published.now.passes)
        (publication_of published.now.publication) }
    ensures { IfOk result
        (λ text. text.items
        ≡ summary_text (data_of crowd.now)
        (lengths_of published.now.turns published.now.rounds published.now.passes)
        (publication_of published.now.publication)) }
{
    let publication = &published.publication;
    let seats = used_seats(&publication.used);
    let utility = worth(&crowd.menus, &publication.allocation);
    let proof = bundle_trees(&publication.bundles) + turn_trees(&publication.turns);
    let mut text = Vec::new(alloc);
    put_count(alloc, &mut text, b"students", crowd.menus.len() as u128)?;
    put_count(alloc, &mut text, b"sections", u128::from(crowd.sections))?;
    put_count(
        alloc,
        &mut text,
        b"commands",
        publication.order.len() as u128,
    )?;
    put_count(alloc, &mut text, b"error", u128::from(publication.error))?;
    put_count(alloc, &mut text, b"turns", u128::from(published.turns))?;
    put_count(alloc, &mut text, b"rounds", u128::from(published.rounds))?;
    put_count(alloc, &mut text, b"passes", u128::from(published.passes))?;
    put_count(alloc, &mut text, b"seats", seats)?;
    put_signed(alloc, &mut text, b"utility", utility)?;
    put_count(alloc, &mut text, b"proof", proof)?;
    Ok(text)
}

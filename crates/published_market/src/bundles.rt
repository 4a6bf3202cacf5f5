// What students take, with its trees.
ghost use Rattle.std.specs.Prelude.{◌≡◌, All, IfOk, length, map};
ghost use Rattle.std.specs.List.{AllZip};
ghost use Rattle.bundle_rules.specs.Demand.{price_in};
ghost use Rattle.demand_api.specs.{Asking.ArePricesFor, Views.data_of};
ghost use Rattle.oversubscription_stage.specs.Rounds.{AreTaken};
ghost use Rattle.market_certificate.specs.Views.{proved_of};
ghost use Rattle.published_parts.specs.Offers.{IsProvedDemand};
ghost use Rattle.published_market.specs.Making.{HasForm};

use crate::best::Best;
use crate::taken::Taken;
use crate::trees::{BestBundles, prove_all};
use crate::writers::Writers;
use bundle_rules::Bundle;
use demand_api::Crowd;
use market_certificate::Proved;
use market_units::{NoMemory, SectionSet, Tokens};
use std::alloc::Global;
use std::thread::Threads;

impl<'a> BestBundles for Taken<'a> {
    ghost use Rattle.published_market.specs.Asked.{bundle_taken, offer_taken};
    ghost use Rattle.published_market.specs.Shown.{IsDemandShown};

    type Shown = Proved;

    ghost count = { λ taken. length taken.bundles.now };

    ghost offer = { offer_taken };

    ghost bundle = { bundle_taken };

    ghost is_shown = { IsDemandShown };

    fn len(&self) -> usize {
        self.bundles.len()
    }

    fn best(&self, place: usize) -> Best<'_> {
        let crowd = self.crowd;
        let bundles = self.bundles;
        let menu = &crowd.menus[place];
        let budget = crowd.budgets[place];
        let bundle = &bundles[place];
        Best {
            menu,
            prices: self.prices,
            budget,
            allowed: self.allowed,
            bundle,
        }
    }

    fn show(&self, _place: usize, proved: Proved) -> Proved {
        proved
    }
}

/// What each student of the crowd takes at the prices, with its tree, in file order.
pub(crate) fn prove_bundles<R: Threads + Sync>(
    rt: &R,
    alloc: Global,
    writers: Writers,
    crowd: &Crowd,
    prices: &[Tokens],
    bundles: &[Bundle],
) -> Result<Vec<Proved>, NoMemory>
    requires prices { ArePricesFor (data_of crowd.now) prices.now }
    requires bundles { AreTaken (data_of crowd.now) prices.now bundles.now }
    ensures proved { IfOk result
        (λ all. AllZip (IsProvedDemand crowd.now.sections (price_in prices.now))
        (data_of crowd.now).students
        (map proved_of all.items)) }
    ensures form { IfOk result
        (λ all. All (λ proved. HasForm proved.bundle proved.tree) (map proved_of all.items)) }
{
    let allowed = SectionSet::full(crowd.sections);
    let taken = Taken {
        crowd,
        prices,
        allowed: &allowed,
        bundles,
    };
    prove_all(rt, alloc, writers, &taken)
}

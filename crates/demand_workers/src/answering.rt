// What is read from the answers of a board.
ghost use Rattle.std.specs.Prelude.{◌≡◌, ◌<◌, [], None, length, slice_index_or};
ghost use Rattle.demand_api.specs.Crowds.{IsCrowd};
ghost use Rattle.demand_workers.specs.Remembered.{AreTaken};
ghost use Rattle.price_board.specs.Settling.{ask_of};
ghost use Rattle.price_board.specs.Terms.{version_count, student_count};

use bundle_rules::Bundle;
use market_units::StudentNo;
use price_board::{Answers, Ask};

/// Writes what each student takes at a version of which all bundles were asked.
pub(crate) fn read_all(answers: &Answers, version: u8, bundles: &mut [Bundle])
    requires each { answers.now.terms.list ≡ None }
    requires crowd { IsCrowd answers.now.terms.crowd }
    requires version { version < version_count answers.now.terms }
    requires counts { ask_of answers.now.terms.asks version ≡ Ask.Counts }
    requires same { length bundles.old ≡ student_count answers.now.terms }
    ensures len { length bundles.new ≡ length bundles.old }
    ensures taken { AreTaken answers.now.terms.crowd
        (slice_index_or answers.now.terms.versions version []) bundles.new }
{
    for place in 0..bundles.len() {
        let Some(bundle) = answers.bundle(version, StudentNo(place as u16)) else {
            unreachable!();
        };
        bundles[place] = bundle;
    }
}

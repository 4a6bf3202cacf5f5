// Which places of a menu clash.
ghost use Rattle.std.specs.Prelude.{◌≡◌, ◌<◌, IfOk, true};
ghost use Rattle.bundle_rules.specs.Ranking.{word_with};
ghost use Rattle.market_menus.specs.ClashWords.{AreClashWords};

use crate::places::Places;
use market_units::NoMemory;
use std::alloc::Global;

/// The word of each place: its bit t tells whether the catalogue lets the place's section clash
/// with that of place t. Bits above the last place are not set, so that a student has one menu, and
/// an order one publication.
pub(crate) fn clashes_of(alloc: Global, places: &Places) -> Result<Vec<u64>, NoMemory>
    ensures { IfOk result
        (λ words. AreClashWords places.now.catalog.now.sections places.now.rated.now words.items) }
{
    let count = places.rated.len();
    let mut words: Vec<u64> = Vec::with_capacity(alloc, count)?;
    for place in 0..count {
        let section = places.rated[place].section;
        let mut word = 0;
        // A clash is mutual: each pair is looked at once, and written into both words.
        for earlier in 0..place {
            if places.catalog.clash(section, places.rated[earlier].section) {
                word = with_bit(word, earlier);
                words[earlier] = with_bit(words[earlier], place);
            }
        }
        words.push(word)?;
    }
    Ok(words)
}

// The word with one more bit set.
fn with_bit(word: u64, bit: usize) -> u64
    requires { bit < 64 }
    ensures { result ≡ word_with word bit true }
{
    word | 1 << bit
}

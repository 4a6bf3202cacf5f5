// The settings.
ghost use Rattle.std.specs.Prelude.{◌≡◌, IfOk};
ghost use Rattle.market_maker.specs.Settings.{settings_text};

use crate::lines::put_decimal;
use market_units::NoMemory;
use std::alloc::Global;

/// The text of the settings with this seed and this accepted clearing error. The others are the
/// same in each made market.
pub(crate) fn settings_text(alloc: Global, seed: u64, accept: u64) -> Result<Vec<u8>, NoMemory>
    ensures { IfOk result (λ text. text.items ≡ settings_text seed accept) }
{
    let mut text = Vec::new(alloc);
    text.extend_from_slice(b"{\"seed\":")?;
    put_decimal(&mut text, seed)?;
    text.extend_from_slice(b",\"spread\":10,\"accept\":")?;
    put_decimal(&mut text, accept)?;
    text.extend_from_slice(
        b",\"turns\":25,\"tabu\":20,\"patience\":10,\"steps\":[1,10,100],\"raise\":10}\n",
    )?;
    Ok(text)
}

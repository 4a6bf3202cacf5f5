// Whether a published text is accepted.
ghost use Rattle.std.specs.Prelude.{List, ℕ, [], ◌∷◌, IfOk};
ghost use Rattle.session_hall.specs.Streams.{command_lists};
ghost use Rattle.market_host.specs.{Endings.bytes_of, Said.market_said};
ghost use Rattle.market_host.specs.Works.{EndsFor, IsAnswer};
ghost use Rattle.market_words.specs.Inputs.{IsCall, names_in};

use crate::Status;
use crate::ended::{Ended, Output};
use crate::inputs::Inputs;
use crate::line::accepted;
use crate::said::Published;
use crate::trouble::Trouble;
use certificate_checker::{CheckEnd, check_owned, finding_line};
use market_edge::Shelf;
use market_units::NoMemory;
use market_words::{Call, Form};
use std::alloc::Global;

/// That the text which `check` names is accepted for the market and the sessions that it names, or
/// the first finding on it, or why there is neither.
pub fn check<H: Shelf>(alloc: Global, call: Call, shelf: &mut H) -> Result<Ended, Trouble>
    requires named { (words : List (List ℕ))
        × IsCall words Form.Check call }
    ensures { IsAnswer H.Shelf Form.Check (names_in call.entry) shelf.old shelf.new result }
{
    let mut inputs = Inputs::of(call);
    let published = inputs.published(alloc, shelf)?;
    let ended = checked(alloc, published)?;
    Ok(ended)
}

// How it ends for what the inputs say.
fn checked(alloc: Global, published: Published) -> Result<Ended, NoMemory>
    ensures { IfOk result
        (λ ended. EndsFor Form.Check (market_said published.market)
        (published.text.items ∷ []) (command_lists published.streams.lists.items) ended.status
        (bytes_of ended.output)) }
{
    let Published {
        market,
        text,
        streams,
    } = published;
    let lent = published_parts::Market {
        catalog: &market.catalog,
        roll: &market.roll,
        settings: &market.settings,
    };
    match check_owned(alloc, &lent, &streams.lists, text) {
        Ok(()) => Ok(Ended {
            status: Status::Done,
            output: Output::Line(accepted()),
        }),
        Err(CheckEnd::Found(finding)) => Ok(Ended {
            status: Status::Found { finding },
            output: Output::Line(finding_line(&market.catalog, &market.roll, finding)),
        }),
        Err(CheckEnd::NoMemory) => Err(NoMemory),
    }
}

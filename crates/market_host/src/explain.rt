// Why a student does not have a section.
ghost use Rattle.std.specs.Prelude.{◌≡◌, List, ℕ, IfOk};
ghost use Rattle.market_units.specs.Name.{name_bytes};
ghost use Rattle.session_hall.specs.Streams.{command_lists};
ghost use Rattle.market_host.specs.{Endings.bytes_of, Explains.IsReasonEnd, Lines.unknown_line};
ghost use Rattle.market_host.specs.Said.{market_said};
ghost use Rattle.market_host.specs.Works.{IsAnswer};
ghost use Rattle.market_words.specs.Inputs.{IsCall, names_in};

use crate::Status;
use crate::ended::{Ended, Output, told_end};
use crate::inputs::Inputs;
use crate::line::unknown_name;
use crate::said::Published;
use crate::trouble::Trouble;
use explain_desk::published_reason;
use market_edge::Shelf;
use market_units::{Name, NoMemory};
use market_words::{Call, Form};
use std::alloc::Global;

// The words of `explain` that name the student and the section, where its own word is the first.
const STUDENT_WORD: u16 = 6;

const SECTION_WORD: u16 = 7;

/// Why the student that `explain` names does not have the section, by the published text that it
/// names, or that one of the two is not known, or the first finding on the text, or why there is
/// none of these.
pub fn explain<H: Shelf>(
    alloc: Global,
    call: Call,
    shelf: &mut H,
    student: Name,
    section: Name,
) -> Result<Ended, Trouble>
    requires named { (words : List (List ℕ))
        × IsCall words (Form.Explain student section) call }
    ensures { IsAnswer H.Shelf (Form.Explain student section) (names_in call.entry) shelf.old
        shelf.new result }
{
    let mut inputs = Inputs::of(call);
    let published = inputs.published(alloc, shelf)?;
    let ended = reason_for(alloc, published, &student, &section)?;
    Ok(ended)
}

// How it ends for what the inputs say.
fn reason_for(
    alloc: Global,
    published: Published,
    student: &Name,
    section: &Name,
) -> Result<Ended, NoMemory>
    ensures { IfOk result
        (λ ended. IsReasonEnd (market_said published.market)
        (command_lists published.streams.lists.items) published.text.items
        (name_bytes student.now) (name_bytes section.now) ended.status (bytes_of ended.output)) }
{
    let Published {
        market,
        text,
        streams,
    } = published;
    let Some(enrolled) = market.roll.find(student) else {
        return Ok(unknown(STUDENT_WORD));
    };
    let Some(listed) = market.catalog.find(section) else {
        return Ok(unknown(SECTION_WORD));
    };
    let lent = published_parts::Market {
        catalog: &market.catalog,
        roll: &market.roll,
        settings: &market.settings,
    };
    let told = published_reason(alloc, &lent, &streams.lists, text, enrolled, listed);
    told_end(&market.catalog, &market.roll, told)
}

// The end of a call one of whose words, this one, names nothing.
fn unknown(word: u16) -> Ended
    ensures status { result.status ≡ Status.Unknown word }
    ensures line { bytes_of result.output ≡ unknown_line word }
{
    Ended {
        status: Status::Unknown { word },
        output: Output::Line(unknown_name(word)),
    }
}

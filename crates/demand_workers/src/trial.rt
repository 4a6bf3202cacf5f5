// Prices of which one is tried.
ghost use Rattle.std.specs.Prelude.{◌≡◌, ◌<◌, ◌≤◌, ◌↔◌, [], ◌∷◌, IfSome, None, length, slice_set};
ghost use Rattle.demand_workers.specs.Answering.{answer_to};
ghost use Rattle.price_board.specs.Tasks.{IsTask, taken_at};
ghost use Rattle.demand_workers.specs.Views.{crowd_of};

use crate::question::Question;
use crate::remembered::Remembered;
use market_units::{MAX_SECTIONS, SectionNo, Tokens};
use price_board::Task;

/// Room for a price of each section that a market may have.
pub(crate) const ROOM: usize = MAX_SECTIONS as usize;

/// These prices with another one for one section, written into a room.
pub(crate) fn raised_prices<'r>(
    room: &'r mut [Tokens; ROOM],
    prices: &[Tokens],
    section: SectionNo,
    price: Tokens,
) -> &'r [Tokens]
    requires few { length prices.now ≤ MAX_SECTIONS }
    requires section { section.0 < length prices.now }
    ensures { result.now ≡ slice_set prices.now section.0 price }
{
    room[..prices.len()].copy_from_slice(prices);
    room[usize::from(section.0)] = price;
    &room[..prices.len()]
}

/// What the inquiry asks, at the remembered prices with its raised one, which are written into a
/// room. `None` where it raises none.
pub(crate) fn raised_question<'r>(
    room: &'r mut [Tokens; ROOM],
    remembered: &'r Remembered,
    inquiry: Task,
) -> Option<Question<'r>>
    requires { IsTask (crowd_of remembered.now) 1 inquiry }
    ensures remembered { IfSome result (λ question. question.remembered.now ≡ remembered.now) }
    ensures student { IfSome result (λ question. question.student ≡ inquiry.student) }
    ensures none { (result ≡ None) ↔ (inquiry.raised ≡ None) }
    ensures asks { IfSome result
        (λ question. answer_to question
        ≡ taken_at (crowd_of remembered.now) (remembered.now.prices.items ∷ []) inquiry) }
{
    let Some(raised) = inquiry.raised else {
        return None;
    };
    let prices = raised_prices(room, &remembered.prices, raised.0, raised.1);
    Some(Question {
        remembered,
        prices,
        student: inquiry.student,
    })
}

// A market that was said at a desk.
ghost use Rattle.std.specs.Prelude.{◌≡◌, All, IsTrue};
ghost use Rattle.market_certificate.specs.Publications.{IsSession};
ghost use Rattle.market_settings.specs.Settings.{AreInRange};
ghost use Rattle.preference_desk.specs.DeskView.{entries_of, names_of};
ghost use Rattle.published_parts.specs.Markets.{market_of, names_in};

use crate::tests::readers::{commands_in, settings_in, tables_in};
use course_catalog::Catalog;
use market_maker::make;
use market_run::MarketDesk;
use market_settings::Settings;
use preference_desk::Desk;
use published_market::are_sessions;
use published_parts::Market;
use std::alloc::Global;
use std::process::Abort;
use student_roll::Roll;
use utility_language::Command;

/// The tables and the settings of a market, and the desk after its sessions have spoken. The desk
/// knows the names of the tables, and the settings are in their ranges.
#[derive(Drop)]
pub struct Said {
    pub catalog: Catalog,
    pub roll: Roll,
    pub settings: Settings,
    pub desk: Desk,
    pub ghost names: { names_of desk ≡ names_in (market_of catalog roll settings) },
    pub ghost in_range: { AreInRange settings },
}

// Whether each entry of the desk's journal is of a session from 1 to 64.
fn has_sessions(desk: &Desk) -> bool
    ensures { IsTrue result → All (λ entry. IsSession entry.session) (entries_of desk.now) }
{
    are_sessions(desk.journal())
}

/// The market and its desk, in whose journal each entry is of a session from 1 to 64.
pub fn market_desk<'a, R: Abort>(rt: &R, said: &'a Said) -> MarketDesk<'a> {
    let Said {
        catalog,
        roll,
        settings,
        desk,
    } = said;
    assert!(rt; has_sessions(desk));
    let market = Market {
        catalog,
        roll,
        settings,
    };
    MarketDesk { market, desk }
}

// Says each command at the desk, in this session.
fn say_each(rt: &impl Abort, desk: &mut Desk, session: u16, commands: &[Command])
    ensures { names_of desk.new ≡ names_of desk.old }
{
    'commands: for command in commands {
        assert!(rt; desk.room() >= 1);
        desk.post(session, *command);
    }
}

/// The market of a catalogue, a roll and settings, in this order, after two sessions have spoken
/// one after another. Each session is given by its number and its text; the test fails where a text
/// is not read.
pub fn market_said(
    rt: &impl Abort,
    alloc: Global,
    texts: (&[u8], &[u8], &[u8]),
    first: (u16, &[u8]),
    second: (u16, &[u8]),
) -> Said {
    let (catalog, roll) = tables_in(rt, alloc, texts.0, texts.1);
    let settings = settings_in(rt, alloc, texts.2);
    let mut desk = Desk::prepare(alloc, &catalog, &roll, 200).expect(rt, "memory");
    say_each(rt, &mut desk, first.0, &commands_in(rt, alloc, first.1));
    say_each(rt, &mut desk, second.0, &commands_in(rt, alloc, second.1));
    Said {
        catalog,
        roll,
        settings,
        desk,
    }
}

/// The made market of two students, two sections and seed 7 that accepts no error, after its
/// sessions.
pub fn two_students(rt: &impl Abort, alloc: Global) -> Said {
    let made = make(alloc, 7, 2, 2, 0).expect(rt, "memory");
    let texts = (
        made.catalog.as_slice(),
        made.roll.as_slice(),
        made.settings.as_slice(),
    );
    market_said(rt, alloc, texts, (1, &made.first), (2, &made.second))
}

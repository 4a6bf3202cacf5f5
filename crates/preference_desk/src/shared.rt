// The desk as an object that sessions share.
ghost use Rattle.std.specs.Prelude.{List};
ghost use Rattle.std.specs.Borrow.{ftrue};
ghost use Rattle.std.specs.Coded.{coded_list};
ghost use Rattle.preference_desk.specs.{Codes.coded_entry, Codes.coded_names, DeskNames.DeskNames};
ghost use Rattle.preference_desk.specs.{DeskStep.DeskState, Histories.coded_state};
ghost use Rattle.preference_desk.specs.declared.entry.Entry.{Entry};

use crate::desk::Desk;
use crate::reply::Reply;
use chronicle::Object;
use std::marker::Model;
use utility_language::Command;

/// What no step of a desk changes: the names that it knows. Contracts alone see it.
pub struct Known {
    pub ghost names: { DeskNames } by { coded_names },
}

impl Model for Known {
    ghost also_owns = { λ _. ftrue };
}

/// What the steps of a desk change: what the students want, whether it is closed, and its journal.
/// Contracts alone see it.
pub struct Told {
    pub ghost state: { DeskState } by { coded_state },
    pub ghost entries: { List Entry } by { coded_list coded_entry },
}

impl Model for Told {
    ghost also_owns = { λ _. ftrue };
}

impl Object for Desk {
    ghost use Rattle.preference_desk.specs.DeskView.{names_of, state_of, entries_of, commands_left};
    ghost use Rattle.preference_desk.specs.Shared.{is_sound, told_after, told_reply};

    type Base = Known;

    type State = Told;

    type Request = Command;

    type Reply = Reply;

    ghost base = { λ desk. record { names = names_of desk } };

    ghost state = { λ desk. record { state = state_of desk; entries = entries_of desk } };

    ghost room = { λ desk. commands_left desk };

    ghost sound = { is_sound };

    ghost after = { told_after };

    ghost reply = { told_reply };

    // Seats are numbered from 0, sessions from 1.
    fn step(&mut self, seat: u16, request: Command) -> Reply {
        self.post(seat + 1, request)
    }
}

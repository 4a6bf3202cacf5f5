// One row of the catalogue.
ghost use Rattle.std.specs.Prelude.{◌≡◌};
ghost use Rattle.market_units.specs.Name.{name_bytes};
ghost use Rattle.timetable_rules.specs.Meetings.{meetings_of};
ghost use Rattle.course_catalog.specs.Sections.{Section};

use market_units::Name;
use std::marker::Model;
use timetable_rules::{Meetings, Parts};

/// A section as it is kept. Contracts see it as what its record means.
#[derive(Clone, Drop)]
pub(crate) struct Row {
    pub name: Name,
    pub course: Name,
    pub seats: u16,
    pub credits: u16,
    pub meetings: Meetings,
    pub parts: Parts,
}

impl Model for Row {
    ghost use Rattle.market_units.specs.Name.{name_bytes};
    ghost use Rattle.timetable_rules.specs.Meetings.{meetings_of};
    ghost use Rattle.course_catalog.specs.Sections.{Section};

    ghost Value = { Section };

    ghost view = { λ row. record {
      name = name_bytes row.name;
      course = name_bytes row.course;
      seats = row.seats;
      credits = row.credits;
      meetings = meetings_of row.meetings;
      parts = row.parts;
    } };
}

// The meetings of a section, in a room of fixed size.
ghost use Rattle.std.specs.Prelude.{◌≤◌, All, take};
ghost use Rattle.market_units.specs.declared.limits.TheConstants.{MAX_MEETINGS};
ghost use Rattle.timetable_rules.specs.Days.{AreOnDays};
ghost use Rattle.timetable_rules.specs.Meeting.{IsMeeting};

use crate::Meeting;
use market_units::MAX_MEETINGS;

/// At most ten meetings, in the order in which they were written.
#[derive(Clone, Copy, Debug)]
pub struct Meetings {
    places: [Meeting; MAX_MEETINGS],
    len: usize,
    // The days of the meetings, as bits, so that those of two sections are mostly told apart by one
    // test.
    days: u8,
    ghost few: { len ≤ MAX_MEETINGS },
    // The ranges stand here, so that a `Meeting` is plain data, which definitions can write down.
    ghost each: { All IsMeeting (take len places) },
    ghost on_days: { AreOnDays days (take len places) },
}

impl Meetings {
    ghost use Rattle.std.specs.Prelude.{◌≡◌, ◌<◌, [], ◌∷◌, ◌++◌, length};
    ghost use Rattle.timetable_rules.specs.Meetings.{meetings_of};

    /// No meeting.
    pub fn none() -> Meetings
        ensures { meetings_of result ≡ [] }
    {
        let nowhere = Meeting {
            day: 0,
            start: 0,
            end: 0,
        };
        Meetings {
            places: [nowhere; MAX_MEETINGS],
            len: 0,
            days: 0,
        }
    }

    /// The meetings, as they were written.
    pub fn as_slice(&self) -> &[Meeting]
        ensures value { result.now ≡ meetings_of self.now }
        ensures few { length (meetings_of self.now) ≤ MAX_MEETINGS }
        ensures each { All IsMeeting (meetings_of self.now) }
    {
        &self.places[..self.len]
    }

    /// The days of the meetings, as bits from Monday (bit 0) to Sunday (bit 6).
    pub(crate) fn days(&self) -> u8
        ensures { AreOnDays result (meetings_of self.now) }
    {
        self.days
    }

    /// These meetings and then one more.
    #[must_use]
    pub fn with(self, meeting: Meeting) -> Meetings
        requires room { length (meetings_of self) < MAX_MEETINGS }
        requires meeting { IsMeeting meeting }
        ensures { meetings_of result ≡ meetings_of self ++ meeting ∷ [] }
    {
        let mut places = self.places;
        places[self.len] = meeting;
        Meetings {
            places,
            len: self.len + 1,
            days: self.days | 1 << meeting.day,
        }
    }
}

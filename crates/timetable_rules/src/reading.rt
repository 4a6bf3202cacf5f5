// Meetings out of their written form.
ghost use Rattle.std.specs.Prelude.{◌≡◌, ◌≢◌, ◌+◌, ◌*◌, ◌<◌, ◌++◌, ℕ, [], ◌∷◌, List, IfSome, IfNone, option_map};
ghost use Rattle.timetable_rules.specs.{Meeting.IsMeeting, Meetings.meetings_of, Spelled.spelled};
ghost use Rattle.timetable_rules.specs.Spelling.{Spells, clock, day_letter, spelling, two_digits};
ghost use Rattle.timetable_rules.specs.declared.meeting.Meeting.{Meeting};

use crate::{Meeting, Meetings};
use market_units::MAX_MEETINGS;

/// The meetings that the bytes spell: 1 to 10 of them joined by `;`, or none in an empty text. A
/// meeting is the letter of its day (`M`, `T`, `W`, `R`, `F`, `S`, `U`), its start, `-` and its
/// end; both are two digits of the hour and two of the minute, and the start is before the end.
/// `None` for other bytes.
pub fn read_meetings(bytes: &[u8]) -> Option<Meetings>
    ensures read { IfSome result (λ meetings. Spells bytes.now (meetings_of meetings)) }
    ensures none { IfNone result ((meetings : List Meeting) → ¬ Spells bytes.now meetings) }
    ensures value { option_map meetings_of result ≡ spelled bytes.now }
{
    let mut meetings = Meetings::none();
    if bytes.is_empty() {
        return Some(meetings);
    }
    for piece in bytes.split(|byte| *byte == b';') {
        if meetings.as_slice().len() == MAX_MEETINGS {
            return None;
        }
        meetings = meetings.with(read_meeting(piece)?);
    }
    Some(meetings)
}

// The meeting that the bytes spell.
fn read_meeting(bytes: &[u8]) -> Option<Meeting>
    ensures read { IfSome result (λ meeting. IsMeeting meeting × (bytes.now ≡ spelling meeting)) }
    ensures none { IfNone result
        ((meeting : Meeting) → IsMeeting meeting → bytes.now ≢ spelling meeting) }
{
    let &[letter, a, b, c, d, b'-', e, f, g, h] = bytes else {
        return None;
    };
    let day = read_day(letter)?;
    let start = read_clock(a, b, c, d)?;
    let end = read_clock(e, f, g, h)?;
    if start < end {
        Some(Meeting { day, start, end })
    } else {
        None
    }
}

// The day with this letter.
fn read_day(letter: u8) -> Option<u8>
    ensures read { IfSome result (λ day. (day < 7) × (day_letter day ≡ letter)) }
    ensures none { IfNone result ((day : ℕ) → day < 7 → day_letter day ≢ letter) }
{
    match letter {
        b'M' => Some(0),
        b'T' => Some(1),
        b'W' => Some(2),
        b'R' => Some(3),
        b'F' => Some(4),
        b'S' => Some(5),
        b'U' => Some(6),
        _ => None,
    }
}

// The minute of the day with these two digits of the hour and two of the minute.
fn read_clock(hour_tens: u8, hour_ones: u8, tens: u8, ones: u8) -> Option<u16>
    ensures read { IfSome result
        (λ minute. (minute < 1440) × (clock minute ≡ hour_tens ∷ hour_ones ∷ tens ∷ ones ∷ [])) }
    ensures none { IfNone result
        ((minute : ℕ) → minute < 1440 → clock minute ≢ hour_tens ∷ hour_ones ∷ tens ∷ ones ∷ []) }
{
    let hour = read_pair(hour_tens, hour_ones)?;
    let minute = read_pair(tens, ones)?;
    if hour < 24 && minute < 60 {
        Some(hour * 60 + minute)
    } else {
        None
    }
}

// The number with these two digits.
fn read_pair(tens: u8, ones: u8) -> Option<u16>
    ensures read { IfSome result (λ n. (n < 100) × (two_digits n ≡ tens ∷ ones ∷ [])) }
    ensures none { IfNone result ((n : ℕ) → n < 100 → two_digits n ≢ tens ∷ ones ∷ []) }
{
    if tens.is_ascii_digit() && ones.is_ascii_digit() {
        Some(u16::from(tens - b'0') * 10 + u16::from(ones - b'0'))
    } else {
        None
    }
}

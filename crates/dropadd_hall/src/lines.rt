// Single lines, written behind a text.
ghost use Rattle.std.specs.Prelude.{◌≡◌, ◌<◌, ◌++◌, ◌∷◌, [], All, IfSome, OnOk, codes, length, map};
ghost use Rattle.std.specs.List.{flat_map};
ghost use Rattle.market_units.specs.Name.{name_bytes};
ghost use Rattle.bundle_rules.specs.Bundles.{sections_of};
ghost use Rattle.market_certificate.specs.{Lines.spaced, Tables.name_at};
ghost use Rattle.market_certificate.specs.Texts.{final_line, used_line};
ghost use Rattle.course_catalog.specs.Sections.{section_names};
ghost use Rattle.student_roll.specs.Students.{names_of};
ghost use Rattle.dropadd_desk.specs.Replies.{NamesInRange};
ghost use Rattle.dropadd_hall.specs.Requests.{request_words};
ghost use Rattle.dropadd_hall.specs.Texts.{entry_line, next_fields, reply_words};

use bundle_rules::Bundle;
use chronicle::Step;
use course_catalog::Catalog;
use dropadd_desk::{HallCommand, HallDesk, HallReply};
use market_certificate::{put_bundle_field, put_field, put_number_field};
use market_units::{Name, NoMemory, StudentNo};
use student_roll::Roll;

/// Puts the line of one request and its reply behind the text. Sessions are told by their numbers
/// from 1.
pub(crate) fn put_entry(
    text: &mut Vec<u8>,
    catalog: &Catalog,
    roll: &Roll,
    step: &Step<HallDesk>,
) -> Result<(), NoMemory>
    requires { NamesInRange (record { catalog = catalog.now; roll = roll.now }) step.now.reply }
    ensures { OnOk result
        (text.new.items
        ≡ text.old.items
        ++ entry_line (record { catalog = catalog.now; roll = roll.now }) step.now ++ 10
        ∷ []) }
{
    text.extend_from_slice(b"entry")?;
    put_number_field(text, u64::from(step.seat) + 1)?;
    put_request(text, &step.request)?;
    text.push(b':')?;
    put_reply(text, catalog, roll, step.reply)?;
    text.push(b'\n')?;
    Ok(())
}

// Puts a space and the request behind the text.
fn put_request(text: &mut Vec<u8>, request: &HallCommand) -> Result<(), NoMemory>
    ensures { OnOk result
        (text.new.items ≡ text.old.items ++ 32 ∷ spaced (request_words request.now)) }
{
    match *request {
        HallCommand::Add { student, section } => put_named(text, b"add", &student, &section),
        HallCommand::Drop { student, section } => put_named(text, b"drop", &student, &section),
        HallCommand::Leave { student, section } => put_named(text, b"leave", &student, &section),
        HallCommand::Unreadable => put_field(text, b"unreadable"),
    }
}

// Puts a space, the word and the two names behind the text.
fn put_named(
    text: &mut Vec<u8>,
    word: &[u8],
    student: &Name,
    section: &Name,
) -> Result<(), NoMemory>
    ensures { OnOk result
        (text.new.items
        ≡ text.old.items ++ 32
        ∷ spaced (word.now ∷ name_bytes student.now ∷ name_bytes section.now ∷ [])) }
{
    put_field(text, word)?;
    put_field(text, student.bytes())?;
    put_field(text, section.bytes())
}

// Puts a space and the reply behind the text.
fn put_reply(
    text: &mut Vec<u8>,
    catalog: &Catalog,
    roll: &Roll,
    reply: HallReply,
) -> Result<(), NoMemory>
    requires { NamesInRange (record { catalog = catalog.now; roll = roll.now }) reply }
    ensures { OnOk result
        (text.new.items
        ≡ text.old.items ++ 32
        ∷ spaced (reply_words (record { catalog = catalog.now; roll = roll.now }) reply)) }
{
    match reply {
        HallReply::Unreadable => put_field(text, b"unreadable"),
        HallReply::NoStudent => put_field(text, b"no-student"),
        HallReply::NoSection => put_field(text, b"no-section"),
        HallReply::Holding => put_field(text, b"holding"),
        HallReply::Waiting => put_field(text, b"waiting"),
        HallReply::Clash { with } => {
            put_field(text, b"clash")?;
            put_field(text, catalog.name(with).bytes())
        }
        HallReply::Credits => put_field(text, b"credits"),
        HallReply::Courses => put_field(text, b"courses"),
        HallReply::Added => put_field(text, b"added"),
        HallReply::Queued { ahead } => {
            put_field(text, b"queued")?;
            put_number_field(text, u64::from(ahead))
        }
        HallReply::NotHolding => put_field(text, b"not-holding"),
        HallReply::Dropped { lapsed, next } => {
            put_field(text, b"dropped")?;
            put_number_field(text, u64::from(lapsed))?;
            put_next(text, roll, next)
        }
        HallReply::NotWaiting => put_field(text, b"not-waiting"),
        HallReply::Left => put_field(text, b"left"),
    }
}

// Puts behind the text who has the section next, where there is one.
fn put_next(text: &mut Vec<u8>, roll: &Roll, next: Option<StudentNo>) -> Result<(), NoMemory>
    requires { IfSome next (λ student. student.0 < length roll.now.students) }
    ensures { OnOk result
        (text.new.items ≡ text.old.items ++ next_fields (names_of roll.now.students) next) }
{
    let Some(student) = next else {
        return Ok(());
    };
    put_field(text, b"to")?;
    put_field(text, roll.name(student).bytes())
}

/// Puts the line of what a student holds at last behind the text.
pub(crate) fn put_held(
    text: &mut Vec<u8>,
    catalog: &Catalog,
    student: &Name,
    bundle: &Bundle,
) -> Result<(), NoMemory>
    requires { All (λ s. s < length catalog.now.sections) (sections_of bundle.now) }
    ensures { OnOk result
        (text.new.items
        ≡ text.old.items
        ++ final_line (section_names catalog.now.sections) (name_bytes student.now)
        (sections_of bundle.now)
        ++ 10 ∷ []) }
{
    text.extend_from_slice(b"final")?;
    put_field(text, student.bytes())?;
    put_bundle_field(text, catalog, bundle)?;
    text.push(b'\n')?;
    Ok(())
}

/// Puts the line of a section's waiting list behind the text: who waits longest stands first.
pub(crate) fn put_waiting(
    text: &mut Vec<u8>,
    roll: &Roll,
    section: &Name,
    waiting: &[u16],
) -> Result<(), NoMemory>
    requires { All (λ i. i < length roll.now.students) waiting.now }
    ensures { OnOk result
        (text.new.items
        ≡ text.old.items
        ++ spaced
        (codes "wait" ∷ name_bytes section.now
        ∷ map (name_at (names_of roll.now.students)) waiting.now)
        ++ 10 ∷ []) }
{
    text.extend_from_slice(b"wait")?;
    put_field(text, section.bytes())?;
    put_students(text, roll, waiting)?;
    text.push(b'\n')?;
    Ok(())
}

// Puts a space and the name of each of these students behind the text.
fn put_students(text: &mut Vec<u8>, roll: &Roll, students: &[u16]) -> Result<(), NoMemory>
    requires { All (λ i. i < length roll.now.students) students.now }
    ensures { OnOk result
        (text.new.items
        ≡ text.old.items
        ++ flat_map (λ i. 32 ∷ name_at (names_of roll.now.students) i) students.now) }
{
    'students: for student in students {
        put_field(text, roll.name(StudentNo(*student)).bytes())?;
    }
    Ok(())
}

/// Puts the line of a section's seats behind the text: how many are held, and how many there are.
pub(crate) fn put_seats(
    text: &mut Vec<u8>,
    section: &Name,
    held: u32,
    seats: u16,
) -> Result<(), NoMemory>
    ensures { OnOk result
        (text.new.items
        ≡ text.old.items ++ used_line (name_bytes section.now) (held, seats) ++ 10 ∷ []) }
{
    text.extend_from_slice(b"used")?;
    put_field(text, section.bytes())?;
    put_number_field(text, u64::from(held))?;
    put_number_field(text, u64::from(seats))?;
    text.push(b'\n')?;
    Ok(())
}

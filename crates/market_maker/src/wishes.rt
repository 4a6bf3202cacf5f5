// The lines of a student's ratings and adjustment.
ghost use Rattle.std.specs.Prelude.{◌≡◌, ◌≤◌, ◌<◌, [], ◌∷◌, ◌++◌, OnOk, codes, map};
ghost use Rattle.std.specs.List.{range_with_len};
ghost use Rattle.market_maker.specs.Catalogs.{section_name};
ghost use Rattle.market_maker.specs.Lines.{command_of, ended, text_of};
ghost use Rattle.market_maker.specs.Rolls.{student_name};
ghost use Rattle.market_maker.specs.Sessions.{adjustment_line, adjustment_lines, adjustment_of, rated_count, rated_section, rating_behind, rating_line, rating_of, student_lines};

use crate::lines::{put_decimal, put_name_word, put_signed};
use market_units::NoMemory;

// A student rates at most so many sections.
const MOST_RATED: u16 = 20;

/// What the students of a made market wish. They rate its sections, of which there is one at least;
/// how they rate them goes by the seed.
#[derive(Clone, Copy)]
pub(crate) struct Wishes {
    pub seed: u64,
    pub sections: u16,
    ghost some: { 1 ≤ sections },
}

impl Wishes {
    /// Puts the lines of the student behind the text: its ratings, and behind them its adjustment.
    pub fn put_student(self, text: &mut Vec<u8>, student: u16) -> Result<(), NoMemory>
        ensures { OnOk result
            (text.new.items
            ≡ text.old.items ++ text_of (student_lines self.seed self.sections student)) }
    {
        self.put_ratings(text, student)?;
        self.put_adjustment(text, student)
    }

    // Puts a line behind the text for each section that the student rates.
    fn put_ratings(self, text: &mut Vec<u8>, student: u16) -> Result<(), NoMemory>
        ensures { OnOk result
            (text.new.items
            ≡ text.old.items
            ++ text_of
            (map (rating_behind self.seed self.sections student)
            (range_with_len 0 (rated_count self.sections)))) }
    {
        'ratings: for others in 0..self.sections.min(MOST_RATED) {
            put_rating(
                text,
                self.seed,
                student,
                self.section_behind(student, others),
            )?;
        }
        Ok(())
    }

    // Puts the line of the student's one adjustment behind the text: of the first two sections that
    // it rates. Where it rates fewer, nothing is put.
    fn put_adjustment(self, text: &mut Vec<u8>, student: u16) -> Result<(), NoMemory>
        ensures { OnOk result
            (text.new.items
            ≡ text.old.items ++ text_of (adjustment_lines self.seed self.sections student)) }
    {
        if self.sections.min(MOST_RATED) < 2 {
            return Ok(());
        }
        self.put_adjustment_line(text, student)
    }

    // Puts the line of the student's adjustment behind the text.
    fn put_adjustment_line(self, text: &mut Vec<u8>, student: u16) -> Result<(), NoMemory>
        ensures { OnOk result
            (text.new.items
            ≡ text.old.items ++ ended (adjustment_line self.seed self.sections student)) }
    {
        let first = self.section_behind(student, 0);
        let second = self.section_behind(student, 1);
        put_pair(text, student, first, second)?;
        text.push(b' ')?;
        put_signed(text, adjustment(self.seed, student))?;
        text.push(b'\n')?;
        Ok(())
    }

    // The section that the student rates behind that many others.
    fn section_behind(self, student: u16, others: u16) -> u16
        ensures { result ≡ rated_section self.sections student others }
    {
        let place = (7 * u32::from(student) + u32::from(others)) % u32::from(self.sections);
        place as u16 + 1
    }
}

// Puts the line of the student's rating of the section behind the text.
fn put_rating(text: &mut Vec<u8>, seed: u64, student: u16, section: u16) -> Result<(), NoMemory>
    ensures { OnOk result
        (text.new.items ≡ text.old.items ++ ended (rating_line seed student section)) }
{
    text.extend_from_slice(b"rate")?;
    put_name_word(text, b'S', student)?;
    put_name_word(text, b'C', section)?;
    text.push(b' ')?;
    put_decimal(text, rating(seed, student, section))?;
    text.push(b'\n')?;
    Ok(())
}

// Puts the words of the student's adjustment of these sections behind the text, without its number.
fn put_pair(text: &mut Vec<u8>, student: u16, first: u16, second: u16) -> Result<(), NoMemory>
    ensures { OnOk result
        (text.new.items
        ≡ text.old.items
        ++ command_of
        (codes "pair" ∷ student_name student ∷ section_name first ∷ section_name second
        ∷ [])) }
{
    text.extend_from_slice(b"pair")?;
    put_name_word(text, b'S', student)?;
    put_name_word(text, b'C', first)?;
    put_name_word(text, b'C', second)
}

// How the student rates the section.
fn rating(seed: u64, student: u16, section: u16) -> u64
    ensures { result ≡ rating_of seed student section }
{
    let student = u64::from(student);
    let section = u64::from(section);
    1 + (seed % 100 + 17 * student + 29 * section + 7 * student * section) % 100
}

// What the student adds for the first two of the rated sections together.
fn adjustment(seed: u64, student: u16) -> i8
    ensures { result ≡ adjustment_of seed student }
{
    let sum = (seed % 41 + u64::from(student)) % 41;
    sum as i8 - 20
}

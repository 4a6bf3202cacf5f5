// A student as a roll keeps it.
use market_units::Name;
use std::marker::Model;

/// A student: the name, the base budget in tokens, the most credits and the most courses that it
/// may take, and the tokens carried over from before. Contracts see it as these.
#[derive(Clone, Drop)]
pub(crate) struct Entry {
    pub name: Name,
    pub base: u32,
    pub credits: u16,
    pub courses: u8,
    pub carry: u32,
}

impl Model for Entry {
    ghost use Rattle.market_units.specs.Name.{name_bytes};
    ghost use Rattle.student_roll.specs.Students.{Student};

    ghost Value = { Student };

    ghost view = { λ entry. record { name = name_bytes entry.name; base = entry.base; credits = entry.credits; courses = entry.courses; carry = entry.carry } };
}

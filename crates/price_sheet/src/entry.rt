// A row of a price sheet.
ghost use Rattle.std.specs.Prelude.{◌≡◌};
ghost use Rattle.market_units.specs.Name.{name_bytes};

use market_units::Name;
use std::marker::Model;

/// A priced section, seen as its name and its price.
#[derive(Drop)]
pub(crate) struct Entry {
    section: Name,
    price: u32,
}

impl Model for Entry {
    ghost use Rattle.market_units.specs.Name.{name_bytes};
    ghost use Rattle.price_sheet.specs.Sheets.{Priced};

    ghost Value = { Priced };

    ghost view = { λ entry. record { section = name_bytes entry.section; price = entry.price } };
}

impl Entry {
    /// The row of a section, by its name, and its price in tokens.
    pub fn new(section: Name, price: u32) -> Entry
        ensures { result ≡ record { section = name_bytes section; price = price } }
    {
        Entry { section, price }
    }

    /// The price of the section, in tokens.
    pub fn price(&self) -> u32
        ensures { result ≡ self.now.price }
    {
        self.price
    }
}

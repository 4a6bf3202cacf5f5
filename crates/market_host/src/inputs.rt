// The inputs of a call, read one behind another.
ghost use Rattle.std.specs.Prelude.{◌≡◌, ◌≤◌, Ok, ⊤, get_or, length, map, IfOk, OnOk};
ghost use Rattle.market_words.specs.Inputs.{names_in};
ghost use Rattle.market_words.specs.Kinds as kind;
ghost use Rattle.price_sheet.specs.Sheets.{prices_of};
ghost use Rattle.market_host.specs.{Inputs.BeginWithCatalog, Sessions.AreItemsOf};
ghost use Rattle.market_host.specs.{Taking.HasMore, Taking.Reads, Taking.ReadsNext};
ghost use Rattle.market_host.specs.{Taking.TakesMarket, Taking.TakesNext, Taking.TakesPublished};
ghost use Rattle.market_host.specs.{Taking.TakesRest, Taking.TakesStream, Taking.TakesTables};
ghost use Rattle.market_host.specs.{Taking.behind, Taking.unread};

use crate::input::Input;
use crate::prices::prices_in;
use crate::said::{Market, Published, Streams, Tables};
use crate::stream_item::{StreamItem, items_in};
use crate::trouble::Trouble;
use course_catalog::Catalog;
use market_edge::{Shelf, Taking, read_whole};
use market_settings::Settings;
use market_units::{MAX_COMMANDS, MAX_INPUT_BYTES, MAX_TEXT_BYTES, Tokens};
use market_words::Call;
use std::alloc::Global;
use student_roll::Roll;

/// The inputs of a call, which are read from a shelf in order: their names, and how many of them
/// were read. What stops the reading is told of the number of an input, from 1.
#[derive(Clone, Copy)]
pub struct Inputs<'w> {
    call: Call<'w>,
    read: u16,
}

impl<'w> Inputs<'w> {
    /// All inputs of the call.
    pub fn of(call: Call<'w>) -> Inputs<'w>
        ensures { result ≡ unread call.entry }
    {
        Inputs { call, read: 0 }
    }

    /// What the next input says, which is read by itself, or why there is nothing.
    pub fn next<H: Shelf, I: Input>(&mut self, alloc: Global, shelf: &mut H) -> Result<I, Trouble>
        requires { HasMore self.old 1 }
        ensures taken { TakesNext H.Shelf I.kind (λ _. ⊤) I.is_said_by self.old self.new
            shelf.old shelf.new result }
        ensures sound { IfOk result I.is_sound }
        ensures moved { OnOk result (self.new ≡ behind self.old 1) }
    {
        let bytes = self.bytes(alloc, shelf, MAX_INPUT_BYTES)?;
        I::read_from(alloc, &bytes, self.read)
    }

    /// The next input's prices of the sections of this catalogue, which was the first input, or why
    /// there are none.
    pub fn prices<H: Shelf>(
        &mut self,
        alloc: Global,
        shelf: &mut H,
        catalog: &Catalog,
    ) -> Result<Vec<Tokens>, Trouble>
        requires { HasMore self.old 1 }
        ensures taken { TakesNext H.Shelf kind.Prices
            (λ texts. BeginWithCatalog texts catalog.now)
            (λ text prices. prices_of catalog.now.sections text
            ≡ Ok (map (λ price. price.0) prices.items)) self.old self.new shelf.old shelf.new
            result }
        ensures moved { OnOk result (self.new ≡ behind self.old 1) }
    {
        let bytes = self.bytes(alloc, shelf, MAX_INPUT_BYTES)?;
        prices_in(alloc, catalog, &bytes, self.read)
    }

    /// The bytes of the next input, which is a published text, or why there are none. No text is
    /// refused.
    pub fn text<H: Shelf>(&mut self, alloc: Global, shelf: &mut H) -> Result<Vec<u8>, Trouble>
        requires { HasMore self.old 1 }
        ensures taken { TakesNext H.Shelf kind.Published (λ _. ⊤)
            (λ bytes text. bytes ≡ text.items) self.old self.new shelf.old shelf.new result }
        ensures short { IfOk result (λ text. length text.items ≤ MAX_TEXT_BYTES) }
        ensures moved { OnOk result (self.new ≡ behind self.old 1) }
    {
        self.bytes(alloc, shelf, MAX_TEXT_BYTES)
    }

    /// The catalogue and the roll, which are the first inputs, or why there are none.
    pub fn tables<H: Shelf>(&mut self, alloc: Global, shelf: &mut H) -> Result<Tables, Trouble>
        requires { HasMore self.old 2 }
        ensures taken { TakesTables H.Shelf self.old self.new shelf.old shelf.new result }
        ensures moved { OnOk result (self.new ≡ behind self.old 2) }
    {
        let catalog: Catalog = self.next(alloc, shelf)?;
        let roll: Roll = self.next(alloc, shelf)?;
        Ok(Tables { catalog, roll })
    }

    /// The market, which is the first three inputs, or why there is none.
    pub fn market<H: Shelf>(&mut self, alloc: Global, shelf: &mut H) -> Result<Market, Trouble>
        requires { HasMore self.old 3 }
        ensures taken { TakesMarket H.Shelf self.old self.new shelf.old shelf.new result }
        ensures moved { OnOk result (self.new ≡ behind self.old 3) }
    {
        let tables = self.tables(alloc, shelf)?;
        let settings: Settings = self.next(alloc, shelf)?;
        let Tables { catalog, roll } = tables;
        Ok(Market {
            catalog,
            roll,
            settings,
        })
    }

    /// The market, the text and the sessions, which are all inputs, or what stops the reading.
    pub fn published<H: Shelf>(
        &mut self,
        alloc: Global,
        shelf: &mut H,
    ) -> Result<Published, Trouble>
        requires none { self.old.read ≡ 0 }
        requires front { length self.old.call.front.now ≡ 4 }
        requires some { 1 ≤ length self.old.call.streams.now }
        ensures { TakesPublished H.Shelf self.old shelf.old shelf.new result }
    {
        let market = self.market(alloc, shelf)?;
        let text = self.text(alloc, shelf)?;
        let streams = self.rest(alloc, shelf)?;
        Ok(Published {
            market,
            text,
            streams,
        })
    }

    /// What the next stream says, where there is room for so many items, or why there is nothing.
    /// Its text is not kept.
    pub fn stream<H: Shelf, S: StreamItem>(
        &mut self,
        alloc: Global,
        shelf: &mut H,
        room: u32,
    ) -> Result<Vec<S>, Trouble>
        requires { HasMore self.old 1 }
        ensures taken { TakesStream H.Shelf S.is_item_of room self.old self.new shelf.old
            shelf.new result }
        ensures few { IfOk result (λ stream. length stream.items ≤ room) }
        ensures moved { OnOk result (self.new ≡ behind self.old 1) }
    {
        let bytes = self.bytes(alloc, shelf, MAX_INPUT_BYTES)?;
        items_in(alloc, &bytes, self.read, room)
    }

    /// What all streams say, which are what is left of the inputs, or what stops the reading.
    pub fn rest<H: Shelf, S: StreamItem>(
        &mut self,
        alloc: Global,
        shelf: &mut H,
    ) -> Result<Streams<S>, Trouble>
        requires front { self.old.read ≡ length self.old.call.front.now }
        requires some { 1 ≤ length self.old.call.streams.now }
        ensures { TakesRest H.Shelf
            (λ sessions streams. AreItemsOf S.is_item_of sessions streams.lists.items) self.old
            shelf.old shelf.new result }
    {
        let mut lists = Vec::new(alloc);
        let mut room = MAX_COMMANDS;
        'streams: for _ in self.call.streams {
            let stream = self.stream(alloc, shelf, room)?;
            room -= stream.len() as u32;
            lists.push(stream)?;
        }
        Ok(Streams { lists })
    }

    // The whole text of the next input, or why there is none.
    fn bytes<H: Shelf>(
        &mut self,
        alloc: Global,
        shelf: &mut H,
        limit: usize,
    ) -> Result<Vec<u8>, Trouble>
        requires more { HasMore self.old 1 }
        requires limit { limit ≤ MAX_TEXT_BYTES }
        ensures reads { ReadsNext H.Shelf limit self.old self.new shelf.old shelf.new result }
        ensures within { IfOk result (λ text. length text.items ≤ limit) }
        ensures moved { self.new ≡ behind self.old 1 }
    {
        let name = self.name();
        self.read += 1;
        read_input(alloc, shelf, name, self.read, limit)
    }

    // The name of the next input.
    fn name(&self) -> &'w str
        requires { HasMore self.now 1 }
        ensures { result.now ≡ get_or (names_in self.now.call) self.now.read result.now }
    {
        let place = usize::from(self.read);
        let front = self.call.front;
        if place < front.len() {
            return front[place].as_str();
        }
        self.call.streams[place - front.len()].as_str()
    }
}

// The whole text of the input of this name and number, or why there is none.
fn read_input<H: Shelf>(
    alloc: Global,
    shelf: &mut H,
    name: &str,
    input: u16,
    limit: usize,
) -> Result<Vec<u8>, Trouble>
    requires { limit ≤ MAX_TEXT_BYTES }
    ensures { Reads H.Shelf limit name.now input shelf.old shelf.new result }
{
    match read_whole(alloc, shelf, name, limit) {
        Ok(text) => Ok(text),
        Err(Taking::ShelfFault) => Err(Trouble::ShelfFault { input }),
        Err(Taking::TooLong) => Err(Trouble::TooLong { input }),
        Err(Taking::NoMemory) => Err(Trouble::OutOfMemory),
    }
}

// One student's best bundle at zero prices.
ghost use Rattle.std.specs.Prelude.{◌≡◌, ◌≤◌, List, ℕ, length, nat_lt, IfOk};
ghost use Rattle.bundle_rules.specs.{Bundles.sections_of, Demand.IsBest, Menus.wishes_of};
ghost use Rattle.market_host.specs.Quotes.{IsQuote, state_of_new_desk};
ghost use Rattle.market_host.specs.Works.{IsAnswer};
ghost use Rattle.market_words.specs.Inputs.{IsCall, names_in};
ghost use Rattle.market_units.specs.Name.{name_bytes};
ghost use Rattle.preference_desk.specs.DeskView.{names_of, state_of};
ghost use Rattle.preference_desk.specs.MarketNames.{market_names};
ghost use Rattle.student_roll.specs.Students.{single_student};

use crate::Status;
use crate::ended::{Ended, Output};
use crate::inputs::Inputs;
use crate::text::text_of;
use crate::trouble::Trouble;
use bundle_rules::{Bundle, Menu, utility};
use course_catalog::Catalog;
use demand_oracle::{Workspace, demand};
use market_edge::Shelf;
use market_menus::menus;
use market_units::{
    MAX_COMMANDS, MAX_COURSES, MAX_CREDITS, MAX_SECTIONS, Name, NoMemory, SectionSet, Tokens,
};
use market_words::{Call, Form};
use preference_desk::Desk;
use std::alloc::Global;
use student_roll::Roll;
use utility_language::Command;

const SECTIONS: usize = MAX_SECTIONS as usize;

/// The text of `quote`, or why there is none.
pub fn quote<H: Shelf>(
    alloc: Global,
    call: Call,
    shelf: &mut H,
    name: Name,
    credits: u16,
    courses: u8,
) -> Result<Ended, Trouble>
    requires named { (words : List (List ℕ))
        × IsCall words (Form.Quote name credits courses) call }
    ensures { IsAnswer H.Shelf (Form.Quote name credits courses) (names_in call.entry) shelf.old
        shelf.new result }
{
    let mut inputs = Inputs::of(call);
    let catalog: Catalog = inputs.next(alloc, shelf)?;
    let commands = inputs.stream(alloc, shelf, MAX_COMMANDS)?;
    let text = best_text(alloc, &catalog, &commands, name, credits, courses)?;
    Ok(Ended {
        status: Status::Done,
        output: Output::Text(text),
    })
}

// The two lines that tell the best bundle after these commands and its utility.
fn best_text(
    alloc: Global,
    catalog: &Catalog,
    commands: &[Command],
    name: Name,
    credits: u16,
    courses: u8,
) -> Result<Vec<u8>, NoMemory>
    requires few { length commands.now ≤ MAX_COMMANDS }
    requires credits { credits ≤ MAX_CREDITS }
    requires courses { courses ≤ MAX_COURSES }
    ensures { IfOk result
        (λ text. IsQuote catalog.now.sections (single_student (name_bytes name) credits courses)
        commands.now text.items) }
{
    let roll = Roll::single(alloc, name, credits, courses)?;
    let desk = desk_after(alloc, catalog, &roll, commands)?;
    let menus = menus(alloc, catalog, &roll, desk.closed())?;
    let menu = &menus[0];
    let bundle = best_of(alloc, menu)?;
    let worth = utility(menu, &bundle);
    Ok(text_of(alloc, catalog, &name, bundle.sections(), worth)?)
}

// The best bundle of the menu where nothing has a price and every section is allowed.
fn best_of(alloc: Global, menu: &Menu) -> Result<Bundle, NoMemory>
    ensures { IfOk result
        (λ bundle. IsBest (wishes_of menu.now) (λ _. 0) 0 (λ s. nat_lt s MAX_SECTIONS)
        (sections_of bundle)) }
{
    let mut workspace = Workspace::reserve(alloc)?;
    let _few_places = menu.len();
    let prices = [Tokens(0); SECTIONS];
    let allowed = SectionSet::full(MAX_SECTIONS);
    Ok(demand(&mut workspace, menu, &prices, Tokens(0), &allowed))
}

// A desk to which one session has said these commands.
fn desk_after(
    alloc: Global,
    catalog: &Catalog,
    roll: &Roll,
    commands: &[Command],
) -> Result<Desk, NoMemory>
    requires { length commands.now ≤ MAX_COMMANDS }
    ensures names { IfOk result
        (λ desk. names_of desk ≡ market_names catalog.now.sections roll.now.students) }
    ensures state { IfOk result
        (λ desk. state_of desk
        ≡ state_of_new_desk catalog.now.sections roll.now.students commands.now) }
{
    let mut desk = Desk::prepare(alloc, catalog, roll, commands.len() as u32)?;
    'commands: for command in commands {
        desk.post(1, *command);
    }
    Ok(desk)
}

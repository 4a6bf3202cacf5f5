// What an accepted text says.
use demand_api::Crowd;
use market_certificate::Publication;

/// What an accepted text says, and the students' menus and budgets against which it was checked.
#[derive(Drop)]
pub struct Accepted {
    /// What the text publishes.
    pub publication: Publication,
    /// The students with their menus, after the text's order, and with the budgets that the seed
    /// draws.
    pub crowd: Crowd,
}

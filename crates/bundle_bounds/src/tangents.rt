// What a price of a resource and the next one make of open places: a line that no bound of the
// resource is below.
/// What a price makes of open places, and what the next price makes of them.
#[derive(Clone, Copy, Debug)]
pub(crate) struct Tangent {
    pub(crate) price: u64,
    pub(crate) sum: u64,
    pub(crate) next: u64,
}

/// A tangent of each resource, where one was computed.
#[derive(Clone, Copy, Debug)]
pub(crate) struct Tangents {
    pub(crate) money: Option<Tangent>,
    pub(crate) credits: Option<Tangent>,
    pub(crate) courses: Option<Tangent>,
}

impl Tangents {
    ghost use Rattle.std.specs.Prelude.{◌≡◌, None};

    /// No tangent is computed yet.
    pub(crate) fn none() -> Tangents
        ensures money { result.money ≡ None }
        ensures credits { result.credits ≡ None }
        ensures courses { result.courses ≡ None }
    {
        Tangents {
            money: None,
            credits: None,
            courses: None,
        }
    }
}

// Which of two lists of places has the first on which they differ.
ghost use Rattle.std.specs.Prelude.{◌≡◌};
ghost use Rattle.bundle_rules.specs.Ahead.{is_ahead};

/// Whether the first place on which two ascending lists differ is in the first of them, and below
/// the limit. Each place of the second list is below it: the law `ahead_is_the_first_difference`
/// says that this is what is told.
pub fn is_ahead(limit: u8, champion: &[u8], chosen: &[u8]) -> bool
    ensures { result ≡ is_ahead limit champion.now chosen.now }
{
    match (champion, chosen) {
        ([], _) => false,
        ([place, ..], []) => *place < limit,
        ([place, more @ ..], [other, others @ ..]) => {
            if place == other {
                is_ahead(limit, more, others)
            } else {
                *place < *other
            }
        }
    }
}

// What an audit tells of worked terms.

/// The audit of the ordinary term.
pub const ORDINARY_ENVY: &str = "settled ann 0 0 0
settled bob 0 1 0
sees ann [A] but for A
settled cat 0 0 0
settled total 0 1 0
final ann 0 0 0
final bob 0 1 0
sees ann [A] but for A
final cat 0 0 0
final total 0 1 0
";

/// The audit of four students and one seat: each of the others envies the one whose budget is the
/// greatest.
pub const FOUR_ENVY: &str = "settled s1 0 1 0
sees s4 [X] but for X
settled s2 0 1 0
sees s4 [X] but for X
settled s3 0 1 0
sees s4 [X] but for X
settled s4 0 0 0
settled total 0 3 0
final s1 0 1 0
sees s4 [X] but for X
final s2 0 1 0
sees s4 [X] but for X
final s3 0 1 0
sees s4 [X] but for X
final s4 0 0 0
final total 0 3 0
";

/// The audit of two students of equal budgets: the second envies the first only after the
/// aftermarket.
pub const EQUAL_ENVY: &str = "settled u 0 0 0
settled v 0 0 0
settled total 0 0 0
final u 0 0 0
final v 1 0 0
sees u [X] but for X
final total 1 0 0
";

/// The audit where the student whose budget is the greater is not the one whose base is.
pub const LOWER_BASE_ENVY: &str = "settled u 0 1 0
sees v [X] but for X
settled v 0 0 0
settled total 0 1 0
final u 0 1 0
sees v [X] but for X
final v 0 0 0
final total 0 1 0
";

/// The audit where without either of two sections of equal rating the other is still better than
/// nothing.
pub const BEYOND_ONE_ENVY: &str = "settled u 0 0 0
settled v 0 1 1
sees u [A,B] beyond one
settled total 0 1 1
final u 0 0 0
final v 0 1 1
sees u [A,B] beyond one
final total 0 1 1
";

/// The audit where a student sees only what it rates.
pub const USEFUL_ENVY: &str = "settled u 0 0 0
settled v 0 1 0
sees u [B] but for B
settled total 0 1 0
final u 0 0 0
final v 0 1 0
sees u [B] but for B
final total 0 1 0
";

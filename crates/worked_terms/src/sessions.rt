// Sessions of two students, ann and bob, at a desk with the sections A, B and C.

/// What is said in one session, and what is told of it and of the preferences after it.
#[derive(Clone, Copy)]
pub struct WorkedSession {
    /// The lines of the session.
    pub said: &'static [u8],
    /// What is told.
    pub told: &'static str,
}

/// Preferences are told student by student, sections ascending and lower sections first.
pub const TWO_STUDENTS_SESSION: WorkedSession = WorkedSession {
    said: b"pair bob C A 7
rate bob C 1
rate ann B 2
pair ann B A -3
rate ann A 4
rate bob A 5
pair ann C B 6
",
    told: "entry 1 done pair bob C A 7
entry 1 done rate bob C 1
entry 1 done rate ann B 2
entry 1 done pair ann B A -3
entry 1 done rate ann A 4
entry 1 done rate bob A 5
entry 1 done pair ann C B 6
rate ann A 4
rate ann B 2
pair ann A B -3
pair ann B C 6
rate bob A 5
rate bob C 1
pair bob A C 7
",
};

/// An adjustment stays when a rating goes.
pub const STAYING_SESSION: WorkedSession = WorkedSession {
    said: b"rate ann A 4
pair ann A B 9
rate ann A 0
",
    told: "entry 1 done rate ann A 4
entry 1 done pair ann A B 9
entry 1 done rate ann A 0
pair ann A B 9
",
};

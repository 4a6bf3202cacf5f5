// The words of the command line.
ghost use Rattle.std.specs.Prelude.{◌≡◌, ◌≢◌, ◌≤◌, ◌↔◌, ◌∷◌, ℕ, codes, drop, map, IfSome, IfNone, IsTrue};
ghost use Rattle.std.specs.Fmt.{decimal};
ghost use Rattle.std.specs.String.{string_bytes};
ghost use Rattle.market_words.specs.Forms.{AreSessions, HasNoForm};
ghost use Rattle.market_words.specs.Inputs.{IsCall, NamesInputs};

use crate::Call;
use market_units::{
    MAX_ACCEPT, MAX_COURSES, MAX_CREDITS, MAX_SECTIONS, MAX_SESSIONS, MAX_STUDENTS, MAX_WORKERS,
    Name, read_name, read_number,
};

/// What the words of the command line ask for. The words that name inputs are kept in the `Call`.
#[derive(Clone, Copy)]
pub enum Form {
    /// `quote CAT SES NAME CREDITS COURSES`: the best bundle of one student at zero prices, within
    /// a credit cap of 0 to 800 and a course cap of 0 to 8.
    Quote {
        name: Name,
        credits: u16,
        courses: u8,
    },
    /// `prefer CAT STU SES..`: the journal of 1 to 64 sessions, and the closed preferences.
    Prefer,
    /// `demand W CAT STU SET PRICES SES..`: what 1 to 16 workers find that the students of 1 to 64
    /// sessions take at these prices.
    Demand {
        workers: u16,
    },
    /// `run W CAT STU SET SES..`: the whole market of 1 to 64 sessions, held by 1 to 16 workers.
    Run {
        workers: u16,
    },
    /// `make W SEED STUDENTS SECTIONS ACCEPT`: the summary of a made market of 1 to 2,000 students
    /// and 1 to 400 sections, held by 1 to 16 workers, with a clearing error of at most `accept`, 0
    /// to 10^12. The seed is any.
    Make {
        workers: u16,
        seed: u64,
        students: u16,
        sections: u16,
        accept: u64,
    },
    /// `check CAT STU SET TEXT SES..`: whether a published text is accepted for the market of 1 to
    /// 64 sessions.
    Check,
    /// `explain CAT STU SET TEXT STUDENT SECTION SES..`: why this student has no seat in this
    /// section at the prices of a published text of the market of 1 to 64 sessions.
    Explain {
        student: Name,
        section: Name,
    },
    /// `hall CAT STU TEXT REQ..`: what 1 to 64 streams of requests change after a published text.
    Hall,
    /// `audit W CAT STU SET TEXT SES..`: whom the students envy at a published text of the market
    /// of 1 to 64 sessions, as 1 to 16 workers find it.
    Audit {
        workers: u16,
    },
}

/// What the words ask for, or `None` exactly where they are none of the forms. It takes no memory.
pub fn read_words(words: &[String]) -> Option<Call>
    ensures form { IfSome result
        (λ call. IsCall (map string_bytes words.now) call.form call) }
    ensures none { IfNone result (HasNoForm (map string_bytes words.now)) }
{
    let [verb, more @ ..] = words else {
        return None;
    };
    read_form(verb.as_str(), more)
}

// What the words behind this verb ask for.
fn read_form<'w>(verb: &str, more: &'w [String]) -> Option<Call<'w>>
    ensures form { IfSome result
        (λ call. IsCall (verb.now ∷ map string_bytes more.now) call.form call) }
    ensures none { IfNone result (HasNoForm (verb.now ∷ map string_bytes more.now)) }
{
    if verb == "quote" {
        return read_quote(more);
    }
    if verb == "prefer" {
        return read_prefer(more);
    }
    if verb == "demand" {
        return read_demand(more);
    }
    if verb == "run" {
        return read_run(more);
    }
    if verb == "make" {
        return read_make(more);
    }
    if verb == "check" {
        return read_check(more);
    }
    if verb == "explain" {
        return read_explain(more);
    }
    if verb == "hall" {
        return read_hall(more);
    }
    if verb == "audit" {
        return read_audit(more);
    }
    None
}

// What the words behind `quote` ask for.
fn read_quote(more: &[String]) -> Option<Call>
    ensures form { IfSome result
        (λ call. IsCall (codes "quote" ∷ map string_bytes more.now) call.form call) }
    ensures none { IfNone result (HasNoForm (codes "quote" ∷ map string_bytes more.now)) }
{
    let [_, _, name, credits, courses] = more else {
        return None;
    };
    let name = read_name(name.as_bytes())?;
    let credits = read_number(credits.as_bytes(), u64::from(MAX_CREDITS))?;
    let courses = read_number(courses.as_bytes(), u64::from(MAX_COURSES))?;
    let form = Form::Quote {
        name,
        credits: credits as u16,
        courses: courses as u8,
    };
    Some(Call {
        form,
        front: &more[..1],
        streams: &more[1..2],
    })
}

// What the words behind `prefer` ask for.
fn read_prefer(more: &[String]) -> Option<Call>
    ensures form { IfSome result
        (λ call. IsCall (codes "prefer" ∷ map string_bytes more.now) call.form call) }
    ensures none { IfNone result (HasNoForm (codes "prefer" ∷ map string_bytes more.now)) }
{
    if !are_inputs(more, 2) {
        return None;
    }
    Some(call_of(Form::Prefer, more, 2))
}

// What the words behind `demand` ask for.
fn read_demand(more: &[String]) -> Option<Call>
    ensures form { IfSome result
        (λ call. IsCall (codes "demand" ∷ map string_bytes more.now) call.form call) }
    ensures none { IfNone result (HasNoForm (codes "demand" ∷ map string_bytes more.now)) }
{
    let [workers, inputs @ ..] = more else {
        return None;
    };
    let workers = read_between(workers.as_bytes(), 1, u64::from(MAX_WORKERS))?;
    if !are_inputs(inputs, 4) {
        return None;
    }
    let form = Form::Demand {
        workers: workers as u16,
    };
    Some(call_of(form, inputs, 4))
}

// What the words behind `run` ask for.
fn read_run(more: &[String]) -> Option<Call>
    ensures form { IfSome result
        (λ call. IsCall (codes "run" ∷ map string_bytes more.now) call.form call) }
    ensures none { IfNone result (HasNoForm (codes "run" ∷ map string_bytes more.now)) }
{
    let [workers, inputs @ ..] = more else {
        return None;
    };
    let workers = read_between(workers.as_bytes(), 1, u64::from(MAX_WORKERS))?;
    if !are_inputs(inputs, 3) {
        return None;
    }
    let form = Form::Run {
        workers: workers as u16,
    };
    Some(call_of(form, inputs, 3))
}

// What the words behind `make` ask for.
fn read_make(more: &[String]) -> Option<Call>
    ensures form { IfSome result
        (λ call. IsCall (codes "make" ∷ map string_bytes more.now) call.form call) }
    ensures none { IfNone result (HasNoForm (codes "make" ∷ map string_bytes more.now)) }
{
    let [workers, seed, students, sections, accept] = more else {
        return None;
    };
    let workers = read_between(workers.as_bytes(), 1, u64::from(MAX_WORKERS))?;
    let seed = read_number(seed.as_bytes(), u64::MAX)?;
    let students = read_between(students.as_bytes(), 1, u64::from(MAX_STUDENTS))?;
    let sections = read_between(sections.as_bytes(), 1, u64::from(MAX_SECTIONS))?;
    let accept = read_number(accept.as_bytes(), MAX_ACCEPT)?;
    let form = Form::Make {
        workers: workers as u16,
        seed,
        students: students as u16,
        sections: sections as u16,
        accept,
    };
    Some(Call {
        form,
        front: &[],
        streams: &[],
    })
}

// What the words behind `check` ask for.
fn read_check(more: &[String]) -> Option<Call>
    ensures form { IfSome result
        (λ call. IsCall (codes "check" ∷ map string_bytes more.now) call.form call) }
    ensures none { IfNone result (HasNoForm (codes "check" ∷ map string_bytes more.now)) }
{
    if !are_inputs(more, 4) {
        return None;
    }
    Some(call_of(Form::Check, more, 4))
}

// What the words behind `explain` ask for.
fn read_explain(more: &[String]) -> Option<Call>
    ensures form { IfSome result
        (λ call. IsCall (codes "explain" ∷ map string_bytes more.now) call.form call) }
    ensures none { IfNone result (HasNoForm (codes "explain" ∷ map string_bytes more.now)) }
{
    let [_, _, _, _, student, section, sessions @ ..] = more else {
        return None;
    };
    let student = read_name(student.as_bytes())?;
    let section = read_name(section.as_bytes())?;
    if !are_inputs(sessions, 0) {
        return None;
    }
    Some(Call {
        form: Form::Explain { student, section },
        front: &more[..4],
        streams: sessions,
    })
}

// What the words behind `hall` ask for.
fn read_hall(more: &[String]) -> Option<Call>
    ensures form { IfSome result
        (λ call. IsCall (codes "hall" ∷ map string_bytes more.now) call.form call) }
    ensures none { IfNone result (HasNoForm (codes "hall" ∷ map string_bytes more.now)) }
{
    if !are_inputs(more, 3) {
        return None;
    }
    Some(call_of(Form::Hall, more, 3))
}

// What the words behind `audit` ask for.
fn read_audit(more: &[String]) -> Option<Call>
    ensures form { IfSome result
        (λ call. IsCall (codes "audit" ∷ map string_bytes more.now) call.form call) }
    ensures none { IfNone result (HasNoForm (codes "audit" ∷ map string_bytes more.now)) }
{
    let [workers, inputs @ ..] = more else {
        return None;
    };
    let workers = read_between(workers.as_bytes(), 1, u64::from(MAX_WORKERS))?;
    if !are_inputs(inputs, 4) {
        return None;
    }
    let form = Form::Audit {
        workers: workers as u16,
    };
    Some(call_of(form, inputs, 4))
}

// The number from `least` to `most` that the bytes spell, or `None` exactly where they spell none.
fn read_between(bytes: &[u8], least: u64, most: u64) -> Option<u64>
    ensures least { IfSome result (λ n. least ≤ n) }
    ensures most { IfSome result (λ n. n ≤ most) }
    ensures spelled { IfSome result (λ n. bytes.now ≡ decimal n) }
    ensures none { IfNone result ((n : ℕ) → least ≤ n → n ≤ most → bytes.now ≢ decimal n) }
{
    let number = read_number(bytes, most)?;
    if number < least {
        return None;
    }
    Some(number)
}

// Whether these words name so many inputs, and then sessions: 1 to 64 of them.
fn are_inputs(words: &[String], before: usize) -> bool
    ensures { IsTrue result ↔ AreSessions (drop before (map string_bytes words.now)) }
{
    words.len() > before && words.len() - before <= usize::from(MAX_SESSIONS)
}

// The call of this form whose inputs these words name: so many, and then the sessions.
fn call_of(form: Form, words: &[String], before: usize) -> Call
    requires before { before ≤ 4 }
    requires sessions { AreSessions (drop before (map string_bytes words.now)) }
    ensures { NamesInputs (map string_bytes words.now) form before result }
{
    Call {
        form,
        front: &words[..before],
        streams: &words[before..],
    }
}

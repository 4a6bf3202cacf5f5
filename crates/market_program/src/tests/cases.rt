// Cases as text. A case begins with `== ` and what it shows; below stand its commands, one a line;
// one with the word `1,2,16` stands for three, by so many workers. Then come its files, each below
// a line of `-- ` and the file's name, and its lawful answers, each below a line of `=> ` and the
// number of the status, or the status as it prints itself. A file that does not end in a line feed
// is followed by the next mark at once. Where a line of a file or of an answer names a text of the
// shelf too, it is that text, but for the lines that stand below (`changes`). An answer with the
// line `order any` is lawful with each order of two sessions with two commands each. A command may
// name what stands on the shelf, too.
use super::changes::text_with;
use super::shelf::text_named;
use super::*;

// The orders of two sessions with two commands each.
const ORDERS: [&str; 6] = [
    "order 1 1 2 2\n",
    "order 1 2 1 2\n",
    "order 1 2 2 1\n",
    "order 2 1 1 2\n",
    "order 2 1 2 1\n",
    "order 2 2 1 1\n",
];

/// Runs each command of each case, and fails where one has none of the answers of its case. The
/// head of this file tells what a case is made of.
pub(super) fn try_cases<R: Threads + Wait + Sync + Abort>(
    rt: &R,
    alloc: Global,
    cases: &str,
) -> Result<(), Fail> {
    for case in cases.split("== ") {
        if !case.is_empty() {
            try_case(rt, alloc, case)?;
        }
    }
    Ok(())
}

fn try_case<R: Threads + Wait + Sync + Abort>(
    rt: &R,
    alloc: Global,
    case: &str,
) -> Result<(), Fail> {
    let Some((given, answers)) = case.split_once("=> ") else {
        return Err(Fail::from("a case without an answer"));
    };
    let Some((shows, given)) = given.split_once('\n') else {
        return Err(Fail::from("a case of one line"));
    };
    let (commands, files) = given.split_once("-- ").unwrap_or((given, ""));
    if commands.is_empty() {
        return Err(Fail::from("a case without a command"));
    }
    for command in commands.split_terminator('\n') {
        try_command(rt, alloc, shows, command, files, answers)?;
    }
    Ok(())
}

// Puts the files of a case behind the others.
fn put_files(held: &mut Vec<Held>, alloc: Global, files: &str) -> Result<(), Fail> {
    for file in files.split("-- ") {
        if let Some((title, text)) = file.split_once('\n') {
            let bytes = text_of(alloc, title, text)?;
            held.push(held_of(alloc, first_word(title), &bytes)?)?;
        }
    }
    Ok(())
}

fn first_word(title: &str) -> &str {
    match title.split_once(' ') {
        Some((word, _)) => word,
        None => title,
    }
}

// Runs the command, by each number of workers where it has several.
fn try_command<R: Threads + Wait + Sync + Abort>(
    rt: &R,
    alloc: Global,
    shows: &str,
    command: &str,
    files: &str,
    answers: &str,
) -> Result<(), Fail> {
    let Some((form, inputs)) = command.split_once(" 1,2,16 ") else {
        return try_line(rt, alloc, shows, command, files, answers);
    };
    for workers in [1, 2, 16u8] {
        let line = format!(in alloc; "{form} {workers} {inputs}")?;
        try_line(rt, alloc, shows, line.as_str(), files, answers)?;
    }
    Ok(())
}

fn try_line<R: Threads + Wait + Sync + Abort>(
    rt: &R,
    alloc: Global,
    shows: &str,
    line: &str,
    files: &str,
    answers: &str,
) -> Result<(), Fail> {
    let mut held = named_files(alloc, line)?;
    put_files(&mut held, alloc, files)?;
    let answer = run_held(rt, alloc, line, held, (0, 0), ROOM, &OpenGate)?;
    assert_told(rt, alloc, shows, answers, &answer)
}

/// The bytes of a file in a case. Where its line names a text of the shelf behind its own name, it
/// is that text with these changes; else it is what stands below.
pub(super) fn text_of(alloc: Global, title: &str, text: &str) -> Result<Vec<u8>, Fail> {
    if let Some((_, name)) = title.split_once(' ')
        && let Some(named) = text_named(name)
    {
        return text_with(alloc, named, text);
    }
    Ok(text.as_bytes().to_vec(alloc)?)
}

/// Runs a command over these files, and those of the shelf that it names. Fails where it has none
/// of these answers.
pub(super) fn try_run<R: Threads + Wait + Sync + Abort>(
    rt: &R,
    alloc: Global,
    line: &str,
    files: &[File],
    answers: &str,
) -> Result<(), Fail> {
    let answer = run(rt, alloc, line, files)?;
    assert_told(rt, alloc, line, answers, &answer)
}

/// Fails where the status and the text are none of these answers, and tells what the case shows.
pub(super) fn assert_told<R: Abort>(
    rt: &R,
    alloc: Global,
    shows: &str,
    answers: &str,
    answer: &Answer,
) -> Result<(), Fail> {
    let is_told = is_told(alloc, answers, answer)?;
    assert!(rt; is_told, "{shows}: {answer:?}, not {answers}");
    Ok(())
}

fn is_told(alloc: Global, answers: &str, answer: &Answer) -> Result<bool, Fail> {
    for told in answers.split("=> ") {
        for order in ORDERS {
            let told = told.replace(alloc, "order any\n", order)?;
            if is_answer(alloc, told.as_str(), answer)? {
                return Ok(true);
            }
        }
    }
    Ok(false)
}

fn is_answer(alloc: Global, told: &str, answer: &Answer) -> Result<bool, Fail> {
    let Some((title, text)) = told.split_once('\n') else {
        return Err(Fail::from("an answer without a text"));
    };
    Ok(is_status(alloc, title, &answer.0)? && is_text(alloc, title, text, answer.1.as_str())?)
}

// Whether the line begins with the number of the status, or is the status as it prints itself.
fn is_status(alloc: Global, title: &str, status: &Status) -> Result<bool, Fail> {
    let number = format!(in alloc; "{}", status.number())?;
    let printed = format!(in alloc; "{status:?}")?;
    Ok(first_word(title) == number.as_str() || title == printed.as_str())
}

fn is_text(alloc: Global, title: &str, text: &str, written: &str) -> Result<bool, Fail> {
    let wanted = text_of(alloc, title, text)?;
    Ok(wanted.as_slice() == written.as_bytes())
}

// Texts with other lines.
use super::*;

/// The text with these changes, one a line: the number of a line, from 1, and what stands in its
/// place, or nothing where the line is left out. More lines than one may stand in the place of one.
/// Behind a number and `+` is what stands below that line.
pub(super) fn text_with(alloc: Global, text: &[u8], changes: &str) -> Result<Vec<u8>, Fail> {
    let mut made = Vec::new(alloc);
    for (place, line) in text.split(|byte| *byte == b'\n').enumerate() {
        let number = format!(in alloc; "{}", place.wrapping_add(1))?;
        put_changed(&mut made, line, number.as_str(), changes)?;
    }
    Ok(made)
}

// Puts the line of this number, or what stands in its place, and what stands below it.
fn put_changed(made: &mut Vec<u8>, line: &[u8], number: &str, changes: &str) -> Result<(), Fail> {
    let mut is_changed = false;
    for change in changes.split_terminator('\n') {
        if let Some(with) = change_of(change, number) {
            is_changed = true;
            if !with.is_empty() {
                put_line(made, with.as_bytes())?;
            }
        }
    }
    if !is_changed {
        put_line(made, line)?;
    }
    put_below(made, number, changes)
}

fn put_below(made: &mut Vec<u8>, number: &str, changes: &str) -> Result<(), Fail> {
    for change in changes.split_terminator('\n') {
        if let Some(rest) = change.strip_prefix(number)
            && let Some(below) = rest.strip_prefix("+ ")
        {
            put_line(made, below.as_bytes())?;
        }
    }
    Ok(())
}

// What the change puts in the place of the line of this number, if it is a change of it.
fn change_of<'a>(change: &'a str, number: &str) -> Option<&'a str> {
    let with = change.strip_prefix(number)?;
    if with.is_empty() {
        return Some(with);
    }
    with.strip_prefix(' ')
}

fn put_line(made: &mut Vec<u8>, line: &[u8]) -> Result<(), Fail> {
    if !made.is_empty() {
        made.push(b'\n')?;
    }
    Ok(made.extend_from_slice(line)?)
}

// Lines of a text and words of a line, cut off its front one by one.
ghost use Rattle.std.specs.Prelude.{◌≡◌, ◌<◌, ◌==◌, not, [], ◌∷◌, length, IfNone, IfSome};
ghost use Rattle.std.specs.List.{position};
ghost use Rattle.std.specs.Str.Lines.{strip_carriage_return};
ghost use Rattle.utility_language.specs.{Lines.lines_of, Words.is_blank, Words.words_of};

/// The first line of a text that is not empty, without the carriage return at its end, and the text
/// behind its line feed.
pub fn first_line(text: &[u8]) -> (&[u8], &[u8])
    requires { 0 < length text.now }
    ensures lines { lines_of text.now ≡ result.0.now ∷ lines_of result.1.now }
    ensures shorter { length result.1.now < length text.now }
{
    match find_line_feed(text) {
        Some(end) => (without_return(&text[..end]), &text[end + 1..]),
        None => (without_return(text), &[]),
    }
}

fn find_line_feed(text: &[u8]) -> Option<usize>
    ensures { result ≡ position (λ byte. byte == 10) text.now }
{
    text.iter().position(|byte| *byte == b'\n')
}

// The line without the carriage return at its end, if one stands there.
fn without_return(line: &[u8]) -> &[u8]
    ensures { result.now ≡ strip_carriage_return line.now }
{
    if !line.is_empty() && line[line.len() - 1] == b'\r' {
        return &line[..line.len() - 1];
    }
    line
}

/// The first word of a line, and the line behind it; `None` exactly where only blanks stand.
pub fn first_word(line: &[u8]) -> Option<(&[u8], &[u8])>
    ensures none { IfNone result (words_of line.now ≡ []) }
    ensures words { IfSome result
        (λ parts. words_of line.now ≡ parts.0.now ∷ words_of parts.1.now) }
    ensures some { IfSome result (λ parts. 0 < length parts.0.now) }
{
    let start = find_word(line)?;
    let line = &line[start..];
    match find_blank(line) {
        Some(end) => Some(line.split_at(end)),
        None => Some((line, &[])),
    }
}

// The place of the first byte that is no blank.
fn find_word(line: &[u8]) -> Option<usize>
    ensures { result ≡ position (λ byte. not (is_blank byte)) line.now }
{
    line.iter().position(|byte| !is_blank(*byte))
}

fn find_blank(line: &[u8]) -> Option<usize>
    ensures { result ≡ position is_blank line.now }
{
    line.iter().position(|byte| is_blank(*byte))
}

fn is_blank(byte: u8) -> bool
    ensures { result ≡ is_blank byte }
{
    byte == b' ' || byte == b'\t'
}

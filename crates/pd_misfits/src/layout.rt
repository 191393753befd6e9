//! How the lines of a TOML text lie: which begin with a key or with the head of a table, and where a value goes on over lines.

/// What a line begins with.
pub(crate) enum Start {
    /// The head of a table, under one name without quotes.
    Head,
    /// A key without quotes, and `=`.
    Key,
    /// Nothing, a comment, or another form of a key.
    Other,
    /// What can't be told apart.
    Unknown,
}

/// Whether a byte may stand in a name without quotes.
fn is_bare(byte: u8) -> bool {
    matches!(byte, b'A'..=b'Z' | b'a'..=b'z' | b'0'..=b'9' | b'_' | b'-')
}

/// What stands behind blanks.
fn without_blanks(bytes: &[u8]) -> &[u8] {
    match bytes.iter().position(|byte| !matches!(*byte, b' ' | b'\t')) {
        Some(place) => &bytes[place..],
        None => &[],
    }
}

/// What stands behind a name without quotes, and blanks.
fn behind_name(bytes: &[u8]) -> &[u8] {
    match bytes.iter().position(|byte| !is_bare(*byte)) {
        Some(place) => without_blanks(&bytes[place..]),
        None => &[],
    }
}

/// What a line with a bracket first begins with, by what stands behind its brackets.
fn head_start(bytes: &[u8]) -> Start {
    match (without_blanks(bytes), behind_name(without_blanks(bytes))) {
        ([first, ..], [b']', ..]) if is_bare(*first) => Start::Head,
        _ => Start::Unknown,
    }
}

fn key_start(bytes: &[u8]) -> Start {
    match behind_name(bytes) {
        [b'=', ..] => Start::Key,
        _ => Start::Other,
    }
}

/// What a line begins with, where no value goes on in it.
pub(crate) fn start_of(line: &[u8]) -> Start {
    let line = without_blanks(line);
    match line {
        [] | [b'#' | b'\r' | b'"' | b'\'', ..] => Start::Other,
        [b'[', b'[', behind @ ..] | [b'[', behind @ ..] => head_start(behind),
        [first, ..] if is_bare(*first) => key_start(line),
        _ => Start::Unknown,
    }
}

/// What a byte of a line is part of.
#[derive(Clone, Copy)]
enum Part {
    Value,
    Text,
    /// A text, behind a backslash.
    Escape,
    /// A text without escapes.
    Literal,
    Comment,
}

/// What the next byte is part of.
fn part_behind(part: Part, byte: u8) -> Part {
    match (part, byte) {
        (Part::Value, b'"') | (Part::Escape, _) => Part::Text,
        (Part::Value, b'\'') => Part::Literal,
        (Part::Value, b'#') => Part::Comment,
        (Part::Text, b'\\') => Part::Escape,
        (Part::Text, b'"') | (Part::Literal, b'\'') => Part::Value,
        _ => part,
    }
}

/// In how many brackets what follows stands.
fn depth_behind(part: Part, byte: u8, depth: u64) -> u64 {
    match (part, byte) {
        (Part::Value, b'[' | b'{') => depth.saturating_add(1),
        (Part::Value, b']' | b'}') => depth.saturating_sub(1),
        _ => depth,
    }
}

/// In how many brackets the next line begins, where a line begins in so many.
pub(crate) fn next_depth(line: &[u8], depth: u64) -> u64 {
    let mut depth = depth;
    let mut part = Part::Value;
    for byte in line {
        depth = depth_behind(part, *byte, depth);
        part = part_behind(part, *byte);
    }
    depth
}

/// Whether three quotes stand in a row, as round a text of several lines.
pub(crate) fn has_long_quotes(text: &[u8]) -> bool {
    let mut row: u64 = 0;
    let mut last = b' ';
    for byte in text {
        row = if *byte == last {
            row.saturating_add(1)
        } else {
            1
        };
        last = *byte;
        if row == 3 && matches!(last, b'"' | b'\'') {
            return true;
        }
    }
    false
}

//! The lines of a test script, and the scenario that they name.

ghost use Rattle.std.specs.Prelude.{◌≡◌, drop, option_map};
ghost use Rattle.std.specs.Str.Lines.{lines};
ghost use Rattle.pd_expect.specs.Named.{begins, behind, file_in, is_apart, named_by, scenario_name, script_lines, trim, trim_end};
ghost use Rattle.pd_expect.specs.Named.{trim_start, without_mark};

use pd_scene::first_line;

/// The byte order mark of UTF-8.
const MARK: &[u8] = &[0xEF, 0xBB, 0xBF];

/// Whether a text begins with these bytes.
pub(crate) fn begins(bytes: &[u8], text: &[u8]) -> bool
    ensures { result ≡ begins bytes.now text.now }
{
    let count = bytes.len().min(text.len());
    &text[..count] == bytes
}

/// What stands behind so many bytes.
pub(crate) fn without(text: &[u8], count: usize) -> &[u8]
    ensures { result.now ≡ drop count text.now }
{
    if count <= text.len() {
        &text[count..]
    } else {
        &text[text.len()..]
    }
}

/// What stands behind these bytes, where a text begins with them.
fn behind<'a>(bytes: &[u8], text: &'a [u8]) -> Option<&'a [u8]>
    ensures { option_map (λ rest. rest.now) result ≡ behind bytes.now text.now }
{
    if begins(bytes, text) {
        Some(without(text, bytes.len()))
    } else {
        None
    }
}

/// A script without the byte order mark before its first line.
pub(crate) fn without_mark(script: &[u8]) -> &[u8]
    ensures { result.now ≡ without_mark script.now }
{
    if begins(MARK, script) {
        without(script, MARK.len())
    } else {
        script
    }
}

/// A text without the blanks at its beginning.
fn trim_start(text: &[u8]) -> &[u8]
    ensures { result.now ≡ trim_start text.now }
{
    text.trim_ascii_start()
}

/// A text without the blanks at its end.
fn trim_end(text: &[u8]) -> &[u8]
    ensures { result.now ≡ trim_end text.now }
{
    text.trim_ascii_end()
}

/// A text without either.
fn trim(text: &[u8]) -> &[u8]
    ensures { result.now ≡ trim text.now }
{
    trim_end(trim_start(text))
}

/// Whether a blank stands first.
fn is_apart(text: &[u8]) -> bool
    ensures { result ≡ is_apart text.now }
{
    match text {
        [] => false,
        [byte, ..] => byte.is_ascii_whitespace(),
    }
}

/// The file's name in what stands behind the word `scenario`.
fn file_in(rest: &[u8]) -> Option<&[u8]>
    ensures { option_map (λ file. file.now) result ≡ file_in rest.now }
{
    let file = trim(rest);
    if is_apart(rest) && !file.is_empty() {
        Some(file)
    } else {
        None
    }
}

/// The file that a line names, which is `# scenario FILE`.
fn named_by(line: &[u8]) -> Option<&[u8]>
    ensures { option_map (λ file. file.now) result ≡ named_by line.now }
{
    let comment = behind(b"#", line)?;
    let rest = behind(b"scenario", trim_start(comment))?;
    file_in(rest)
}

/// The file of the scenario that a test script names: that of its first line `# scenario FILE`. A byte order mark may stand before
/// the script, and blanks in the name.
pub fn scenario_name(script: &[u8]) -> Option<&[u8]>
    ensures { option_map (λ file. file.now) result ≡ scenario_name (script_lines script.now) }
{
    let mut rest = without_mark(script);
    while let Some((line, others)) = first_line(rest) {
        if let Some(file) = named_by(line) {
            return Some(file);
        }
        rest = others;
    }
    None
}

//! What is printed at a terminal for a line of a script that is none.

use outcome::command_hint;

/// What is printed for a line of a script that is none. It is the form of the command that its first word names, in letters of either
/// size, with what it does. The forms stand one a line, after a first line. Of no command it is the hint on all.
pub(crate) fn line_hint(forms: &'static str, line: &[u8]) -> &'static str {
    let word = first_word(line);
    for form in forms.lines().skip(1) {
        let form = form.trim_start();
        if first_word(form.as_bytes()).eq_ignore_ascii_case(word) {
            return form;
        }
    }
    command_hint()
}

/// The first word of a line, none of one that is no text.
fn first_word(line: &[u8]) -> &[u8] {
    match str::from_utf8(line) {
        Ok(text) => text.split_whitespace().next().unwrap_or("").as_bytes(),
        Err(_) => b"",
    }
}

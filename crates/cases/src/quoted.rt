//! Texts between quotes, appended.

use crate::case::Case;

/// Appends a line so often: with `\n` for its end, or as `\[N*LINE]` where it is there three times or more.
fn put_times(case: &Case, line: &str, count: usize) {
    if count > 2 {
        case.put_filled("\\[#*", &[count as u64]);
        case.put(line);
        return case.put("]");
    }
    for _ in 0..count {
        case.put(line);
        case.put("\\n");
    }
}

/// Appends lines, those together that are the same one after the other.
fn put_lines(case: &Case, lines: &str) {
    let mut count: usize = 1;
    for (line, next) in lines.split('\n').zip(lines.split('\n').skip(1)) {
        if line == next {
            count = count.saturating_add(1);
        } else {
            put_times(case, line, count);
            count = 1;
        }
    }
    let last = lines.rsplit_once('\n').unwrap_or(("", lines)).1;
    put_times(case, last, count);
}

/// Appends a text between quotes: with `\n` for the end of a line, and `\[N*LINE]` for three lines or more that are the
/// same.
pub fn put_quoted(case: &Case, text: &[u8]) {
    let Ok(text) = str::from_utf8(text) else {
        return case.unread();
    };
    case.put_word("\"");
    match text.rsplit_once('\n') {
        Some((lines, last)) => {
            put_lines(case, lines);
            case.put(last);
        }
        None => case.put(text),
    }
    case.put("\"");
}

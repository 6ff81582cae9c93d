//! A report as a page that fetches nothing.

use crate::report::Report;
use crate::svg::{picture_of, push_escaped};
use crate::table::push_html;
use crate::windows::push_windows;
use std::alloc::{AllocError, Global};

const HEAD: &str = "<!DOCTYPE html>
<html lang=\"en\">
<head>
<meta charset=\"utf-8\">
<meta name=\"viewport\" content=\"width=device-width\">
<title>";

const STYLE: &str = "</title>
<style>
body { font-family: sans-serif; margin: 2em auto; max-width: 60em; padding: 0 1em; color: #222; background: #fff; }
table { border-collapse: collapse; margin: 1.5em 0; font-variant-numeric: tabular-nums; }
caption { text-align: left; padding-bottom: 0.4em; }
th, td { padding: 0.25em 0.8em; border-bottom: 1px solid #ddd; text-align: right; }
th[scope=row] { text-align: left; }
pre { background: #f4f4f4; padding: 0.8em; white-space: pre-wrap; }
svg { max-width: 100%; height: auto; }
</style>
</head>
<body>
<h1>";

/// The page of a report, with the command that made it.
pub fn page_of(alloc: Global, report: &Report, command: &[String]) -> Result<String, AllocError> {
    let mut text = String::from_str(alloc, HEAD)?;
    push_escaped(&mut text, report.title.as_str())?;
    text.push_str(STYLE)?;
    push_escaped(&mut text, report.title.as_str())?;
    text.push_str("</h1>\n")?;
    text.push_str(picture_of(alloc, report, false)?.as_str())?;
    for measure in report.measures() {
        push_html(alloc, &mut text, report, *measure)?;
    }
    let mut windows = String::new(alloc);
    push_windows(alloc, &mut windows, report)?;
    if !windows.is_empty() {
        text.push_str("<pre>")?;
        push_escaped(&mut text, windows.as_str().trim_start())?;
        text.push_str("</pre>\n")?;
    }
    for note in &report.notes {
        text.push_str("<p>")?;
        push_escaped(&mut text, note.as_str())?;
        text.push_str("</p>\n")?;
    }
    text.push_str("<pre>foyer-trace")?;
    for word in command {
        text.push(' ')?;
        push_word(&mut text, word.as_str())?;
    }
    text.push_str("</pre>\n</body>\n</html>\n")?;
    Ok(text)
}

// A word as a shell takes it.
fn push_word(text: &mut String, word: &str) -> Result<(), AllocError> {
    let is_plain = word.as_bytes().iter().all(|byte| byte.is_ascii_alphanumeric()
        || b"-_./:,=+%".as_slice().contains(byte));
    if is_plain && !word.is_empty() {
        return push_escaped(text, word);
    }
    text.push('\'')?;
    for letter in word.chars() {
        if letter == '\'' {
            text.push_str("'\\''")?;
        } else if letter == '&' {
            text.push_str("&amp;")?;
        } else if letter == '<' {
            text.push_str("&lt;")?;
        } else {
            text.push(letter)?;
        }
    }
    text.push('\'')
}

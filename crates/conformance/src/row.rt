//! A line of the table, `CALL WORDS = ANSWER`, and whether the call gives that answer.

use crate::calls::answer;
use crate::held::Held;
use std::alloc::Global;

/// A name, and the text that it stands for in the rows after it.
type Name<'a> = (&'a str, &'a str);

/// A line for each row that does not hold, and a last one with how many rows there are and how many
/// of them do not; `None` where memory ran out. Lines that begin with `#` and empty ones are no
/// rows. `let NAME = TEXT` is none either.
pub(crate) fn rows_text(alloc: Global, table: &str) -> Option<String> {
    let mut held = Held::new(alloc)?;
    let mut names = Vec::new(alloc);
    let mut out = String::new(alloc);
    try_rows(alloc, &mut held, &mut names, &mut out, table)?;
    Some(out)
}

/// Tries the rows, and puts what is said of them at the end of the text.
fn try_rows<'a>(
    alloc: Global,
    held: &mut Held,
    names: &mut Vec<Name<'a>>,
    out: &mut String,
    table: &'a str,
) -> Option<()> {
    let mut rows: u64 = 0;
    let mut wrong: u64 = 0;
    for line in table.lines() {
        if let Some(name) = line.strip_prefix("let ") {
            names.push(name.split_once(" = ")?).ok()?;
        } else if is_row(line) {
            rows = rows.saturating_add(1);
            if !holds(alloc, held, names.as_slice(), out, line)? {
                wrong = wrong.saturating_add(1);
            }
        }
    }
    let count = format!(in alloc; "{rows} rows, {wrong} wrong\n").ok()?;
    out.push_str(count.as_str()).ok()
}

fn is_row(line: &str) -> bool {
    !line.is_empty() && !line.starts_with('#')
}

/// Whether the call of a row gives the answer that is wanted. Where it does not, the line and what
/// it gives are put at the end of the text. `None` where memory ran out for that.
fn holds(
    alloc: Global,
    held: &mut Held,
    names: &[Name<'_>],
    out: &mut String,
    line: &str,
) -> Option<bool> {
    let Some(row) = written_out(alloc, names, line) else {
        return push_wrong(alloc, out, line, "no row, or out of memory");
    };
    let Some((asked, wanted)) = row.as_str().split_once(" = ") else {
        return push_wrong(alloc, out, line, "no row");
    };
    let (call, words) = call_of(asked);
    match answer(alloc, held, call, words) {
        None => push_wrong(alloc, out, line, "nothing: other words, or out of memory"),
        Some(text) => {
            if text.as_str() == wanted {
                return Some(true);
            }
            push_wrong(alloc, out, line, text.as_str())
        }
    }
}

/// The word that names the call, and the words after it.
fn call_of<'a>(asked: &'a str) -> (&'a str, &'a str) {
    match asked.split_once(' ') {
        Some((call, words)) => (call, words),
        None => (asked, ""),
    }
}

/// Puts the line and what it gives at the end of the text, and answers that the row does not hold.
fn push_wrong(alloc: Global, out: &mut String, line: &str, gives: &str) -> Option<bool> {
    let text = format!(in alloc; "{line}\n  gives {gives}\n").ok()?;
    out.push_str(text.as_str()).ok()?;
    Some(false)
}

/// The line with each `{TEXT*N}` in it written out as N times TEXT, and each `{NAME}` as what it
/// stands for; `None` where it is no such line, or memory ran out.
fn written_out(alloc: Global, names: &[Name<'_>], line: &str) -> Option<String> {
    let mut pieces = line.split('{');
    let mut out = String::from_str(alloc, pieces.next()?).ok()?;
    for piece in pieces {
        push_piece(&mut out, names, piece)?;
    }
    Some(out)
}

/// Puts `TEXT*N}REST` or `NAME}REST`, written out, at the end of the text.
fn push_piece(out: &mut String, names: &[Name<'_>], piece: &str) -> Option<()> {
    let (word, rest) = piece.split_once('}')?;
    match word.split_once('*') {
        Some((text, times)) => push_repeated(out, text, times.parse().ok()?)?,
        None => out.push_str(named(names, word)?).ok()?,
    }
    out.push_str(rest).ok()
}

/// Puts the text that many times at the end of the other.
fn push_repeated(out: &mut String, text: &str, times: u32) -> Option<()> {
    for _ in 0..times {
        out.push_str(text).ok()?;
    }
    Some(())
}

/// What the name stands for.
fn named<'a>(names: &[Name<'a>], word: &str) -> Option<&'a str> {
    for (name, text) in names {
        if *name == word {
            return Some(*text);
        }
    }
    None
}

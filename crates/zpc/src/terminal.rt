//! What the output of a play is, where it is a terminal.

use crate::asking::Asked;
use std::env;
use std::io::IsTerminal;
use std::rt::Runtime;
use zscreen::StatusLines;

/// How many columns a terminal is taken to have that doesn't say so.
const COLUMNS: u16 = 80;

/// How many rows a terminal is taken to have that doesn't say so.
const ROWS: u16 = 24;

/// The most columns or rows that are believed.
const MOST: u16 = 1000;

/// How the text of a play is shown.
#[derive(Clone, Copy)]
pub struct Shape {
    /// How many columns text is wrapped at, if it is.
    pub width: Option<u16>,
    /// How many columns the status line at the top has, if one is drawn.
    pub heading: Option<u16>,
    /// How many rows text has before it stops for a key; 0 where it doesn't.
    pub rows: u16,
    /// Whether lines of a file are shown as if they were typed.
    pub echoes: bool,
}

/// How text is shown that is no play's: as it is.
const AS_IT_IS: Shape = Shape {
    width: None,
    heading: None,
    rows: 0,
    echoes: false,
};

/// How the text of a play is shown, or of what isn't one.
pub fn shape_of(rt: &HostRuntime, asked: Option<Asked<'_>>) -> Shape {
    let Some(asked) = asked else {
        return AS_IT_IS;
    };
    let heading = match asked.status {
        StatusLines::Framed if moves_cursor(rt) && !asked.front.plain => {
            Some(columns_asked(rt, asked))
        }
        _ => None,
    };
    Shape {
        width: width(rt, asked),
        heading,
        rows: rows(rt, asked, heading.is_some()),
        echoes: rt.stdout().is_terminal(),
    }
}

/// Whether the output is a terminal that is told where its cursor goes: one with a name, which isn't `dumb`.
pub fn moves_cursor(rt: &HostRuntime) -> bool {
    if !rt.stdout().is_terminal() {
        return false;
    }
    match env::var(rt, "TERM") {
        Ok(name) => !name.is_empty() && name.as_str() != "dumb",
        Err(_) => false,
    }
}

/// How many columns text is wrapped at, if it is: on a terminal, unless that isn't wanted, those that it has.
fn width(rt: &HostRuntime, asked: Asked<'_>) -> Option<u16> {
    if asked.front.plain {
        return None;
    }
    match asked.front.width {
        Some(width) => Some(width),
        None if rt.stdout().is_terminal() => Some(number_of(rt, "COLUMNS", COLUMNS)),
        None => None,
    }
}

/// How many columns a play's terminal has, or is said to have.
fn columns_asked(rt: &HostRuntime, asked: Asked<'_>) -> u16 {
    match asked.front.width {
        Some(width) => width,
        None => number_of(rt, "COLUMNS", COLUMNS),
    }
}

/// How many rows text has before it stops: where lines are typed, those below the status line, and else 0.
fn rows(rt: &HostRuntime, asked: Asked<'_>, is_headed: bool) -> u16 {
    if asked.front.plain || !rt.stdin().is_terminal() || !moves_cursor(rt) {
        return 0;
    }
    let rows = number_of(rt, "LINES", ROWS);
    if is_headed {
        rows.saturating_sub(1)
    } else {
        rows
    }
}

/// The number from 1 to the most that is believed that the surroundings give a name, or another one.
fn number_of<R: Runtime>(rt: &R, name: &str, other: u16) -> u16 {
    let Ok(text) = env::var(rt, name) else {
        return other;
    };
    match text.as_str().parse::<u16>() {
        Ok(number) if 0 < number && number <= MOST => number,
        _ => other,
    }
}

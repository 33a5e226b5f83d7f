//! The line on standard error that says how far long work has come.
use std::cell::Cell;
use std::fmt::Display;

/// One line on standard error that says how far long work has come. It is overwritten by the next one, and erased
/// before anything else is written. If standard error is no terminal, no line is shown.
#[derive(Drop)]
pub struct Progress<'a, R> {
    rt: &'a R,
    is_terminal: bool,
    is_shown: Cell<bool>,
}

impl<'a, R: Eprint> Progress<'a, R> {
    /// No line is shown yet. Whether standard error is a terminal has to be found out before a file is opened, which
    /// could take the place of a closed standard error.
    pub fn new(rt: &'a R, is_terminal: bool) -> Self {
        Progress {
            rt,
            is_terminal,
            is_shown: Cell::new(false),
        }
    }

    /// Whether standard error is a terminal.
    pub fn is_terminal(&self) -> bool {
        self.is_terminal
    }

    /// Shows this line in place of the last one.
    pub fn show<D: Display + Drop>(&self, line: D) {
        if self.is_terminal {
            self.is_shown.set(true);
            let _ = eprint!(self.rt; "\r{line}\x1b[K");
        }
    }

    /// Erases the line, if one is shown.
    pub fn clear(&self) {
        if self.is_shown.replace(false) {
            let _ = eprint!(self.rt; "\r\x1b[K");
        }
    }
}

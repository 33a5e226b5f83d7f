//! Counts files and octets, and shows from time to time how many there were.
use crate::progress_line::Progress;
use bag_sqlite::Watch;
use std::cell::Cell;
use std::fmt::{self, Display, Formatter, Write};
use std::fs;
use std::rt::Files;

/// How many octets are counted from one line to the next.
const PER_LINE: u64 = 64 << 20;

/// How many octets a file counts for, besides its own.
const PER_FILE: u64 = 64 << 10;

/// What is done with files.
#[derive(Clone, Copy)]
pub enum Activity {
    ReadingLedger,
    Checking,
    Copying,
    TakingIn,
    Auditing,
    Fetching,
    Exporting,
}

impl Display for Activity {
    fn fmt<W: Write>(&self, f: &mut Formatter<W>) -> fmt::Result {
        f.write_str(match self {
            Activity::ReadingLedger => "reading the ledger,",
            Activity::Checking => "checking",
            Activity::Copying => "copying",
            Activity::TakingIn => "taking in",
            Activity::Auditing => "auditing",
            Activity::Fetching => "fetching",
            Activity::Exporting => "exporting",
        })
    }
}

/// Counts the files and octets of some work, and shows a line after each 64 MiB or 1,024 files.
#[derive(Drop)]
pub struct Meter<'a, R> {
    progress: &'a Progress<'a, R>,
    activity: Activity,
    is_on: Cell<bool>,
    files_expected: Cell<Option<usize>>,
    octets_expected: Cell<Option<u64>>,
    files: Cell<u64>,
    octets: Cell<u64>,
    // what was counted since the last line
    unshown: Cell<u64>,
}

impl<'a, R: Eprint> Meter<'a, R> {
    /// Nothing was counted yet. If standard error is no terminal, nothing will be.
    pub fn new(progress: &'a Progress<'a, R>, activity: Activity) -> Self {
        Meter {
            progress,
            activity,
            is_on: Cell::new(progress.is_terminal()),
            files_expected: Cell::new(None),
            octets_expected: Cell::new(None),
            files: Cell::new(0),
            octets: Cell::new(0),
            unshown: Cell::new(0),
        }
    }

    /// Counts and shows nothing more.
    pub fn stop(&self) {
        self.is_on.set(false);
    }

    /// So many more files are expected.
    pub fn expect_files(&self, files: usize) {
        let expected = self.files_expected.get().unwrap_or(0);
        self.files_expected
            .set(Some(expected.saturating_add(files)));
    }

    /// So many more octets are expected. Shows a line if they are enough for one.
    pub fn expect_octets(&self, octets: u64) {
        let expected = self.octets_expected.get().unwrap_or(0);
        let expected = expected.saturating_add(octets);
        self.octets_expected.set(Some(expected));
        if self.is_on.get() && expected >= PER_LINE {
            self.progress.show(self.line());
        }
    }

    /// Shows a line if it is time for one.
    fn count(&self, octets: u64) {
        let unshown = self.unshown.get().saturating_add(octets);
        if unshown < PER_LINE {
            self.unshown.set(unshown);
        } else {
            self.unshown.set(0);
            self.progress.show(self.line());
        }
    }

    /// The line for what was counted so far.
    fn line(&self) -> MeterLine {
        MeterLine {
            activity: self.activity,
            files: self.files.get(),
            files_expected: self.files_expected.get(),
            octets: self.octets.get(),
            octets_expected: self.octets_expected.get(),
        }
    }
}

impl<R: Files + Eprint> Meter<'_, R> {
    /// The octets of the file with this name are expected, if there is one.
    pub fn expect_file(&self, rt: &R, name: &str) {
        if !self.is_on.get() {
            return;
        }
        if let Ok(found) = fs::metadata(rt, name) {
            self.expect_octets(found.len());
        }
    }
}

impl<R: Eprint> Watch for Meter<'_, R> {
    fn add_file(&self) {
        if self.is_on.get() {
            self.files.set(self.files.get().saturating_add(1));
            self.count(PER_FILE);
        }
    }

    fn add_octets(&self, octets: u64) {
        if self.is_on.get() {
            self.octets.set(self.octets.get().saturating_add(octets));
            self.count(octets);
        }
    }
}

/// A line that says how many files and octets were counted.
#[derive(Clone, Copy)]
struct MeterLine {
    activity: Activity,
    files: u64,
    files_expected: Option<usize>,
    octets: u64,
    octets_expected: Option<u64>,
}

impl Display for MeterLine {
    fn fmt<W: Write>(&self, f: &mut Formatter<W>) -> fmt::Result {
        write!(f, "bag: {} {}", self.activity, Grouped(self.files))?;
        if let Some(expected) = self.files_expected {
            write!(f, " of {}", Grouped(expected as u64))?;
        }
        write!(f, " files, {}", Size(self.octets))?;
        match self.octets_expected {
            Some(expected) => write!(f, " of {}", Size(expected)),
            None => Ok(()),
        }
    }
}

/// A number whose thousands are set off by commas.
#[derive(Clone, Copy)]
struct Grouped(u64);

impl Display for Grouped {
    fn fmt<W: Write>(&self, f: &mut Formatter<W>) -> fmt::Result {
        let (thousands, units) = (self.0 / 1_000, self.0 % 1_000);
        let (millions, thousands) = (thousands / 1_000, thousands % 1_000);
        match (millions, thousands) {
            (0, 0) => write!(f, "{units}"),
            (0, _) => write!(f, "{thousands},{units:03}"),
            _ => write!(f, "{millions},{thousands:03},{units:03}"),
        }
    }
}

/// A number of octets in KiB, or in the largest larger unit that it fills, with one decimal place.
#[derive(Clone, Copy)]
struct Size(u64);

impl Display for Size {
    fn fmt<W: Write>(&self, f: &mut Formatter<W>) -> fmt::Result {
        let kib = self.0 / 1_024;
        let mib = kib / 1_024;
        let gib = mib / 1_024;
        if mib == 0 {
            write!(f, "{kib} KiB")
        } else if gib == 0 {
            write!(f, "{mib}.{} MiB", tenths(kib))
        } else if gib < 1_024 {
            write!(f, "{gib}.{} GiB", tenths(mib))
        } else {
            write!(f, "{}.{} TiB", gib / 1_024, tenths(gib))
        }
    }
}

/// The first decimal place of this many 1,024ths.
fn tenths(parts: u64) -> u64 {
    parts % 1_024 * 10 / 1_024
}

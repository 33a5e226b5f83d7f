//! What the calls of a list are made on.
use crate::breaker::Breaker;
use crate::commanding::command_on;
use crate::deliveries::answer;
use crate::drafting::Draft;
use crate::event::Event;
use crate::keepers::Reopened;
use crate::ledger_opening::{adopt_text, adopted};
use crate::lines::{Answers, bad_line};
use crate::valuing::answer_value;
use bag_receiver::Receiver;
use bag_sqlite::AdoptFault;
use sqlite::Connection;
use std::alloc::Global;
use std::io::{self, Write};

/// A ledger, which may be closed, and a draft of a bag.
#[derive(Drop)]
pub struct World<'a, K: Reopened<'a>> {
    breaker: &'a Breaker,
    receiver: Option<Receiver<K>>,
    // what is left of a ledger that isn't open
    closed: Option<K::Closed>,
    // the ledger in a file that is to be loaded
    stored: Option<K::Closed>,
    openings: u64,
    draft: Draft,
}

impl<'a, K: Reopened<'a>> World<'a, K> {
    /// There is no ledger, and nothing in the draft.
    pub fn new(alloc: Global, breaker: &'a Breaker) -> Self {
        World {
            breaker,
            receiver: None,
            closed: None,
            stored: None,
            openings: 0,
            draft: Draft::new(alloc),
        }
    }

    /// Keeps the file of a database that a call will load.
    pub fn store(&mut self, alloc: Global, event: &Event<'_>) -> io::Result<()> {
        if event.word == "load" {
            let (_, database) = event.file()?;
            self.stored = Some(K::in_file(alloc, self.breaker, database)?);
        }
        Ok(())
    }

    /// Makes the call, and writes its answer.
    pub fn call<W: Write + Drop>(
        &mut self,
        alloc: Global,
        event: &mut Event<'_>,
        out: &mut W,
    ) -> io::Result<()> {
        match event.word {
            "start" => {
                self.replace(Some(K::nothing(alloc, self.breaker)));
                self.open(alloc, "started", out)
            }
            "load" => {
                let stored = self.stored.take();
                self.replace(stored);
                self.open(alloc, "opened", out)
            }
            "reopen" => self.open(alloc, "opened", out),
            "left" => self.leave(out),
            "adopt" => adopt_nothing(alloc, out),
            word if Draft::has_word(word) => self.draft.answer(alloc, event, self.breaker, out),
            word if is_on_ledger(word) => self.call_on_ledger(alloc, event, out),
            _ => answer_value(alloc, event, self.breaker, out),
        }
    }

    /// Drops the ledger, and has another one in its place.
    fn replace(&mut self, closed: Option<K::Closed>) {
        self.receiver = None;
        self.closed = closed;
    }

    /// Closes the ledger if it is open, and opens it.
    fn open<W: Write + Drop>(&mut self, alloc: Global, done: &str, out: &mut W) -> io::Result<()> {
        let Some(closed) = self.close() else {
            return Err(bad_line());
        };
        match self.open_from(alloc, closed) {
            Ok(()) => write!(out, "{done}"),
            Err(fault) => write!(out, "refused: {}", adopt_text(&fault)),
        }
    }

    /// Closes the ledger if it is open, and takes out what is left of it.
    fn close(&mut self) -> Option<K::Closed> {
        match self.receiver.take() {
            Some(receiver) => Some(receiver.into_keeper().into_closed()),
            None => self.closed.take(),
        }
    }

    /// Opens the ledger. If it is refused, it stays closed.
    fn open_from(&mut self, alloc: Global, closed: K::Closed) -> Result<(), AdoptFault> {
        self.openings = self.openings.saturating_add(1);
        match K::opened_from(alloc, closed, self.breaker, self.openings) {
            Ok(keeper) => {
                self.receiver = Some(Receiver::new(alloc, keeper));
                Ok(())
            }
            Err((fault, closed)) => {
                self.closed = Some(closed);
                Err(fault)
            }
        }
    }

    /// Leaves the ledger if it is open, as a program does that stops, and shows what its files hold.
    fn leave<W: Write + Drop>(&mut self, out: &mut W) -> io::Result<()> {
        if let Some(receiver) = self.receiver.take() {
            self.closed = Some(receiver.into_keeper().into_left(self.breaker));
        }
        write!(out, "left")?;
        match &self.closed {
            Some(closed) => K::write_left(closed, out),
            None => Err(bad_line()),
        }
    }

    /// A ledger that isn't open is opened first.
    fn call_on_ledger<W: Write + Drop>(
        &mut self,
        alloc: Global,
        event: &mut Event<'_>,
        out: &mut W,
    ) -> io::Result<()> {
        if self.receiver.is_none() {
            self.open(alloc, "", out)?;
        }
        let Some(receiver) = &mut self.receiver else {
            return Ok(());
        };
        if event.word.ends_with("-to") {
            command_on(alloc, receiver, &mut self.draft, event, self.breaker, out)
        } else {
            answer(alloc, receiver, event, self.breaker, out)
        }
    }
}

/// Whether a call with this word is on a ledger.
fn is_on_ledger(word: &str) -> bool {
    word.ends_with("-to")
        || [
            "begin",
            "deliver",
            "read",
            "break",
            "run",
            "bring",
            "bring-first",
            "bring-end",
            "report",
            "audit",
            "names",
            "fetch",
            "export",
        ]
        .contains(&word)
}

/// Opens a database in memory that has no tables as a ledger, and writes what is answered.
fn adopt_nothing<W: Write + Drop>(alloc: Global, out: &mut W) -> io::Result<()> {
    let Ok(connection) = Connection::open_in_memory(alloc) else {
        return write!(out, "refused: memory");
    };
    match adopted(connection) {
        Ok(_) => write!(out, "opened"),
        Err((fault, _)) => write!(out, "refused: {}", adopt_text(&fault)),
    }
}

/// Makes the call of each line.
impl<'a, K: Reopened<'a>> Answers for World<'a, K> {
    fn answer<W: Write + Drop>(
        &mut self,
        alloc: Global,
        words: &[&str],
        out: &mut W,
    ) -> io::Result<()> {
        let mut event = Event::parse(alloc, words)?;
        self.store(alloc, &event)?;
        self.call(alloc, &mut event, out)?;
        writeln!(out)
    }
}

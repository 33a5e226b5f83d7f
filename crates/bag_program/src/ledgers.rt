//! Opens and closes ledgers by name.
ghost use Rattle.std.specs.Prelude.{◌≡◌, ◌↔◌, [], ℕ, IfErr, List, MatchResult, None, false, true};
ghost use Rattle.bag_program.specs.LedgerFiles.{IsUnused, OpensOrMakes};
ghost use Rattle.bag_ledger.specs.Ledgers.{Ledger};
ghost use Rattle.bag_receiver.specs.Receivers.{IsKept};
ghost use Rattle.bag_receiver.specs.LedgerStates.{settled};
ghost use Rattle.bag_program.specs.declared.ledgers.unopened_ledger.Unopened.{Unopened};
ghost use Rattle.sqlite_wal.specs.Files.{image_at};

use crate::ledgers::ledger_cause::LedgerCause;
use crate::ledgers::ledger_file::{LedgerFile, OpenedFile, UnopenedFile};
use crate::ledgers::open_ledger::{Closed, FileKeeper, OpenLedger};
use crate::ledgers::unopened_ledger::{Left, Unopened};
use crate::progress_line::Progress;
use bag_ledger::Keeper;
use sqlite::{FileFrom, Start};
use sqlite_disk::Disk;

pub mod abandoned_ledger;
pub mod found_ledger;
pub mod ledger_cause;
pub mod ledger_file;
pub mod ledger_handle;
pub mod locked_file;
pub mod locking;
pub mod open_ledger;
pub mod unopened_ledger;
pub mod unopened_line;

/// A ledger that was opened or made.
#[derive(Drop)]
pub struct Opened<K, F> {
    /// The keeper.
    pub kept: K,
    /// What the ledger is closed with.
    pub file: F,
    /// Whether the ledger was made.
    pub is_made: bool,
}

impl<K, F> Opened<K, F> {
    /// The ledger existed.
    pub fn found(kept: K, file: F) -> Opened<K, F>
        ensures { (result.kept ≡ kept) × (result.file ≡ file) × (result.is_made ≡ false) }
    {
        Opened {
            kept,
            file,
            is_made: false,
        }
    }

    /// The ledger was made.
    pub fn made(kept: K, file: F) -> Opened<K, F>
        ensures { (result.kept ≡ kept) × (result.file ≡ file) × (result.is_made ≡ true) }
    {
        Opened {
            kept,
            file,
            is_made: true,
        }
    }
}

/// Opens a ledger by its name. This is used up, so that no second one is opened.
pub trait Ledgers: Drop {
    /// The keeper of an open ledger.
    type Kept: Keeper;

    /// What an open ledger is closed with.
    type File: Drop;

    /// What was opened of a ledger that can't be used.
    type Left: Drop;

    /// What is left of a ledger that was closed. Until it is dropped, nobody else can open the ledger.
    type Closed: Drop;

    /// What is stored under this name before a ledger is opened.
    ghost holds: { List ℕ → Ledger → Type 0 };

    /// What is known of a ledger that was opened under this name.
    ghost opened: { List ℕ → Self.Kept → Type 0 };

    /// What is known of a ledger that was made under this name.
    ghost made: { List ℕ → Self.Kept → Type 0 };

    /// What is known if no ledger was opened under this name, and this is why.
    ghost unopened: { List ℕ → Unopened Self.Left → Type 0 };

    /// What is known if no ledger was opened or made under this name, and this is why.
    ghost unmade: { List ℕ → Unopened Self.Left → Type 0 };

    /// What is known of what is left of a ledger that this keeper held.
    ghost closed: { Self.Kept → Self.Closed → Type 0 };

    /// What is known if the log of a ledger that was closed stays beside its file.
    ghost apart: { Self.Closed → Type 0 };

    /// Opens the ledger with this name. If it doesn't exist, it isn't made.
    ///
    /// # Errors
    ///
    /// It doesn't exist, isn't a ledger, is damaged or can't be read or written, or another program has it open.
    fn open(self, ledger: &str) -> Result<Opened<Self::Kept, Self::File>, Unopened<Self::Left>>
        ensures { MatchResult result (λ it. (it.is_made ≡ false) × opened ledger.now it.kept)
            (unopened ledger.now) };

    /// Opens the ledger with this name. If it doesn't exist or has no tables, makes a ledger without transfers.
    ///
    /// # Errors
    ///
    /// Those of `open`, except that the ledger may be missing. Whatever was created until the error is removed, unless
    /// another run may use it.
    fn open_or_make(
        self,
        ledger: &str,
    ) -> Result<Opened<Self::Kept, Self::File>, Unopened<Self::Left>>
        ensures { MatchResult result (λ it. OpensOrMakes it.is_made
            (opened ledger.now it.kept) (made ledger.now it.kept)) (unmade ledger.now) };

    /// Why the store of an open ledger failed. `None` if it hasn't failed.
    fn trouble(kept: &Self::Kept) -> Option<LedgerCause>
        ensures { (result ≡ None) ↔ (Self.Kept.Keeper.failures kept.now ≡ 0) };

    /// Closes a ledger.
    fn close(file: Self::File, kept: Self::Kept) -> Self::Closed
        ensures { closed kept result };

    /// Closes a ledger without transfers. If nothing existed before it was made, removes it.
    fn give_up(file: Self::File, kept: Self::Kept) -> Self::Closed
        requires { Self.Kept.Keeper.clean kept → Self.Kept.Keeper.holds kept [] }
        ensures { closed kept result };

    /// Why the log of a ledger that was closed stays beside its file. `None` if it doesn't.
    fn why_apart(left: &Self::Closed) -> Option<LedgerCause>
        ensures { (result ≡ None) ↔ (¬ apart left.now) };

    /// A ledger that was opened holds what is stored under its name, and a crash leaves that alone.
    ghost keeps: { (name : List ℕ) (kept : Self.Kept) (ledger : Ledger) → opened name kept
        → holds name ledger → Self.Kept.Keeper.clean kept
        → IsKept Self.Kept.Keeper.holds Self.Kept.Keeper.may_leave kept (settled ledger) };

    /// A ledger that was made holds no transfer, and a crash leaves it so.
    ghost begins: { (name : List ℕ) (kept : Self.Kept) → made name kept
        → Self.Kept.Keeper.clean kept
        → IsKept Self.Kept.Keeper.holds Self.Kept.Keeper.may_leave kept (settled []) };
}

/// Opens a ledger in a file. `S` says what the file holds.
#[derive(Drop)]
pub struct LedgerFiles<'a, S: Start> {
    rt: &'a HostRuntime,
    progress: &'a Progress<'a, HostRuntime>,
    start: S,
}

impl<'a, S: Start> LedgerFiles<'a, S> {
    /// Opens a ledger in a file that holds this, and shows how far the opening has come.
    pub fn new(rt: &'a HostRuntime, progress: &'a Progress<'a, HostRuntime>, start: S) -> Self {
        LedgerFiles {
            rt,
            progress,
            start,
        }
    }

    /// Looks up the file with this name. Returns what it holds, too.
    fn find(self, ledger: &str) -> Result<(LedgerFile<'a>, S), UnopenedFile<S>>
        ensures { IfErr result (λ it.
            IsUnused ⟦<FileFrom<S> as Disk>⟧ (image_at S.Start) it) }
    {
        match LedgerFile::find(self.rt, self.progress, ledger) {
            Ok(file) => Ok((file, self.start)),
            Err(why) => Err(Unopened::barred(why, Left::Unused(self.start))),
        }
    }
}

impl<'a, S: Start> Ledgers for LedgerFiles<'a, S> {
    ghost use Rattle.std.proofs.Common.{inl};
    ghost use Rattle.std.specs.Prelude.{IfSome};
    ghost use Rattle.bag_program.specs.LedgerFiles.{HoldsLedgerIn, IsAdoptedFrom, IsApart, IsLeftBy, IsMadeIn, IsUnmadeFile, IsUnopenedFile, TellsLeft};
    ghost use Rattle.bag_program.specs.Unopened.{cause_of_store};

    type Kept = FileKeeper<S>;

    type File = OpenLedger<'a, S>;

    type Left = Left<S, FileFrom<S>>;

    type Closed = Closed<FileFrom<S>>;

    ghost holds = { λ name ledger. HoldsLedgerIn (image_at S.Start) ledger };

    ghost opened = { λ ledger kept. IsAdoptedFrom (image_at S.Start) kept.connection };

    ghost made = { λ ledger kept. IsMadeIn (image_at S.Start) kept.connection };

    ghost unopened = { λ ledger it.
        IsUnopenedFile ⟦<FileFrom<S> as Disk>⟧ (image_at S.Start) it };

    ghost unmade = { λ ledger it.
        IsUnmadeFile ⟦<FileFrom<S> as Disk>⟧ (image_at S.Start) it };

    ghost closed = { λ kept closed. IsLeftBy kept.connection closed };

    ghost apart = { λ closed. IsApart closed };

    fn open(self, ledger: &str) -> Result<OpenedFile<'a, S>, UnopenedFile<S>> {
        let (file, start) = self.find(ledger)?;
        file.open(start)
    }

    fn open_or_make(self, ledger: &str) -> Result<OpenedFile<'a, S>, UnopenedFile<S>> {
        let (file, start) = self.find(ledger)?;
        file.open_or_make(start)
    }

    fn trouble(kept: &FileKeeper<S>) -> Option<LedgerCause>
        ensures some { (result ≡ None) ↔ (⟦<FileKeeper<S> as Keeper>⟧.failures kept.now ≡ 0) }
        ensures told { IfSome result (λ cause. cause ≡ cause_of_store kept.now.health.trouble) }
    {
        match kept.failures() {
            0 => None,
            _ => Some(LedgerCause::of_store(kept.trouble())),
        }
    }

    fn close(file: OpenLedger<'a, S>, kept: FileKeeper<S>) -> Closed<FileFrom<S>> {
        file.close(kept)
    }

    fn give_up(file: OpenLedger<'a, S>, kept: FileKeeper<S>) -> Closed<FileFrom<S>> {
        file.give_up(kept)
    }

    fn why_apart(left: &Closed<FileFrom<S>>) -> Option<LedgerCause>
        ensures some { (result ≡ None) ↔ (¬ IsApart left.now) }
        ensures told { TellsLeft left.now result }
    {
        match left {
            Closed::Uncopied(uncopied) => Some(LedgerCause::LogStays(uncopied.error)),
            Closed::Copied(_) | Closed::Removed(_) => None,
        }
    }

    ghost keeps = { λ name kept ledger opened holds clean.
        let it = (opened.adopts clean).keeps ledger holds in
        record { held = it.holds; left = λ crashed may. inl (it.alone crashed may) } };

    ghost begins = { λ name kept made clean.
        let it = (made.makes clean).keeps in
        record { held = it.holds; left = λ crashed may. inl (it.alone crashed may) } };
}

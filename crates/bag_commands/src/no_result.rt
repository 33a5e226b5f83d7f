//! Why a command ended without a result: the lines `bag: WORD`.
ghost use Rattle.std.specs.Prelude.{◌≡◌, ◌∷◌, []};
ghost use Rattle.bag_commands.specs.Outputs.{Printed};
ghost use Rattle.bag_commands.specs.NoResultTexts.{no_result_text};

use crate::output::Output;
use crate::status::FAILED;
use bag_ledger::KeepFault;
use bag_rules::CheckFault;
use std::io::Write;

/// The line of a command on a transfer that isn't there. Its status is that of a refusal.
pub(crate) const NO_TRANSFER: &str = "bag: no transfer";

/// Why a command ended without a result.
#[derive(Clone, Copy, Debug, PartialEq, Eq)]
pub enum NoResult {
    /// The files can't be read, or one of them isn't allowed in a bag.
    Files,
    /// Memory ran out.
    Memory,
    /// A tag file is too large.
    TagTooLarge,
    /// A payload file is too large.
    TooLarge,
    /// There are too many files, or too many lines in a tag file.
    TooMany,
    /// The store of the transfers failed.
    Store,
}

impl NoResult {
    /// The line that is printed.
    pub fn text(self) -> &'static str
        ensures { result.now ≡ no_result_text self }
    {
        match self {
            NoResult::Files => "bag: files",
            NoResult::Memory => "bag: memory",
            NoResult::TagTooLarge => "bag: tag too large",
            NoResult::TooLarge => "bag: too large",
            NoResult::TooMany => "bag: too many",
            NoResult::Store => "bag: store",
        }
    }
}

impl From<&CheckFault> for NoResult {
    ghost use Rattle.std.specs.Prelude.{◌≡◌};
    ghost use Rattle.bag_commands.specs.NoResultTexts.{no_result_of_check};

    ghost from_gives = { λ fault no_result. no_result ≡ no_result_of_check fault.now };

    fn from(fault: &CheckFault) -> NoResult {
        match fault {
            CheckFault::Tree => NoResult::Files,
            CheckFault::Memory => NoResult::Memory,
            CheckFault::TagTooLarge(_) => NoResult::TagTooLarge,
            CheckFault::TooLarge(_) => NoResult::TooLarge,
            CheckFault::TooMany => NoResult::TooMany,
        }
    }
}

impl From<KeepFault> for NoResult {
    ghost use Rattle.std.specs.Prelude.{◌≡◌};
    ghost use Rattle.bag_commands.specs.NoResultTexts.{no_result_of_keep};

    ghost from_gives = { λ fault no_result. no_result ≡ no_result_of_keep fault };

    fn from(fault: KeepFault) -> NoResult {
        match fault {
            KeepFault::Memory => NoResult::Memory,
            KeepFault::Store(_) => NoResult::Store,
        }
    }
}

/// Prints why a command ended, and returns its status.
pub fn print_no_result<W: Write + Drop>(no_result: NoResult, out: &mut Output<W>) -> u8
    ensures { Printed W.contents out.old out.new result (no_result_text no_result ∷ []) FAILED }
{
    out.print_line(no_result.text(), FAILED)
}

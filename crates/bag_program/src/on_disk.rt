//! The commands on what is on disk: each opens or makes its folders, and hands them to the function of its name in
//! `bag_commands`.
ghost use Rattle.std.specs.Prelude.{◌≡◌, ◌∷◌, []};
ghost use Rattle.bag_commands.specs.declared.status.TheConstants.{FAILED};
ghost use Rattle.bag_commands.specs.Outputs.{Printed};
ghost use Rattle.bag_commands.specs.NoResultTexts.{no_result_text};
ghost use Rattle.bag_program.specs.Endings.{why_unopened};
ghost use Rattle.bag_program.specs.NoResults.{no_result_of_open};

use crate::explanation::{Ended, Why};
use bag_commands::{NoResult, Output, print_no_result};
use bag_folder::OpenFault;
use std::io::Write;

pub mod begin;
pub mod check;
pub mod export;
pub mod fetch;
pub mod intake;
pub mod ledger_work;
pub mod make;

/// Prints why a command stops if a folder can't be opened or made.
fn no_result_for_folder<W: Write + Drop>(fault: OpenFault, out: &mut Output<W>) -> Ended
    ensures printed { Printed W.contents out.old out.new result.status
        (no_result_text (no_result_of_open fault) ∷ []) FAILED }
    ensures why { result.why ≡ why_unopened fault }
{
    match fault {
        OpenFault::Files(unfit) => Ended {
            status: print_no_result(NoResult::Files, out),
            why: Some(Why::Unfit(unfit)),
        },
        OpenFault::Memory => Ended::plain(print_no_result(NoResult::Memory, out)),
    }
}

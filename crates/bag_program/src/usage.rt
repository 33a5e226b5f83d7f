//! The texts for a command line that is no known command: help and usage errors.
ghost use Rattle.std.specs.Prelude.{IfOk, map, string_bytes};
ghost use Rattle.bag_program.specs.CommandLines.{IsAnswerTo};

use crate::command_line::asks_for_help;
use clap::error::ErrorKind;
use clap::{Arg, Command};
use std::alloc::{AllocError, Global};

/// The version of the program.
const VERSION: &str = "1.6.0";

/// What the exit statuses mean, and where all lines are listed.
const STATUSES: &str = "Exit status:
  0   the bag is valid, or the command is done
  1   the bag is not valid, or something was refused
  2   the bag can't be judged here
  3   a folder, a file, the ledger, memory or the output couldn't be used, or a limit was exceeded
  64  an unknown command line

The manual page has every line: man bag, or docs/bag.1";

/// The answer to a command line that is no known command.
#[derive(Debug, Drop)]
pub enum Usage {
    /// The help text, or the version, that was asked for.
    Help(String),
    /// The usage error.
    Refused(String),
}

impl Usage {
    /// The answer to these arguments, which are no known command. It is help only if they ask for it.
    ///
    /// # Errors
    ///
    /// Memory ran out.
    pub fn of(alloc: Global, words: &[String]) -> Result<Usage, AllocError>
        ensures { IfOk result (IsAnswerTo (map string_bytes words.now)) }
    {
        let may_help = asks_for_help(words);
        let mut command = all_commands(alloc)?;
        match command.try_get_matches_from_mut(words) {
            Ok(_) => Ok(Usage::Refused(command.render_usage()?)),
            Err(error) => {
                let text = format!(in alloc; "{error}")?;
                match error.kind() {
                    ErrorKind::OutOfMemory => Err(AllocError),
                    ErrorKind::DisplayHelp | ErrorKind::DisplayVersion if may_help => {
                        Ok(Usage::Help(text))
                    }
                    ErrorKind::InvalidSubcommand => {
                        Ok(Usage::Refused(with_own_name(alloc, words, text)?))
                    }
                    _ => Ok(Usage::Refused(text)),
                }
            }
        }
    }
}

/// The text for an unknown command, with the name that it has here if other tools know it by the first word.
fn with_own_name(alloc: Global, words: &[String], text: String) -> Result<String, AllocError> {
    let Some(word) = words.first() else {
        return Ok(text);
    };
    let Some(command) = own_name(word.as_str()) else {
        return Ok(text);
    };
    format!(in alloc;
        "error: unrecognized subcommand '{word}'\n\n  tip: here it is '{command}'\n\nUsage: bag <COMMAND>\n\n\
        For more information, try '--help'.\n"
    )
}

/// What is called so by other tools.
fn own_name(word: &str) -> Option<&'static str> {
    match word {
        "validate" | "verify" => Some("check"),
        "create" => Some("make"),
        _ => None,
    }
}

/// The commands, each with its operands.
fn all_commands<'a>(alloc: Global) -> Result<Command<'a>, AllocError> {
    let command = Command::new(alloc, "bag")
        .about("Checks, makes and receives bags of the BagIt File Packaging Format (RFC 8493)")
        .bin_name("bag")?
        .version(VERSION)
        .no_binary_name(true)
        .subcommand_required(true)
        .after_help(STATUSES);
    let command = with_folder_commands(alloc, command)?;
    let command = with_delivery_commands(alloc, command)?;
    with_transfer_commands(alloc, command)
}

/// Adds the commands on folders.
fn with_folder_commands<'a>(
    alloc: Global,
    command: Command<'a>,
) -> Result<Command<'a>, AllocError> {
    let check = Command::new(alloc, "check")
        .about("Judges the bag in a folder")
        .arg(operand(alloc, "DIR").help("The folder"))?;
    let make = Command::new(alloc, "make")
        .about("Writes the bag of the files in a folder into a new one")
        .arg(operand(alloc, "SRC").help("The folder with the files"))?
        .arg(operand(alloc, "DST").help("The folder for the bag, which must not exist yet"))?
        .arg(
            operand(alloc, "ALG").num_args(1..).help(
                "The algorithms of its manifests: md5, sha1, sha256, sha512",
            ),
        )?;
    command.subcommand(check)?.subcommand(make)
}

/// Adds the commands that write to a ledger.
fn with_delivery_commands<'a>(
    alloc: Global,
    command: Command<'a>,
) -> Result<Command<'a>, AllocError> {
    let begin = on_transfer(alloc, "begin")?
        .about("Opens a transfer with the tag files of a bag; makes the ledger if there is none")
        .arg(operand(alloc, "DIR").help("The folder with the tag files"))?;
    let intake = on_transfer(alloc, "intake")?
        .about("Takes in the delivered payload files that are as the tag files list them")
        .arg(
            operand(alloc, "DIR")
                .num_args(1..)
                .help("The folders with the files, each at its path in the bag"),
        )?;
    let fetch = on_transfer(alloc, "fetch")?
        .about("Takes in the files that fetch.txt names and that are not held yet")
        .arg(operand(alloc, "DIR").help("The folder with the files, each at its path in the bag"))?;
    command
        .subcommand(begin)?
        .subcommand(intake)?
        .subcommand(fetch)
}

/// Adds the commands that read a ledger.
fn with_transfer_commands<'a>(
    alloc: Global,
    command: Command<'a>,
) -> Result<Command<'a>, AllocError> {
    let report = on_transfer(alloc, "report")?.about("Judges the bag that is held");
    let audit = on_transfer(alloc, "audit")?.about(
        "Judges the bag that is held, after reading and hashing all of it again",
    );
    let export = on_transfer(alloc, "export")?
        .about("Writes the bag that is held into a new folder")
        .arg(operand(alloc, "DIR").help("The folder for the bag, which must not exist yet"))?;
    let list = Command::new(alloc, "list")
        .about("Lists the names of the transfers")
        .arg(operand(alloc, "LEDGER").help("The file of the ledger"))?;
    command
        .subcommand(report)?
        .subcommand(audit)?
        .subcommand(export)?
        .subcommand(list)
}

/// A command on a transfer in a ledger.
fn on_transfer<'a>(alloc: Global, name: &'a str) -> Result<Command<'a>, AllocError> {
    Command::new(alloc, name)
        .arg(operand(alloc, "LEDGER").help("The file of the ledger"))?
        .arg(operand(alloc, "NAME").help(
            "The name of the transfer: 1 to 64 characters of a to z, 0 to 9 and -",
        ))
}

/// A required operand.
fn operand<'a>(alloc: Global, name: &'a str) -> Arg<'a> {
    Arg::new(alloc, name).required(true)
}

//! The request on the command line.
ghost use Rattle.std.specs.Prelude.{◌≡◌, IfNone, IfSome, map, option_map, string_bytes};
ghost use Rattle.bag_program.specs.CommandLines.{AsksForWork, IsRequest, asks_for_help, has_help_option, is_help_option, is_option, operands_of};
ghost use Rattle.bag_program.specs.declared.command_line.Request.{Request};
ghost use Rattle.bag_program.specs.declared.command_line.Work.{Work};

/// A command with its operands.
#[derive(Clone, Copy, Debug, PartialEq, Eq)]
pub enum Request<'a> {
    /// `check DIR`
    Check {
        /// The name of the folder.
        folder: &'a str,
    },
    /// `make SRC DST ALG..`
    Make {
        /// The name of the folder that contains the payload.
        source: &'a str,
        /// The name of the folder to make the bag in.
        destination: &'a str,
        /// One or more names of algorithms, as given. A name may be unknown, or occur twice.
        algorithms: &'a [String],
    },
    /// A command on a ledger.
    Ledger {
        /// The name of the ledger's file.
        ledger: &'a str,
        /// What to do with it.
        work: Work<'a>,
    },
}

/// What to do with a ledger. `name` is the name of a transfer, or a text that isn't valid as one.
#[derive(Clone, Copy, Debug, PartialEq, Eq)]
pub enum Work<'a> {
    /// `begin LEDGER NAME DIR`: opens a transfer with the tag files in a folder.
    Begin {
        name: &'a str,
        folder: &'a str,
    },
    /// `intake LEDGER NAME DIR..`: takes in the payload files of one or more folders.
    Intake {
        name: &'a str,
        folders: &'a [String],
    },
    /// `report LEDGER NAME`: judges the bag that is held.
    Report {
        name: &'a str,
    },
    /// `audit LEDGER NAME`: does the same after reading again everything that is held.
    Audit {
        name: &'a str,
    },
    /// `fetch LEDGER NAME DIR`: looks in a folder for the files that `fetch.txt` lists and that aren't held.
    Fetch {
        name: &'a str,
        folder: &'a str,
    },
    /// `export LEDGER NAME DIR`: writes the bag that is held to a new folder.
    Export {
        name: &'a str,
        folder: &'a str,
    },
    /// `list LEDGER`: lists the names of the transfers.
    List,
}

impl<'a> Request<'a> {
    /// The request of a command with these operands. `None` if there is no such command.
    pub fn of(command: &str, operands: &'a [String]) -> Option<Request<'a>>
        ensures none { IfNone result ((request : Request)
            → ¬ IsRequest command.now (map string_bytes operands.now) request) }
        ensures request { IfSome result
            (IsRequest command.now (map string_bytes operands.now)) }
    {
        match (command, operands) {
            ("check", [folder]) => Some(Request::Check { folder }),
            ("make", [source, destination, algorithms @ ..]) if !algorithms.is_empty() => {
                Some(Request::Make {
                    source,
                    destination,
                    algorithms,
                })
            }
            ("begin", [ledger, name, folder]) => on(ledger, Work::Begin { name, folder }),
            ("intake", [ledger, name, folders @ ..]) if !folders.is_empty() => {
                on(ledger, Work::Intake { name, folders })
            }
            ("report", [ledger, name]) => on(ledger, Work::Report { name }),
            ("audit", [ledger, name]) => on(ledger, Work::Audit { name }),
            ("fetch", [ledger, name, folder]) => on(ledger, Work::Fetch { name, folder }),
            ("export", [ledger, name, folder]) => on(ledger, Work::Export { name, folder }),
            ("list", [ledger]) => on(ledger, Work::List),
            _ => None,
        }
    }
}

/// The request to do this work with a ledger.
fn on<'a>(ledger: &'a str, work: Work<'a>) -> Option<Request<'a>>
    ensures { result ≡ Some (Request.Ledger ledger.entry work.entry) }
{
    Some(Request::Ledger { ledger, work })
}

/// The operands among the arguments after a command's name, or `None` if one of them is an option.
///
/// All arguments after the first `--` are operands.
pub fn operands(mut words: Vec<String>) -> Option<Vec<String>>
    ensures { option_map (λ operands. map string_bytes operands.items) result
        ≡ operands_of (map string_bytes words.items) }
{
    for i in 0..words.len() {
        if words[i].as_str() == "--" {
            let _mark = words.remove(i);
            return Some(words);
        }
        if is_option(words[i].as_str()) {
            return None;
        }
    }
    Some(words)
}

/// Whether an argument is an option: a hyphen followed by anything else.
fn is_option(word: &str) -> bool
    ensures { result ≡ is_option word.now }
{
    word.len() > 1 && word.starts_with("-")
}

/// Whether the arguments ask for help, or for the version.
pub fn asks_for_help(words: &[String]) -> bool
    ensures { result ≡ asks_for_help (map string_bytes words.now) }
{
    if words.is_empty() {
        return false;
    }
    words[0].as_str() == "help" || has_help_option(words)
}

/// Whether one of the arguments before the first `--` is an option that asks for help, or for the version.
fn has_help_option(words: &[String]) -> bool
    ensures { result ≡ has_help_option (map string_bytes words.now) }
{
    for word in words {
        if word.as_str() == "--" {
            return false;
        }
        if is_help_option(word.as_str()) {
            return true;
        }
    }
    false
}

/// Whether an argument is an option that asks for help, or for the version.
fn is_help_option(word: &str) -> bool
    ensures { result ≡ is_help_option word.now }
{
    word == "--help" || word == "--version" || word.starts_with("-h") || word.starts_with("-V")
}

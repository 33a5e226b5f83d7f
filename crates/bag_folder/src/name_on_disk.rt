//! The name on disk of what is below a folder, and the file with that name.
ghost use Rattle.std.specs.Prelude.{◌≡◌, ◌++◌, IfOk, IfSome, MatchResult, OnOk, OnSome, string_bytes};
ghost use Rattle.bag_folder.specs.Directories.{name_below};
ghost use Rattle.bag_folder.specs.DiskNames.{Opens, octets_under};

use crate::fault::{Cause, with_cause};
use crate::file_system::Names;
use std::alloc::AllocError;

/// Opens the file with this path in the folder for reading. `name` is overwritten, and grows only if its capacity isn't
/// enough.
///
/// # Errors
///
/// The cause why the file with this name can't be opened; none if memory ran out.
pub fn opened<R: Names>(
    rt: &R,
    name: &mut String,
    folder: &str,
    path: &str,
) -> Result<R::Reader, Option<Cause>>
    ensures named { MatchResult result
        (λ _. string_bytes name.new ≡ name_below folder.now path.now)
        (λ cause. OnSome cause (string_bytes name.new ≡ name_below folder.now path.now)) }
    ensures opens { IfSome (R.standing rt.now) (λ known.
        Opens R.Reader.remaining known (name_below folder.now path.now) result) }
    ensures unread { IfOk result (λ file. R.Reader.remaining file
        ≡ octets_under (R.standing rt.now) (name_below folder.now path.now)) }
{
    name.clear();
    if spell(name, folder, path).is_err() {
        return Err(None);
    }
    with_cause(rt.open(name.as_str()))
}

/// Appends the name of a path below a folder.
pub fn spell(name: &mut String, folder: &str, path: &str) -> Result<(), AllocError>
    ensures { OnOk result (string_bytes name.new
        ≡ string_bytes name.old ++ name_below folder.now path.now) }
{
    name.push_str(folder)?;
    name.push('/')?;
    name.push_str(path)
}

//! Whether a content is the wanted one, and so would be stored.
ghost use Rattle.std.specs.Prelude.{◌≡◌, IsErrOf, MatchResult};
ghost use Rattle.bag_digest.specs.Failures.{UsesSource};
ghost use Rattle.bag_ledger.specs.Keeping.{Tests, given_by, known};
ghost use Rattle.bag_ledger.specs.declared.keeper_faults.KeepFault.{KeepFault};
ghost use Rattle.bag_ledger.specs.declared.keeper_faults.KeepFault.TheVariants.{Memory, Store};
ghost use Rattle.bag_ledger.specs.declared.keeper_faults.PutFault.TheVariants.{Keep, Reader};
ghost use Rattle.bag_ledger.specs.declared.keeper_faults.StoreFault.{StoreFault};
ghost use Rattle.bag_rules.specs.Wants.{IsFirstMisfitOf, IsWanted};

use crate::keeper_faults::PutFault;
use bag_digest::{Source, Sums, digest_reader};
use bag_rules::limits::LARGEST_ITEM;
use bag_rules::{Want, WantFault};
use std::alloc::Global;

/// Tests whether this content would be stored.
///
/// # Errors
///
/// Those of [`Keeper::put`](crate::Keeper::put), except `Keep`.
pub fn test_content(want: &Want<'_>, content: &[u8]) -> Result<(), PutFault>
    ensures test { Tests (known content.now) want.now result }
    ensures own { (fault : KeepFault) → ¬ IsErrOf result (Keep fault) }
{
    if content.len() as u64 > LARGEST_ITEM {
        return Err(PutFault::TooLarge);
    }
    test_octets(want, content)?;
    Ok(())
}

/// Tests whether the content that the reader gives would be stored. It reads piece by piece, to the end or to the
/// first octet beyond the limit.
///
/// # Errors
///
/// Those of [`Keeper::put_from`](crate::Keeper::put_from), but the only `Keep` fault is `Memory`.
pub fn test_reader<S: Source>(
    alloc: Global,
    want: &Want<'_>,
    reader: &mut S,
) -> Result<(), PutFault>
    ensures test { Tests (given_by (S.remaining reader.old) (S.remaining reader.new)) want.now
        result }
    ensures reader { UsesSource S.failures S.ready S.keeps reader.old reader.new
        (IsErrOf result Reader) }
    ensures unread { IsErrOf result (Keep Memory) → reader.new ≡ reader.old }
    ensures own { (fault : StoreFault) → ¬ IsErrOf result (Keep (Store fault)) }
{
    let sums = digest_reader(alloc, reader, want.algs(), LARGEST_ITEM)?;
    want.test(&sums)?;
    Ok(())
}

/// Tests whether these octets are the wanted ones.
pub(crate) fn test_octets(want: &Want<'_>, octets: &[u8]) -> Result<(), WantFault>
    ensures { MatchResult result (λ done. IsWanted want.now octets.now)
        (IsFirstMisfitOf want.now octets.now) }
{
    want.test(&Sums::of(octets, want.algs()))
}

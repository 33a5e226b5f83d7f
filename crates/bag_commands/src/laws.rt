//! Laws on the definitions that the contracts of this crate cite. Each function's contract is one law, and its body is
//! empty.
ghost use Rattle.std.specs.Prelude.{◌≡◌, ℕ, List};
ghost use Rattle.bag_path.specs.Spellings.{written_spelling};
ghost use Rattle.bag_receiver.specs.TransferNames.{IsTransferName};

use crate::status::{DONE, FAILED, NOT_VALID, OUTSIDE, REFUSED, USAGE, VALID};

/// The statuses are the numbers that the manual page gives.
pub fn the_statuses_are_these_numbers()
    ensures { (VALID ≡ 0) × (DONE ≡ 0) × (NOT_VALID ≡ 1) × (REFUSED ≡ 1) × (OUTSIDE ≡ 2)
        × (FAILED ≡ 3) × (USAGE ≡ 64) }
{}

/// No octet of a transfer's name has to be escaped.
pub fn a_name_is_printed_as_it_is()
    ensures { (name : List ℕ) → IsTransferName name → written_spelling name ≡ name }
{}

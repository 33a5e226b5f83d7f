//! The names of transfers.
ghost use Rattle.std.specs.Prelude.{◌≡◌, ◌↔◌, IsTrue};
ghost use Rattle.std.specs.List.{list_all};
ghost use Rattle.bag_receiver.specs.TransferNames.{IsTransferName, is_of_names};

/// The maximum length of a transfer's name, in octets.
pub const LONGEST_NAME: usize = 64;

/// Whether the text is a valid name of a transfer: 1 to 64 octets, each a lowercase ASCII letter, a digit or `-`.
pub fn is_name(text: &str) -> bool
    ensures { IsTrue result ↔ IsTransferName text.now }
{
    let octets = text.as_bytes();
    !octets.is_empty() && octets.len() <= LONGEST_NAME && are_of_names(octets)
}

/// Whether all of these octets are allowed in a name.
fn are_of_names(octets: &[u8]) -> bool
    ensures { result ≡ list_all is_of_names octets.now }
{
    octets.iter().all(|octet| may_be_in_name(*octet))
}

/// Whether this octet is allowed in a name.
fn may_be_in_name(octet: u8) -> bool
    ensures { result ≡ is_of_names octet }
{
    octet.is_ascii_lowercase() || octet.is_ascii_digit() || octet == b'-'
}

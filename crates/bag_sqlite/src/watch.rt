//! Watchers of the opening of a ledger.

/// Is told what is read while a ledger is opened.
pub trait Watch {
    /// One more payload file is read.
    fn add_file(&self);

    /// So many more octets of payload files were read.
    fn add_octets(&self, octets: u64);
}

/// Watches nothing.
pub(crate) struct Unwatched;

impl Watch for Unwatched {
    fn add_file(&self) {}

    fn add_octets(&self, _octets: u64) {}
}

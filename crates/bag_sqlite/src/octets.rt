//! Octets in memory as a source.
ghost use Rattle.std.specs.Prelude.{◌≡◌, Some, true};

use bag_digest::{Failed, Source};

/// A source that gives these octets and doesn't fail.
#[derive(Drop)]
pub(crate) struct Octets<'a> {
    rest: &'a [u8],
}

impl<'a> Octets<'a> {
    /// A source that gives all of them.
    pub(crate) fn new(octets: &'a [u8]) -> Octets<'a>
        ensures { result.rest.now ≡ octets.now }
    {
        Octets { rest: octets }
    }
}

impl Source for Octets<'_> {
    ghost remaining = { λ octets. Some octets.rest.now };

    ghost failures = { λ _. 0 };

    ghost ready = { λ _. Unit {0} };

    ghost is_open = { λ _. true };

    ghost keeps = { λ _ _. Unit {0} };

    fn read(&mut self, buf: &mut [u8]) -> Result<usize, Failed> {
        let n = buf.len().min(self.rest.len());
        let (front, rest) = self.rest.split_at(n);
        buf[..n].copy_from_slice(front);
        self.rest = rest;
        Ok(n)
    }

    fn failures(&self) -> u64 {
        0
    }

    ghost keeps_itself = { λ _. tt };

    ghost keeps_on = { λ _ _ _ _ _. tt };
}

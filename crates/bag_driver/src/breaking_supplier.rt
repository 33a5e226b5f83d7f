//! A supplier of which one call fails.
ghost use Rattle.std.specs.Prelude.{◌≡◌, None};

use crate::breaker::{Breaker, Device};
use crate::event::File;
use bag_digest::{Failed, Failures, Source};
use bag_receiver::Supplier;
use std::io::Read;

/// Has the files of a list, whatever their urls.
#[derive(Drop)]
pub struct BreakingSupplier<'a> {
    files: &'a [File],
    content: &'a [u8],
    is_open: bool,
    breaker: &'a Breaker,
    failures: Failures,
    asks: u64,
}

impl<'a> BreakingSupplier<'a> {
    pub fn new(files: &'a [File], breaker: &'a Breaker) -> Self {
        BreakingSupplier {
            files,
            content: &[],
            is_open: false,
            breaker,
            failures: Failures::none(),
            asks: 0,
        }
    }
}

impl Source for BreakingSupplier<'_> {
    ghost use Rattle.std.specs.Prelude.{refl};
    ghost use Rattle.std.proofs.Common.{◌∙◌};

    ghost remaining = { λ _. None };

    ghost failures = { λ it. it.failures };

    ghost ready = { λ _. ⊥ };

    ghost is_open = { λ it. it.is_open };

    ghost keeps = { λ a b. b.asks ≡ a.asks };

    fn read(&mut self, buf: &mut [u8]) -> Result<usize, Failed> {
        if !self.is_open || self.breaker.breaks(Device::Supplier) {
            return self.failures.counted(Err(Failed));
        }
        self.failures.counted(self.content.read(buf))
    }

    fn failures(&self) -> u64 {
        self.failures.count()
    }

    ghost keeps_itself = { λ a. refl };

    ghost keeps_on = { λ a b c p q. q ∙ p };
}

impl Supplier for BreakingSupplier<'_> {
    ghost use Rattle.std.specs.Prelude.{refl};

    ghost supply = { λ _. None };

    ghost asks = { λ it. it.asks };

    fn ask(&mut self, _url: &str, path: &str) -> Result<bool, Failed> {
        self.asks = self.asks.saturating_add(1);
        self.is_open = false;
        if self.breaker.breaks(Device::Supplier) {
            return self.failures.counted(Err(Failed));
        }
        let Some(content) = content_at(self.files, path) else {
            return Ok(false);
        };
        self.content = content;
        self.is_open = true;
        Ok(true)
    }

    fn asks(&self) -> u64 {
        self.asks
    }

    ghost keeps_supply = { λ old new kept. (refl, kept) };
}

/// The octets of the file with this path.
fn content_at<'a>(files: &'a [File], path: &str) -> Option<&'a [u8]> {
    for file in files {
        if file.0.as_str() == path {
            return Some(file.1.as_slice());
        }
    }
    None
}

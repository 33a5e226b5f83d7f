//! Readers and couriers of payload files, which may fail.
ghost use Rattle.std.specs.Prelude.{◌≤◌, length};

use crate::breaker::{Breaker, Device};
use bag_digest::{Failed, Failures, Source};
use bag_path::BagPath;
use bag_receiver::Courier;
use std::io::{self, ErrorKind, Read};

/// What fails while payload files come.
#[derive(Clone, Copy)]
pub enum Breaks<'a> {
    /// The call that a breaker counts.
    Counted(&'a Breaker),
    /// The first file, after its octets.
    First,
    /// The step after the last file.
    End,
}

impl Breaks<'_> {
    /// Whether the breaker lets this call of a device fail.
    fn breaks(&self, device: Device) -> bool {
        match self {
            Breaks::Counted(breaker) => breaker.breaks(device),
            Breaks::First | Breaks::End => false,
        }
    }

    fn is_first(&self) -> bool {
        matches!(self, Breaks::First)
    }

    fn is_end(&self) -> bool {
        matches!(self, Breaks::End)
    }
}

/// Gives octets, and then the end or an error.
#[derive(Drop)]
pub struct Reader<'a> {
    left: &'a [u8],
    breaks: Breaks<'a>,
}

impl<'a> Reader<'a> {
    pub fn new(left: &'a [u8], breaks: Breaks<'a>) -> Self {
        Reader { left, breaks }
    }
}

impl Read for Reader<'_> {
    fn read(&mut self, buf: &mut [u8]) -> io::Result<usize> {
        let is_end = self.left.is_empty() && self.breaks.is_first();
        if is_end || self.breaks.breaks(Device::Reader) {
            return Err(io::Error::from(ErrorKind::BrokenPipe));
        }
        self.left.read(buf)
    }
}

/// Copies as many octets as there are from this place on, and as there is room for, and moves the place.
fn given(octets: &[u8], place: &mut usize, buf: &mut [u8]) -> usize
    ensures { result ≤ length buf.new }
{
    let Some(left) = octets.get(*place..) else {
        return 0;
    };
    let n = left.len().min(buf.len());
    buf[..n].copy_from_slice(&left[..n]);
    *place = place.saturating_add(n);
    n
}

/// Brings items one after another. It takes no memory.
#[derive(Drop)]
pub struct BreakingCourier<'a> {
    // the items to come, the last one first
    left: Vec<(BagPath, Vec<u8>)>,
    breaks: Breaks<'a>,
    path: Option<BagPath>,
    octets: Vec<u8>,
    given: usize,
    failures: Failures,
    nexts: u64,
}

impl<'a> BreakingCourier<'a> {
    /// `left` are the items, the last one first.
    pub fn new(left: Vec<(BagPath, Vec<u8>)>, breaks: Breaks<'a>) -> Self {
        let alloc = *left.allocator();
        BreakingCourier {
            left,
            breaks,
            path: None,
            octets: Vec::new(alloc),
            given: 0,
            failures: Failures::none(),
            nexts: 0,
        }
    }
}

impl Source for BreakingCourier<'_> {
    ghost use Rattle.std.specs.Prelude.{◌≡◌, None, is_some, refl};
    ghost use Rattle.std.proofs.Common.{◌∙◌};

    ghost remaining = { λ _. None };

    ghost failures = { λ it. it.failures };

    ghost ready = { λ _. ⊥ };

    ghost is_open = { λ it. is_some it.path };

    ghost keeps = { λ a b. (b.path ≡ a.path) × (b.nexts ≡ a.nexts) };

    fn read(&mut self, buf: &mut [u8]) -> Result<usize, Failed> {
        if self.path.is_none() || self.breaks.breaks(Device::Courier) {
            return self.failures.counted(Err(Failed));
        }
        let n = given(&self.octets, &mut self.given, buf);
        if n == 0 && self.breaks.is_first() && self.nexts == 1 {
            return self.failures.counted(Err(Failed));
        }
        Ok(n)
    }

    fn failures(&self) -> u64 {
        self.failures.count()
    }

    ghost keeps_itself = { λ a. (refl, refl) };

    ghost keeps_on = { λ a b c p q. (q.0 ∙ p.0, q.1 ∙ p.1) };
}

impl Courier for BreakingCourier<'_> {
    ghost use Rattle.std.specs.Prelude.{None, refl};

    ghost coming = { λ _. None };

    ghost path = { λ it. it.path };

    ghost nexts = { λ it. it.nexts };

    ghost steady = { λ _. ⊥ };

    fn next(&mut self) -> Result<bool, Failed> {
        self.nexts = self.nexts.saturating_add(1);
        self.path = None;
        if self.breaks.breaks(Device::Courier) {
            return self.failures.counted(Err(Failed));
        }
        let Some((path, octets)) = self.left.pop() else {
            let answer = if self.breaks.is_end() {
                Err(Failed)
            } else {
                Ok(false)
            };
            return self.failures.counted(answer);
        };
        self.path = Some(path);
        self.octets = octets;
        self.given = 0;
        Ok(true)
    }

    fn path(&self) -> &BagPath {
        match &self.path {
            Some(path) => path,
            None => unreachable!(),
        }
    }

    fn nexts(&self) -> u64 {
        self.nexts
    }

    ghost keeps_item = { λ old new kept. (refl, kept.0, kept.1, λ none. none) };
}

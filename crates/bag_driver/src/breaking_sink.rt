//! Sinks and their begun files of which one call fails.
ghost use Rattle.std.specs.Prelude.{None};
ghost use Rattle.bag_writer.specs.OpenSinks.{LeavesSink};

use crate::breaker::{Breaker, Device};
use bag_digest::{Failed, Failures};
use bag_path::BagPath;
use bag_rules::OpenTree;
use bag_writer::{OpenSink, Sink, SinkFile};
use std::alloc::{AllocError, Global};

/// A sink of which one call fails.
#[derive(Drop)]
pub struct BreakingSink<'a, S> {
    inside: S,
    breaker: &'a Breaker,
    failures: Failures,
}

impl<'a, S> BreakingSink<'a, S> {
    pub fn new(inside: S, breaker: &'a Breaker) -> Self {
        BreakingSink {
            inside,
            breaker,
            failures: Failures::none(),
        }
    }

    pub fn into_inside(self) -> S {
        self.inside
    }
}

impl<S: Sink> Sink for BreakingSink<'_, S> {
    ghost stored = { λ _. None };

    ghost is_open = { λ sink. S.is_open sink.inside };

    ghost sure = { λ _. ⊥ };

    ghost failures = { λ sink. sink.failures };

    fn payload_dir(&mut self) -> Result<(), Failed> {
        if self.breaker.breaks(Device::Sink) {
            return self.failures.counted(Err(Failed));
        }
        self.failures.counted(self.inside.payload_dir())
    }

    fn file(&mut self, path: &BagPath) -> Result<(), Failed> {
        if self.breaker.breaks(Device::Sink) {
            return self.failures.counted(Err(Failed));
        }
        self.failures.counted(self.inside.file(path))
    }

    fn write(&mut self, octets: &[u8]) -> Result<(), Failed> {
        if self.breaker.breaks(Device::Sink) {
            return self.failures.counted(Err(Failed));
        }
        self.failures.counted(self.inside.write(octets))
    }

    fn end(&mut self) -> Result<(), Failed> {
        if self.breaker.breaks(Device::Sink) {
            return self.failures.counted(Err(Failed));
        }
        self.failures.counted(self.inside.end())
    }

    fn failures(&self) -> u64 {
        self.failures.count()
    }
}

/// A begun file of a sink of which one call fails.
#[derive(Drop)]
pub struct BreakingSinkFile<'a, G> {
    inside: G,
    breaker: &'a Breaker,
    failures: Failures,
}

impl<G: SinkFile> SinkFile for BreakingSinkFile<'_, G> {
    ghost place = { λ file. G.place file.inside };

    ghost holds = { λ _ _ _. Unit {0} };

    ghost failures = { λ file. file.failures };

    ghost sure = { λ _. ⊥ };

    fn write(&mut self, octets: &[u8]) -> Result<(), Failed> {
        if self.breaker.breaks(Device::Sink) {
            return self.failures.counted(Err(Failed));
        }
        self.failures.counted(self.inside.write(octets))
    }

    fn failures(&self) -> u64 {
        self.failures.count()
    }
}

/// A file whose beginning fails is begun, and has failed.
impl<'a, S: OpenSink> OpenSink for BreakingSink<'a, S> {
    type File = BreakingSinkFile<'a, S::File>;

    fn begin_file(
        &mut self,
        alloc: Global,
        place: usize,
        path: &BagPath,
    ) -> Result<Self::File, AllocError> {
        self.failures.raise()?;
        let inside = match self.inside.begin_file(alloc, place, path) {
            Ok(inside) => inside,
            Err(error) => {
                self.failures.lower();
                return Err(error);
            }
        };
        let mut failures = Failures::none();
        if inside.failures() > 0 || self.breaker.breaks(Device::Sink) {
            failures.add();
        }
        Ok(BreakingSinkFile {
            inside,
            breaker: self.breaker,
            failures,
        })
    }

    fn end_file(&mut self, file: &mut Self::File) -> Result<(), Failed> {
        if self.breaker.breaks(Device::Sink) || file.inside.failures() > 0 {
            return file.failures.counted(Err(Failed));
        }
        file.failures
            .counted(self.inside.end_file(&mut file.inside))
    }

    fn close(&mut self, file: Self::File) {
        drop_file(&mut self.inside, file.inside);
        self.failures.lower();
    }

    fn fail(&mut self, file: Self::File) {
        drop_file(&mut self.inside, file.inside);
    }

    fn give_up(&mut self, file: Self::File, _first: &Self::File) {
        drop_file(&mut self.inside, file.inside);
        self.failures.lower();
    }

    fn give_up_unread<T: OpenTree>(&mut self, file: Self::File, _tree: &T, _first: &T::File) {
        drop_file(&mut self.inside, file.inside);
        self.failures.lower();
    }
}

/// Has the sink take back a file, by whether it has failed.
fn drop_file<S: OpenSink>(sink: &mut S, file: S::File)
    ensures { LeavesSink S.stored S.is_open S.sure sink.old sink.new }
{
    if file.failures() == 0 {
        sink.close(file);
    } else {
        sink.fail(file);
    }
}

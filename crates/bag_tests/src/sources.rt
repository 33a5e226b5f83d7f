//! Sources that fail, and the octet past a limit.
ghost use Rattle.std.specs.Prelude.{◌≡◌, IfOk, None, true, vec_len};

use bag_digest::{
    Alg, AlgSet, Digest, Failed, ReadFault, ReaderSource, Source, SourceFault, SourceRead,
    digest_reader, digest_through, read_or_digest, read_to_end_within,
};
use std::alloc::{AllocError, Global};
use std::io::{self, Read};
use std::test::Fail;

// A reader that gives this many octets `a`, one at a time, and then fails.
#[derive(Drop)]
struct Breaking {
    left: usize,
}

impl Read for Breaking {
    fn read(&mut self, buf: &mut [u8]) -> io::Result<usize> {
        if self.left == 0 {
            return Err(io::Error::from(io::ErrorKind::BrokenPipe));
        }
        if buf.is_empty() {
            return Ok(0);
        }
        buf[0] = b'a';
        self.left -= 1;
        Ok(1)
    }
}

fn zeros(alloc: Global, len: usize) -> Result<Vec<u8>, AllocError>
    ensures { IfOk result (λ buffer. vec_len buffer ≡ len) }
{
    vec![in alloc; 0u8; len]
}

// A source of this many octets. It doesn't write them to the buffer.
#[derive(Drop)]
struct Blank {
    left: u64,
}

impl Source for Blank {
    ghost remaining = { λ _. None };

    ghost failures = { λ _. 0 };

    ghost ready = { λ _. Unit {0} };

    ghost is_open = { λ _. true };

    ghost keeps = { λ _ _. Unit {0} };

    fn read(&mut self, buf: &mut [u8]) -> Result<usize, Failed> {
        let n = self.left.min(buf.len() as u64);
        self.left -= n;
        Ok(n as usize)
    }

    fn failures(&self) -> u64 {
        0
    }

    ghost keeps_itself = { λ _. tt };

    ghost keeps_on = { λ _ _ _ _ _. tt };
}

fn md5() -> AlgSet {
    AlgSet::empty().with(Alg::Md5)
}

#[test]
fn a_source_is_whole_in_the_buffer_or_hashed(rt: HostRuntime) {
    let mut buffer = [0; 4];
    let mut fits = ReaderSource::new(b"abc".as_slice());
    let found = read_or_digest(&mut buffer, &mut fits, md5(), 4);
    assert_eq!(rt; found, Ok(SourceRead::Whole(3)));
    assert_eq!(rt; &buffer[..3], b"abc".as_slice());
    // RFC 1321, A.5.
    let of_abc = Digest::from_hex(Alg::Md5, b"900150983cd24fb0d6963f7d28e17f72");
    let mut fills = ReaderSource::new(b"abc".as_slice());
    match read_or_digest(&mut buffer[..3], &mut fills, md5(), 4) {
        Ok(SourceRead::Hashed(sums)) => {
            assert_eq!(rt; sums.length, 3);
            assert_eq!(rt; sums.digests.get(Alg::Md5), of_abc);
        }
        _ => assert!(rt; false),
    }
    let mut past = ReaderSource::new(b"abcd".as_slice());
    let found = read_or_digest(&mut buffer[..2], &mut past, md5(), 3);
    assert_eq!(rt; found, Err(SourceFault::TooLarge));
}

#[test]
fn one_octet_past_the_limit_is_taken_and_none_after(rt: HostRuntime) -> Result<(), Fail> {
    let mut buffer = [0; 16];
    let mut reader = ReaderSource::new(b"abcdef".as_slice());
    let past = digest_through(&mut buffer, &mut reader, md5(), 2);
    assert_eq!(rt; past, Err(SourceFault::TooLarge));
    let rest = read_to_end_within(rt.alloc(), &mut buffer, &mut reader, 3)?;
    assert_eq!(rt; rest.as_slice(), b"def".as_slice());
    let mut other = ReaderSource::new(b"abcdef".as_slice());
    let past = read_to_end_within(rt.alloc(), &mut buffer, &mut other, 4);
    assert!(rt; matches!(past, Err(ReadFault::TooLarge)));
    assert_eq!(rt; other.read(&mut buffer), Ok(1));
    Ok(())
}

#[test]
fn a_reader_that_fails_in_mid_stream(rt: HostRuntime) {
    let mut buffer = [0; 16];
    let mut reader = ReaderSource::new(Breaking { left: 5 });
    let fault = digest_through(&mut buffer, &mut reader, md5(), 100);
    assert_eq!(rt; fault, Err(SourceFault::Read));
    assert_eq!(rt; reader.failures(), 1);
    let fault = digest_reader(rt.alloc(), &mut reader, md5(), 100);
    assert_eq!(rt; fault, Err(ReadFault::Read));
    let again = read_to_end_within(rt.alloc(), &mut buffer, &mut reader, 100);
    assert!(rt; matches!(again, Err(ReadFault::Read)));
    assert_eq!(rt; reader.failures(), 3);

    // The octet past the limit comes before the failure.
    let mut past = ReaderSource::new(Breaking { left: 5 });
    let fault = digest_through(&mut buffer, &mut past, md5(), 4);
    assert_eq!(rt; fault, Err(SourceFault::TooLarge));
}

#[test]
fn two_to_the_fortieth_octets_are_within_that_limit_and_one_more_is_not(
    rt: HostRuntime,
) -> Result<(), Fail> {
    let limit = 1 << 40;
    let mut buffer = zeros(rt.alloc(), 1 << 26)?;
    let mut within = Blank { left: limit };
    let sums = digest_through(buffer.as_mut_slice(), &mut within, AlgSet::empty(), limit)?;
    assert_eq!(rt; sums.length, 1_099_511_627_776);
    let mut past = Blank { left: limit + 1 };
    let fault = digest_through(buffer.as_mut_slice(), &mut past, AlgSet::empty(), limit);
    assert_eq!(rt; fault, Err(SourceFault::TooLarge));
    assert_eq!(rt; past.left, 0);
    Ok(())
}

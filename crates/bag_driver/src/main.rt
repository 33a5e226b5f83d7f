//! Makes the calls that a list asks for, for the scripts in `tests/`.
//!
//! `bag_driver stop FILE CALLS HOW SEED DATABASE` does the work on standard input in the ledger of a database, and
//! stops at a call of one of its files; `tests/ledger.py` describes it.
//!
//! `bag_driver ALG PIECES` computes the digest of this many pieces of 65,536 octets, for the scripts in `bench/`.
//!
//! `bag_driver calls KEEPER` makes the calls on standard input, as described in `tests/deliveries.py`,
//! `tests/new_bags.py` and `tests/refusals.py`, with the keeper `map` or `sqlite`, both in memory. The status is 0 if
//! each line was answered.
//!
//! `bag_driver refusals KEEPER MOST DEVICE NUMBER` makes at most MOST of these calls, with the keeper `map`, `sqlite`,
//! `files` or `breaking`, and lets one call of all devices of a kind fail, that with this number; `tests/refusals.py`
//! describes it.
//!
//! `bag_driver feeds` reads the tag files that standard input gives it in pieces, as described in `tests/feeds.py`. The
//! status is 0 if each line was answered.
//!
//! The status is 3 if memory ran out, a line is malformed, or a read or a write failed, and 64 for other words.
#![tactic(auto)]

use bag_digest::{Alg, AlgSet, Multi, piece_buffer};
use crashes::stop;
use feeding::Feeds;
use lines::answer_lines;
use refusals::{answer_over, answer_refused};
use std::alloc::{AllocError, Global};
use std::env;
use std::io::{self, BufWriter, Write};
use std::process::ExitCode;

mod answer_texts;
mod breaker;
mod breaking_courier;
mod breaking_file;
mod breaking_keeper;
mod breaking_sink;
mod breaking_supplier;
mod breaking_tree;
mod breaking_writer;
mod commanding;
mod crashes;
mod deliveries;
mod drafting;
mod event;
mod feeding;
mod file_keeper;
mod keepers;
mod ledger_opening;
mod lines;
mod listing;
mod planning;
mod reading;
mod refusals;
mod shown;
mod valuing;
mod world;

fn main(rt: HostRuntime) -> ExitCode {
    ExitCode::from(run(&rt))
}

/// Does the work that the command line names. Memory that ran out, a malformed line, and a failed read or write are
/// status 3.
fn run(rt: &HostRuntime) -> u8 {
    work(rt).unwrap_or(3)
}

/// The same. What was written before an error is printed.
fn work(rt: &HostRuntime) -> io::Result<u8> {
    let words: Vec<String> = env::args(rt)?.skip(1).collect(rt.alloc())?;
    let mut out = BufWriter::new(rt.alloc(), io::writer(rt))?;
    let done = work_into(rt, &words, &mut out);
    out.flush()?;
    done
}

/// The same, with the lines written to `out`.
fn work_into<W: Write + Drop>(rt: &HostRuntime, words: &[String], out: &mut W) -> io::Result<u8> {
    match words {
        [word] if word.as_str() == "feeds" => {
            answer_lines(rt, &mut Feeds, out)?;
            Ok(0)
        }
        [word, keeper] if word.as_str() == "calls" => answer_over(rt, keeper.as_str(), out),
        [alg, pieces] => Ok(hash(rt.alloc(), alg.as_str(), pieces.as_str())?),
        [word, _, _, _, _] if word.as_str() == "refusals" => answer_refused(rt, words, out),
        [word, _, _, _, _, _] if word.as_str() == "stop" => stop(rt, words, out),
        _ => Ok(64),
    }
}

/// Computes the digest of this many pieces.
fn hash(alloc: Global, alg: &str, pieces: &str) -> Result<u8, AllocError> {
    let (Some(alg), Ok(pieces)) = (Alg::from_name(alg), pieces.parse::<u32>()) else {
        return Ok(64);
    };
    let buffer = piece_buffer(alloc)?;
    let mut multi = Multi::new(AlgSet::empty().with(alg));
    for _ in 0..pieces {
        multi.update(&buffer);
    }
    let digests = multi.finish();
    Ok(if digests.get(alg).is_some() { 0 } else { 1 })
}

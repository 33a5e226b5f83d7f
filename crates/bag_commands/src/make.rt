//! `make`: writes a bag of a tree's payload files.
ghost use Rattle.std.specs.Prelude.{◌≡◌, ◌∷◌, [], IfErr, IfOk, false, map, string_bytes};
ghost use Rattle.bag_writer.specs.declared.spec.Spec.{Spec};
ghost use Rattle.bag_commands.specs.MakeTexts.{fault_line, large_in, make_status, make_text};
ghost use Rattle.bag_commands.specs.Making.{IsFirstUnknown, IsPlainSpec, IsWriting, MakesOf, NamesSet};
ghost use Rattle.bag_commands.specs.Outputs.{Printed};

use crate::no_result::NoResult;
use crate::output::Output;
use crate::status::{DONE, USAGE, make_status};
use bag_digest::{Alg, AlgSet};
use bag_path::TextSpelling;
use bag_tags::{Info, Oxum};
use bag_writer::{CopiedTree, Large, OpenSink, Spec, WriteFault, write_bag};
use std::alloc::Global;
use std::fmt::{self, Display, Formatter};
use std::io::Write;

/// How `make` ended.
#[derive(Debug, Drop)]
pub struct MakeEnd {
    /// The exit status.
    pub status: u8,
    /// What is too large, if the printed line says that something is.
    pub large: Option<Large>,
}

/// Writes a bag of a tree's payload files to a sink, with manifests by the algorithms with these names, prints the
/// result and returns the status, as [`print_making`] does. An algorithm that is named twice counts once.
///
/// If a name is unknown, prints the first such name, with the escapes of a path, and returns [`USAGE`]. Neither the tree
/// nor the sink is used then.
pub fn make_to<T: CopiedTree, S: OpenSink, W: Write + Drop>(
    alloc: Global,
    names: &[String],
    tree: &mut T,
    sink: &mut S,
    out: &mut Output<W>,
) -> MakeEnd
    ensures { MakesOf W.contents (IsWriting T.shown T.failures T.sure S.stored
        (λ (s : S). S.is_open s ≡ false) S.failures S.sure tree.old tree.new sink.old sink.new)
        ((tree.new ≡ tree.old) × (sink.new ≡ sink.old))
        (map string_bytes names.now) out.old out.new result }
{
    match named_algs(names) {
        Ok(algs) => {
            let answer = write_plain(alloc, algs, tree, sink);
            MakeEnd {
                status: print_making(&answer, out),
                large: large_in(answer),
            }
        }
        Err(word) => MakeEnd {
            status: out.print(UnknownLine(word), USAGE),
            large: None,
        },
    }
}

/// What is too large, by a result.
fn large_in(answer: Result<Oxum, WriteFault>) -> Option<Large>
    ensures { result ≡ large_in answer }
{
    match answer {
        Err(WriteFault::TooLarge(large)) => Some(large),
        _ => None,
    }
}

/// Writes a bag of a tree's payload files, with manifests by these algorithms and without `bag-info.txt` elements or
/// holes.
fn write_plain<T: CopiedTree, S: OpenSink>(
    alloc: Global,
    algs: AlgSet,
    tree: &mut T,
    sink: &mut S,
) -> Result<Oxum, WriteFault>
    ensures { (spec : Spec) × IsPlainSpec algs spec × IsWriting T.shown T.failures T.sure
        S.stored (λ (s : S). S.is_open s ≡ false) S.failures S.sure
        tree.old tree.new sink.old sink.new spec result }
{
    let spec = Spec {
        algs,
        info: Info::new(alloc),
        holes: Vec::new(alloc),
    };
    write_bag(alloc, tree, &spec, sink)
}

/// The algorithms with these names.
///
/// # Errors
///
/// The first name that is unknown.
fn named_algs(words: &[String]) -> Result<AlgSet, &str>
    ensures named { IfOk result (NamesSet (map string_bytes words.now)) }
    ensures unknown { IfErr result (λ word. IsFirstUnknown (map string_bytes words.now) word.now) }
{
    let mut algs = AlgSet::empty();
    for word in words {
        match Alg::from_name(word.as_str()) {
            Some(alg) => algs = algs.with(alg),
            None => return Err(word.as_str()),
        }
    }
    Ok(algs)
}

/// Prints the result of `make` and returns the status: 0 if the bag was made, 1 if no bag can be made of the payload,
/// and 3 if files or memory failed or the result couldn't be written.
pub fn print_making<W: Write + Drop>(answer: &Result<Oxum, WriteFault>, out: &mut Output<W>) -> u8
    ensures { Printed W.contents out.old out.new result
        (make_text answer.now ∷ []) (make_status answer.now) }
{
    out.print(MakingLine(answer), make_status(answer))
}

/// The line that says why no bag, or only part of one, was made.
fn fault_line(fault: &WriteFault) -> &'static str
    ensures { result.now ≡ fault_line fault.now }
{
    match fault {
        WriteFault::NoAlgorithm => "bag: no algorithm",
        WriteFault::OxumGiven => "bag: oxum given",
        WriteFault::BadHole(_) => "bag: bad hole",
        WriteFault::Clash(_) => "bag: clash",
        WriteFault::Tree | WriteFault::Sink => NoResult::Files.text(),
        WriteFault::TooLarge(_) => NoResult::TooLarge.text(),
        WriteFault::Memory => NoResult::Memory.text(),
    }
}

/// A result of `make` as a line.
#[derive(Clone, Copy)]
struct MakingLine<'a>(&'a Result<Oxum, WriteFault>);

impl Display for MakingLine<'_> {
    ghost use Rattle.std.specs.Prelude.{Some};
    ghost use Rattle.bag_commands.specs.MakeTexts.{make_text};

    ghost output = { λ line. Some (make_text line.0.now) };

    fn fmt<W: fmt::Write>(&self, f: &mut Formatter<W>) -> fmt::Result {
        match self.0 {
            Ok(oxum) => write!(f, "made {} files, {} octets", oxum.streams, oxum.octets),
            Err(fault) => f.write_str(fault_line(fault)),
        }
    }
}

/// An unknown name of an algorithm as a line.
#[derive(Clone, Copy)]
struct UnknownLine<'a>(&'a str);

impl Display for UnknownLine<'_> {
    ghost use Rattle.std.specs.Prelude.{Some};
    ghost use Rattle.bag_commands.specs.Making.{unknown_text};

    ghost output = { λ line. Some (unknown_text line.0.now) };

    fn fmt<W: fmt::Write>(&self, f: &mut Formatter<W>) -> fmt::Result {
        write!(f, "unknown algorithm {}", TextSpelling(self.0))
    }
}

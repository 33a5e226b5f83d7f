//! Writes a bag from a payload.
ghost use Rattle.std.specs.Prelude.{◌≡◌, [], IfErr, IsErrOf, MatchResult, false, length};
ghost use Rattle.bag_rules.specs.Files.{Files};
ghost use Rattle.bag_rules.specs.Trees.{AreRising, UsesTree, paths_in};
ghost use Rattle.bag_writer.specs.Sinks.{IsEmptySink, UsesClosedSink};
ghost use Rattle.bag_writer.specs.Steps.{IsAcceptedWith, ReadsPayload};
ghost use Rattle.bag_writer.specs.Writing.{IsAccepted, IsDone, IsMetLater, IsOfDevice, IsRefusedUnwritten, RefusesBag, payload_paths};
ghost use Rattle.bag_writer.specs.declared.write_fault.WriteFault.{WriteFault};

use crate::accepting::accepted_holes;
use crate::open_sink::{CopiedTree, OpenSink};
use crate::payload::write_payload;
use crate::spec::Spec;
use crate::tag_files::write_tag_files;
use crate::too_large::large_if_empty;
use crate::write_fault::WriteFault;
use bag_digest::{FRONT, buffer_of};
use bag_rules::Paths;
use bag_tags::Oxum;
use std::alloc::Global;

/// Writes the payload files of a tree as a bag of version 1.0 with manifests and tag manifests by the given algorithms
/// (RFC 8493 section 2). Returns the `Payload-Oxum` of the payload.
///
/// The bag is written in this order: the payload directory; each payload file that isn't a hole, by path;
/// `bag-info.txt` with the given elements and then the `Payload-Oxum` of the whole payload, including holes;
/// `bagit.txt`; if there are holes, `fetch.txt` with the length of each; for each algorithm `manifest-ALG.txt`, by
/// path, for the whole payload; for each algorithm `tagmanifest-ALG.txt`, by path, for all tag files except tag
/// manifests. Other files of the tree are ignored. Each payload file is read once. Without holes, and without SHA-512,
/// several payload files are read and written side by side, up to 32 at a time; each belongs to the bag once those
/// before it do.
///
/// The sink should be new. If it already holds a file or the payload directory, nothing is claimed about what it holds
/// afterwards.
///
/// # Errors
///
/// Before anything is written, the first that applies: `NoAlgorithm`; `OxumGiven`; `BadHole` for the first bad hole;
/// `Clash` for the least path; `TooLarge` for more than 100,000 payload files, or if a tag file would have more than
/// 16,777,216 octets even if every payload file were empty. After that, as the work meets them: `Tree` or `Sink` if the
/// tree or the sink failed, and it has counted the failure; `TooLarge` for a payload file of more than 2^40 octets, or
/// for a `bag-info.txt` or a `fetch.txt` that only the numbers of octets in it make too long. The sink then holds part
/// of the bag. `Memory` may be returned in place of any other.
pub fn write_bag<T: CopiedTree, S: OpenSink>(
    alloc: Global,
    tree: &mut T,
    spec: &Spec,
    sink: &mut S,
) -> Result<Oxum, WriteFault>
    ensures refused { MatchResult result
        (λ oxum. IsAccepted (payload_paths (T.shown tree.old)) spec.now)
        (RefusesBag (payload_paths (T.shown tree.old)) spec.now) }
    ensures unwritten { IsRefusedUnwritten (payload_paths (T.shown tree.old)) spec.now
        → (sink.new ≡ sink.old) × MatchResult result (λ oxum. ⊥) (λ fault. ¬ IsOfDevice fault) }
    // This holds of some payload, which is that of the tree's bag if that is known: its Oxum is returned, and a sink
    // that was empty then holds its bag, as a whole or in part.
    ensures done { (payload : Files) × IsDone (T.shown tree.old) spec.now result
        (S.stored sink.old) (S.stored sink.new) payload }
    ensures tree { UsesTree T.shown T.failures T.sure tree.old tree.new
        (IsErrOf result WriteFault.Tree) }
    ensures sink { UsesClosedSink S.is_open S.failures S.sure sink.old sink.new
        ((S.is_open sink.old ≡ false) × IsEmptySink (S.stored sink.old))
        result (IsErrOf result WriteFault.Sink) }
{
    let marks = accepted_holes(alloc, tree, spec)?;
    let count = payload_count(tree);
    if let Some(large) = large_if_empty(alloc, tree, spec, count)? {
        return Err(WriteFault::TooLarge(large));
    }
    write_accepted(alloc, tree, spec, marks.as_slice(), sink)
}

/// Writes a bag that was accepted.
fn write_accepted<T: CopiedTree, S: OpenSink>(
    alloc: Global,
    tree: &mut T,
    spec: &Spec,
    marks: &[bool],
    sink: &mut S,
) -> Result<Oxum, WriteFault>
    requires accepted { IsAcceptedWith (T.shown tree.old) spec.now marks.now }
    ensures done { (payload : Files) × IsDone (T.shown tree.old) spec.now result
        (S.stored sink.old) (S.stored sink.new) payload }
    ensures err { IfErr result IsMetLater }
    ensures tree { ReadsPayload T.shown T.failures T.sure tree.old tree.new
        (IsErrOf result WriteFault.Tree) }
    ensures sink { UsesClosedSink S.is_open S.failures S.sure sink.old sink.new
        ((S.is_open sink.old ≡ false) × IsEmptySink (S.stored sink.old))
        result (IsErrOf result WriteFault.Sink) }
{
    let mut buffer = buffer_of(alloc, FRONT)?;
    let Ok(()) = sink.payload_dir() else {
        return Err(WriteFault::Sink);
    };
    let items = write_payload(alloc, buffer.as_mut_slice(), tree, spec, marks, sink)?;
    write_tag_files(alloc, spec, items.as_slice(), sink)
}

/// The number of payload files.
pub fn payload_count<P: Paths>(paths: &P) -> usize
    ensures count { result ≡ length (payload_paths (P.shown paths.now)) }
    ensures rising { AreRising (paths_in (P.shown paths.now)) }
{
    let mut count = 0;
    for i in 0..paths.count() {
        if paths.path(i).is_payload() {
            count += 1;
        }
    }
    count
}

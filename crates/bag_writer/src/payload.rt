//! Writes the payload: several files side by side, or one after another.
ghost use Rattle.std.specs.Prelude.{◌≡◌, length};
ghost use Rattle.bag_rules.specs.Trees.{paths_in};
ghost use Rattle.bag_writer.specs.PayloadSteps.{WritesPayload};
ghost use Rattle.bag_writer.specs.Steps.{AreHoleMarks};
ghost use Rattle.bag_digest.specs.declared.buffers.TheConstants.{FRONT};

use crate::item::Item;
use crate::open_sink::{CopiedTree, OpenSink};
use crate::payload_beside::write_beside;
use crate::payload_in_turn::write_in_turn;
use crate::spec::Spec;
use crate::write_fault::WriteFault;
use bag_digest::{Alg, Failed, SourceFault};
use std::alloc::Global;

/// Why a file wasn't copied to its end.
#[derive(Clone, Copy, Debug)]
pub(crate) enum CopyFault {
    /// A read failed.
    Tree,
    /// A write failed.
    Sink,
    /// The source gave more than 2^40 octets.
    TooLarge,
}

impl From<SourceFault> for CopyFault {
    ghost use Rattle.std.specs.Prelude.{◌≡◌};
    ghost use Rattle.bag_writer.specs.PayloadSteps.{copy_fault};

    ghost from_gives = { λ cause fault. fault ≡ copy_fault cause };

    fn from(cause: SourceFault) -> CopyFault {
        match cause {
            SourceFault::Read => CopyFault::Tree,
            SourceFault::TooLarge => CopyFault::TooLarge,
        }
    }
}

impl From<Failed> for CopyFault {
    ghost use Rattle.std.specs.Prelude.{◌≡◌};
    ghost use Rattle.bag_writer.specs.declared.payload.CopyFault.TheVariants.{Sink};

    ghost from_gives = { λ _ fault. fault ≡ Sink };

    /// A sink has failed.
    fn from(_: Failed) -> CopyFault {
        CopyFault::Sink
    }
}

/// Reads the payload files by path, writes each that isn't a hole, and returns what manifests need to know about each.
/// Several are read and written side by side, unless there is a hole, or a digest by SHA-512, which isn't taken side
/// by side.
///
/// # Errors
///
/// `Tree`, `Sink` or `Memory` if the tree or the sink failed or memory ran out; `TooLarge` if a file has more than 2^40
/// octets.
pub(crate) fn write_payload<T: CopiedTree, S: OpenSink>(
    alloc: Global,
    buffer: &mut [u8],
    tree: &mut T,
    spec: &Spec,
    marks: &[bool],
    sink: &mut S,
) -> Result<Vec<Item>, WriteFault>
    requires { (length buffer.old ≡ FRONT)
        × AreHoleMarks (paths_in (T.shown tree.old)) spec.now marks.now }
    ensures { WritesPayload T.shown T.failures T.sure S.Sink spec.now tree.old tree.new
        sink.old sink.new result }
{
    if spec.algs.has(Alg::Sha512) || !spec.holes.is_empty() {
        write_in_turn(alloc, buffer, tree, spec, marks, sink)
    } else {
        write_beside(alloc, buffer, tree, spec, sink)
    }
}

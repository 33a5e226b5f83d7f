//! Exports: write the bag of a transfer, as it is held, to a sink.
ghost use Rattle.std.specs.Prelude.{◌≡◌, ◌<◌, ◌∷◌, ◌++◌, [], ℕ, List, IfErr, IsErr, IsErrOf, MatchResult, false, length};
ghost use Rattle.bag_rules.specs.Files.{Files};
ghost use Rattle.bag_rules.specs.Plans.{sizes_of};
ghost use Rattle.bag_ledger.specs.declared.keeper_faults.KeepFault.TheVariants.{Store};
ghost use Rattle.bag_writer.specs.Sinks.{ClosesSink, IsFree, UsesClosedSink, UsesOpenSink};
ghost use Rattle.bag_writer.specs.Steps.{ArePart, AreWhole};
ghost use Rattle.bag_writer.specs.TagWriting.{AreFree};
ghost use Rattle.bag_writer.specs.PayloadSteps.{Writes, WritesFront};
ghost use Rattle.bag_receiver.specs.Exporting.{IsExporting};
ghost use Rattle.bag_receiver.specs.ExportsInside.{HasItems, IsMetWriting, IsPartOf, WritesAsMany, from_opened};
ghost use Rattle.bag_receiver.specs.Holdings.{HasItem, ReadsKeeper};
ghost use Rattle.bag_receiver.specs.declared.export.ExportFault.TheVariants.{Keeper as NotKept, Sink as SinkFailed};

use crate::held::next_piece;
use crate::receiver::Receiver;
use crate::transfer_name::is_name;
use bag_digest::{Failed, piece_buffer};
use bag_ledger::{KeepFault, Keeper};
use bag_path::BagPath;
use bag_rules::{ItemSize, TagSet};
use bag_writer::{Sink, add_file};
use std::alloc::{AllocError, Global};
use thiserror::Error;

/// Why no bag, or only part of one, is exported.
#[derive(Clone, Copy, Debug, PartialEq, Eq, Error)]
pub enum ExportFault {
    /// No transfer has this name, or the name is invalid. Nothing was written.
    #[error("no transfer")]
    NoTransfer,
    /// The sink failed, and counted the failure.
    #[error("sink")]
    Sink,
    /// The store of the transfers has no answer, or memory ran out.
    #[error("keeper")]
    Keeper(KeepFault),
}

impl From<KeepFault> for ExportFault {
    ghost use Rattle.std.specs.Prelude.{◌≡◌};
    ghost use Rattle.bag_receiver.specs.declared.export.ExportFault.TheVariants.{Keeper};

    ghost from_gives = { λ keep fault. fault ≡ Keeper keep };

    fn from(fault: KeepFault) -> ExportFault {
        ExportFault::Keeper(fault)
    }
}

impl From<AllocError> for ExportFault {
    ghost use Rattle.std.specs.Prelude.{◌≡◌};
    ghost use Rattle.bag_ledger.specs.declared.keeper_faults.KeepFault.TheVariants.{Memory};
    ghost use Rattle.bag_receiver.specs.declared.export.ExportFault.TheVariants.{Keeper};

    ghost from_gives = { λ error fault. fault ≡ Keeper Memory };

    fn from(_: AllocError) -> ExportFault {
        ExportFault::Keeper(KeepFault::Memory)
    }
}

impl From<Failed> for ExportFault {
    ghost use Rattle.std.specs.Prelude.{◌≡◌};
    ghost use Rattle.bag_receiver.specs.declared.export.ExportFault.TheVariants.{Sink};

    ghost from_gives = { λ failed fault. fault ≡ Sink };

    fn from(_: Failed) -> ExportFault {
        ExportFault::Sink
    }
}

impl<K: Keeper> Receiver<K> {
    /// Writes the bag of the transfer as it is held now: the payload directory, then the tag files and then the payload
    /// files, each by path. Returns how many files it has.
    ///
    /// The sink must be new: if it already holds a file or the payload directory, nothing is promised about what it
    /// holds afterwards. The payload files are read piece by piece through one buffer.
    ///
    /// # Errors
    ///
    /// [`ExportFault::NoTransfer`] if no transfer has this name or the name is invalid; [`ExportFault::Sink`] if the
    /// sink failed, which includes that a file is already open or that one of the paths exists; [`ExportFault::Keeper`]
    /// if the store failed or memory ran out. After the last two the sink holds part of the bag.
    pub fn export<S: Sink>(
        &mut self,
        alloc: Global,
        name: &str,
        sink: &mut S,
    ) -> Result<u64, ExportFault>
        ensures { IsExporting K.holds K.may_leave K.clean K.failures S.stored S.is_open S.failures
            S.sure name.now self.old self.new sink.old sink.new result }
    {
        if !is_name(name) {
            return Err(ExportFault::NoTransfer);
        }
        let Some(tags) = self.keeper.tags(alloc, name)? else {
            return Err(ExportFault::NoTransfer);
        };
        let items = self.keeper.sizes(alloc, name)?;
        write_bag(&mut self.keeper, alloc, name, &tags, items.as_slice(), sink)?;
        Ok(tags.files().len() as u64 + items.len() as u64)
    }
}

/// Writes the payload directory, these tag files, and the payload files that are held.
fn write_bag<K: Keeper, S: Sink>(
    keeper: &mut K,
    alloc: Global,
    name: &str,
    tags: &TagSet,
    items: &[ItemSize],
    sink: &mut S,
) -> Result<(), ExportFault>
    ensures written { K.clean keeper.new → (files : Files)
        → HasItems K.holds keeper.old name.now files → items.now ≡ sizes_of files
        → MatchResult result
        (λ _. AreWhole (tags.now ++ files) (from_opened (S.stored sink.old)) (S.stored sink.new))
        (λ _. IsPartOf (tags.now ++ files) (S.stored sink.old) (S.stored sink.new)) }
    ensures keeper { ReadsKeeper K.holds K.may_leave K.clean K.failures keeper.old keeper.new
        (λ fault. IsErrOf result (NotKept (Store fault))) }
    ensures sink { UsesClosedSink S.is_open S.failures S.sure sink.old sink.new
        ((K.clean keeper.new × (S.is_open sink.old ≡ false)) × ((files : Files)
        × HasItems K.holds keeper.old name.now files × (items.now ≡ sizes_of files)
        × AreFree (from_opened (S.stored sink.old)) (tags.now ++ files)))
        result (IsErrOf result SinkFailed) }
    ensures err { IfErr result IsMetWriting }
{
    let mut buffer = piece_buffer(alloc)?;
    sink.payload_dir()?;
    write_tags(tags, sink)?;
    write_items(keeper, alloc, name, items, buffer.as_mut_slice(), sink)
}

/// Writes the tag files by path.
fn write_tags<S: Sink>(tags: &TagSet, sink: &mut S) -> Result<(), Failed>
    ensures written { MatchResult result
        (λ _. AreWhole tags.now (S.stored sink.old) (S.stored sink.new))
        (λ _. ArePart tags.now (S.stored sink.old) (S.stored sink.new)) }
    ensures sink { UsesClosedSink S.is_open S.failures S.sure sink.old sink.new
        ((S.is_open sink.old ≡ false) × AreFree (S.stored sink.old) tags.now)
        result (IsErr result) }
{
    for file in tags.files() {
        add_file(file.path(), file.body(), sink)?;
    }
    Ok(())
}

/// Reads these held payload files, and writes each one.
fn write_items<K: Keeper, S: Sink>(
    keeper: &mut K,
    alloc: Global,
    name: &str,
    items: &[ItemSize],
    buffer: &mut [u8],
    sink: &mut S,
) -> Result<(), ExportFault>
    requires { 0 < length buffer.old }
    ensures written { K.clean keeper.new → (files : Files)
        → HasItems K.holds keeper.old name.now files → items.now ≡ sizes_of files
        → MatchResult result
        (λ _. AreWhole files (S.stored sink.old) (S.stored sink.new))
        (λ _. ArePart files (S.stored sink.old) (S.stored sink.new)) }
    ensures keeper { ReadsKeeper K.holds K.may_leave K.clean K.failures keeper.old keeper.new
        (λ fault. IsErrOf result (NotKept (Store fault))) }
    ensures sink { UsesClosedSink S.is_open S.failures S.sure sink.old sink.new
        ((K.clean keeper.new × (S.is_open sink.old ≡ false)) × ((files : Files)
        × HasItems K.holds keeper.old name.now files × (items.now ≡ sizes_of files)
        × AreFree (S.stored sink.old) files))
        result (IsErrOf result SinkFailed) }
    ensures err { IfErr result IsMetWriting }
{
    for item in items {
        write_item(keeper, alloc, name, item, buffer, sink)?;
    }
    Ok(())
}

/// Reads a held payload file, and writes it.
fn write_item<K: Keeper, S: Sink>(
    keeper: &mut K,
    alloc: Global,
    name: &str,
    item: &ItemSize,
    buffer: &mut [u8],
    sink: &mut S,
) -> Result<(), ExportFault>
    requires { 0 < length buffer.old }
    ensures written { K.clean keeper.new → (content : List ℕ)
        → HasItem K.holds keeper.old name.now item.now.path content
        → item.now.octets ≡ length content → MatchResult result
        (λ _. AreWhole ((item.now.path, content) ∷ []) (S.stored sink.old) (S.stored sink.new))
        (λ _. ArePart ((item.now.path, content) ∷ []) (S.stored sink.old) (S.stored sink.new)) }
    ensures keeper { ReadsKeeper K.holds K.may_leave K.clean K.failures keeper.old keeper.new
        (λ fault. IsErrOf result (NotKept (Store fault))) }
    ensures sink { ClosesSink S.is_open S.failures S.sure sink.old sink.new
        ((S.is_open sink.old ≡ false) × IsFree (S.stored sink.old) item.now.path)
        result (IsErrOf result SinkFailed) }
    ensures err { IfErr result IsMetWriting }
{
    sink.file(&item.path)?;
    write_content(keeper, alloc, name, item, buffer, sink)?;
    sink.end()?;
    Ok(())
}

/// Reads a held payload file, and writes its content to the open file.
fn write_content<K: Keeper, S: Sink>(
    keeper: &mut K,
    alloc: Global,
    name: &str,
    item: &ItemSize,
    buffer: &mut [u8],
    sink: &mut S,
) -> Result<(), ExportFault>
    requires { 0 < length buffer.old }
    ensures written { K.clean keeper.new → (content : List ℕ)
        → HasItem K.holds keeper.old name.now item.now.path content
        → item.now.octets ≡ length content → MatchResult result
        (λ _. Writes content (S.stored sink.old) (S.stored sink.new))
        (λ _. WritesFront content (S.stored sink.old) (S.stored sink.new)) }
    // Whatever the store gives, as many octets are written as it said.
    ensures ended { MatchResult result
        (λ _. WritesAsMany item.now.octets (S.stored sink.old) (S.stored sink.new)) IsMetWriting }
    ensures keeper { ReadsKeeper K.holds K.may_leave K.clean K.failures keeper.old keeper.new
        (λ fault. IsErrOf result (NotKept (Store fault))) }
    ensures sink { UsesOpenSink S.is_open S.failures S.sure sink.old sink.new
        (IsErrOf result SinkFailed) }
{
    let mut read = 0u64;
    while read < item.octets {
        let left = item.octets - read;
        let n = next_piece(keeper, alloc, name, &item.path, read, left, buffer)?;
        if n == 0 {
            // The store has fewer octets than it reported.
            return Err(ExportFault::Keeper(keeper.blame()));
        }
        sink.write(&buffer[..n])?;
        read += n as u64;
    }
    Ok(())
}

//! Opening a transfer with the tag files of a tree.
ghost use Rattle.std.specs.Prelude.{◌≡◌, ◌<◌, IsErrOf, MatchResult, length};
ghost use Rattle.bag_rules.specs.Files.{AreTagFiles};
ghost use Rattle.bag_rules.specs.Trees.{UsesTree, octets_in, paths_in};
ghost use Rattle.bag_receiver.specs.BeginningFrom.{AreTagFilesIn, BeginsFrom, IsBeginning, IsKnownAs, IsMetReading};
ghost use Rattle.bag_receiver.specs.BeginningInside.{IsMetAt, IsRefusal, OpenWith};
ghost use Rattle.bag_receiver.specs.TransferNames.{IsTransferName};

use crate::begin::{BeginFault, Begun};
use crate::receiver::Receiver;
use crate::transfer_name::is_name;
use bag_digest::{ReadFault, piece_buffer, read_to_end_within};
use bag_ledger::{KeepFault, Keeper};
use bag_rules::limits::LARGEST_TAG_FILE;
use bag_rules::{Plan, TagSet, Tree};
use std::alloc::Global;

impl<K: Keeper> Receiver<K> {
    /// Opens a transfer as `begin` does, with all files of a tree except its payload. Payload files aren't read. If the
    /// name is invalid, no file is read.
    ///
    /// # Errors
    ///
    /// [`BeginFault::BadName`]; then, as the files are read by path, [`BeginFault::TagTooLarge`] for the first with
    /// more than 16,777,216 octets, or [`BeginFault::Tree`] if the tree failed; and then those of `begin`.
    pub fn begin_from<T: Tree>(
        &mut self,
        alloc: Global,
        name: &str,
        tree: &mut T,
    ) -> Result<Begun, BeginFault>
        ensures { BeginsFrom K.holds K.may_leave K.clean K.failures T.shown T.failures T.sure
            name.now self.old self.new tree.old tree.new result }
    {
        if !is_name(name) {
            return Err(BeginFault::BadName);
        }
        let tags = read_tag_files(alloc, tree)?;
        self.begin_with(alloc, name, &tags)
    }

    /// Opens a transfer with these tag files.
    fn begin_with(&mut self, alloc: Global, name: &str, tags: &TagSet) -> Result<Begun, BeginFault>
        requires named { IsTransferName name.now }
        requires tags { AreTagFiles tags.now }
        ensures { IsBeginning K.holds K.may_leave K.clean K.failures name.now self.old self.new
            tags.now result }
    {
        let plan = plan_to_open(alloc, tags)?;
        self.open_as(alloc, name, tags, plan)
    }
}

/// The plan of a transfer with these tag files, if it can be opened.
fn plan_to_open(alloc: Global, tags: &TagSet) -> Result<Plan, BeginFault>
    requires { AreTagFiles tags.now }
    ensures { MatchResult result (OpenWith tags.now) (IsRefusal tags.now) }
{
    match Plan::from_tags(alloc, tags) {
        Ok(plan) => Ok(plan),
        Err(fault) => Err(BeginFault::from(fault)),
    }
}

/// The tag files of a tree.
///
/// # Errors
///
/// `Tree` if the tree failed; `TagTooLarge` for the first that has too many octets; or memory ran out.
fn read_tag_files<T: Tree>(alloc: Global, tree: &mut T) -> Result<TagSet, BeginFault>
    ensures read { MatchResult result
        (λ tags. AreTagFiles tags × AreTagFilesIn (T.shown tree.old) tags)
        (IsMetReading (T.shown tree.old)) }
    ensures uses { UsesTree T.shown T.failures T.sure tree.old tree.new
        (IsErrOf result BeginFault.Tree) }
{
    let mut buffer = piece_buffer(alloc)?;
    read_each(alloc, buffer.as_mut_slice(), tree)
}

/// The same, through the caller's buffer.
fn read_each<T: Tree>(alloc: Global, buffer: &mut [u8], tree: &mut T) -> Result<TagSet, BeginFault>
    requires { 0 < length buffer.old }
    ensures read { MatchResult result
        (λ tags. AreTagFiles tags × AreTagFilesIn (T.shown tree.old) tags)
        (IsMetReading (T.shown tree.old)) }
    ensures uses { UsesTree T.shown T.failures T.sure tree.old tree.new
        (IsErrOf result BeginFault.Tree) }
{
    let mut tags = TagSet::new(alloc);
    for i in 0..tree.count() {
        if tree.path(i).is_payload() {
            continue;
        }
        let path = tree.path(i).clone()?;
        let body = read_tag_file(alloc, buffer, tree, i)?;
        let Ok(()) = tags.insert(path, body) else {
            return Err(BeginFault::Keeper(KeepFault::Memory));
        };
    }
    Ok(tags)
}

/// Reads the whole file at this place.
fn read_tag_file<T: Tree>(
    alloc: Global,
    buffer: &mut [u8],
    tree: &mut T,
    i: usize,
) -> Result<Vec<u8>, BeginFault>
    requires room { 0 < length buffer.old }
    requires inside { i < length (paths_in (T.shown tree.old)) }
    ensures read { MatchResult result
        (λ body. IsKnownAs (octets_in (T.shown tree.old) i) body.items)
        (IsMetAt (T.shown tree.old) i) }
    ensures uses { UsesTree T.shown T.failures T.sure tree.old tree.new
        (IsErrOf result BeginFault.Tree) }
    ensures kept { length buffer.new ≡ length buffer.old }
{
    let Ok(()) = tree.start(i) else {
        return Err(BeginFault::Tree);
    };
    match read_to_end_within(alloc, buffer, tree, LARGEST_TAG_FILE) {
        Ok(body) => Ok(body),
        Err(ReadFault::Read) => Err(BeginFault::Tree),
        Err(ReadFault::Memory) => Err(BeginFault::Keeper(KeepFault::Memory)),
        Err(ReadFault::TooLarge) => Err(BeginFault::TagTooLarge(tree.path(i).clone()?)),
    }
}

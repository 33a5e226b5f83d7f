//! What the tag files say about each file, by path.
ghost use Rattle.std.specs.Prelude.{IfOk, OnOk};
ghost use Rattle.bag_rules.specs.WantsInside.{AddsLength, AreByPath, IsWantBy};

use crate::want::{GivenLength, Want};
use bag_path::{BagPath, Version};
use bag_tags::{FetchLine, Manifest};
use std::alloc::{AllocError, Global};
use std::collections::BTreeMap;

/// The lengths that `fetch.txt` gives, by path. Those for the same path are in the order of their lines.
pub(crate) type Lengths = BTreeMap<BagPath, Vec<GivenLength>>;

/// What the manifests list, and the lengths that `fetch.txt` gives.
#[derive(Drop)]
pub(crate) struct Requirements<'a> {
    pub(crate) version: Version,
    manifests: &'a [Manifest],
    lengths: Lengths,
}

impl<'a> Requirements<'a> {
    ghost use Rattle.std.specs.Prelude.{IfOk};
    ghost use Rattle.bag_rules.specs.WantsInside.{AreRequirementsOf, IsWantBy};

    /// What these manifests and lines of a bag of this version say.
    pub(crate) fn new(
        alloc: Global,
        version: Version,
        manifests: &'a [Manifest],
        lines: &[FetchLine],
    ) -> Result<Requirements<'a>, AllocError>
        ensures { IfOk result (AreRequirementsOf version manifests.now lines.now) }
    {
        let lengths = lengths_by_path(alloc, lines)?;
        Ok(Requirements {
            version,
            manifests,
            lengths,
        })
    }

    /// What the file at this path has to be.
    pub(crate) fn of<'b>(&'b self, path: &'b BagPath) -> Want<'b>
        ensures { IsWantBy self.now.manifests.now self.now.lengths path.now result }
    {
        want_of(self.manifests, &self.lengths, path)
    }
}

/// What the file at this path has to be, by these manifests and lengths.
pub(crate) fn want_of<'a>(
    manifests: &'a [Manifest],
    lengths: &'a Lengths,
    path: &'a BagPath,
) -> Want<'a>
    ensures { IsWantBy manifests.now lengths.now path.now result }
{
    let lengths = match lengths.get(path) {
        Some(lengths) => lengths.as_slice(),
        None => &[],
    };
    Want {
        path,
        manifests,
        lengths,
    }
}

/// The lengths that these lines give, by path.
pub(crate) fn lengths_by_path(alloc: Global, lines: &[FetchLine]) -> Result<Lengths, AllocError>
    ensures { IfOk result (AreByPath lines.now) }
{
    let mut lengths = BTreeMap::new(alloc);
    for line in lines {
        if let Some(length) = line.entry.length() {
            let given = GivenLength {
                line: line.line,
                length,
            };
            add_length(alloc, &mut lengths, line.entry.path(), given)?;
        }
    }
    Ok(lengths)
}

/// Adds a length for the file at this path, after the others.
fn add_length(
    alloc: Global,
    lengths: &mut Lengths,
    path: &BagPath,
    given: GivenLength,
) -> Result<(), AllocError>
    ensures { OnOk result (AddsLength lengths.old lengths.new path.now given) }
{
    let key = path.clone()?;
    let mut of_path = match lengths.remove(path) {
        Some(of_path) => of_path,
        None => Vec::new(alloc),
    };
    of_path.push(given)?;
    match lengths.insert(key, of_path) {
        Ok(_) => Ok(()),
        Err(_) => Err(AllocError),
    }
}

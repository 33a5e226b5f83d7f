//! Plans: what the tag files of a transfer say about its payload.
ghost use Rattle.std.specs.Prelude.{◌≡◌, IfNone, IfSome};
ghost use Rattle.bag_rules.specs.Faults.{Has};
ghost use Rattle.bag_rules.specs.Trees.{AreRising};

use crate::plan_fault::{PlanFault, open_tags};
use crate::report::Report;
use crate::requirements::{Lengths, lengths_by_path, want_of};
use crate::tag_set::TagSet;
use crate::tag_texts::TagTexts;
use crate::transfer_faults::add_item_faults;
use crate::tree::place_in;
use crate::want::Want;
use bag_path::BagPath;
use bag_tags::FetchLine;
use std::alloc::{AllocError, Global};

/// The size of a payload file that a transfer holds.
#[derive(Debug, Drop)]
pub struct ItemSize {
    /// The path of the file.
    pub path: BagPath,
    /// How many octets it has.
    pub octets: u64,
}

/// What the tag files of a transfer say about its payload: which files are expected, and what each has to be.
#[derive(Drop)]
pub struct Plan {
    texts: TagTexts,
    lengths: Lengths,
    paths: Vec<BagPath>,
}

impl Plan {
    ghost use Rattle.std.specs.Prelude.{IfErr, IfOk, MatchOption};
    ghost use Rattle.bag_rules.specs.Files.{Files};
    ghost use Rattle.bag_rules.specs.Opening.{RefusesTags};
    ghost use Rattle.bag_rules.specs.Plans.{AreFetchLines, IsPlanOf, IsWantOf, sizes_of};
    ghost use Rattle.bag_rules.specs.Transfers.{AreExpected, AreHeldFor, IsExpected, held_bag};
    ghost use Rattle.bag_rules.specs.Validity.{Means};
    ghost use Rattle.bag_rules.specs.Verdicts.{IsVerdict};
    ghost use Rattle.bag_rules.specs.declared.outcome.Outcome.TheVariants.{Judged};

    /// The plan of a transfer with these tag files.
    ///
    /// # Errors
    ///
    /// The first cause, in the order of [`PlanFault`], for which no transfer can be opened with them.
    pub fn from_tags(alloc: Global, tags: &TagSet) -> Result<Plan, PlanFault>
        ensures opened { IfOk result (IsPlanOf tags.now) }
        ensures refused { IfErr result (RefusesTags tags.now) }
    {
        let (texts, paths) = open_tags(alloc, tags)?;
        let lengths = lengths_by_path(alloc, texts.fetch_lines())?;
        Ok(Plan {
            texts,
            lengths,
            paths,
        })
    }

    /// The paths of the expected payload files: those that a payload manifest lists, in order.
    pub fn paths(&self) -> &[BagPath]
        ensures { (tags : Files) → IsPlanOf tags self.now → AreExpected tags result.now }
    {
        self.paths.as_slice()
    }

    /// What the payload file at this path has to be. `None` if no payload manifest lists the path.
    pub fn want(&self, path: &BagPath) -> Option<Want<'_>>
        ensures { (tags : Files) → IsPlanOf tags self.now
            → MatchOption result (¬ IsExpected tags path.now) (IsWantOf tags path.now) }
    {
        let place = place_in(&self.paths, path)?;
        Some(want_of(&self.texts.manifests, &self.lengths, &self.paths[place]))
    }

    /// The entries of `fetch.txt`, in its order, each with the number of its line.
    pub fn fetch(&self) -> &[FetchLine]
        ensures { (tags : Files) → IsPlanOf tags self.now → AreFetchLines tags result.now }
    {
        self.texts.fetch_lines()
    }

    /// The report on the bag with these tag files and the payload files that a transfer holds. Only the sizes of the
    /// payload files are needed, since each was accepted with its digests and lengths.
    ///
    /// `sizes` are the sizes of all payload files that the transfer holds, by path.
    ///
    /// # Errors
    ///
    /// `AllocError` if memory runs out.
    pub fn report(&self, alloc: Global, sizes: &[ItemSize]) -> Result<Report, AllocError>
        ensures verdict { (tags items : Files) → IsPlanOf tags self.now → AreHeldFor tags items
            → sizes.now ≡ sizes_of items
            → IfOk result (λ report. IsVerdict (held_bag tags items) (Judged report)) }
        ensures meaning { (tags items : Files) → IsPlanOf tags self.now → AreHeldFor tags items
            → sizes.now ≡ sizes_of items
            → IfOk result (λ report. Means (held_bag tags items) (Judged report)) }
    {
        let mut faults = Vec::new(alloc);
        add_item_faults(&self.texts, sizes, &mut faults)?;
        Ok(Report::new(faults))
    }
}

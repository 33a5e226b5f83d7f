//! Laws about the definitions that the contracts of this crate cite. The contract of each function states one law, and
//! its body is empty.
ghost use Rattle.std.specs.Prelude.{◌≡◌, ◌≢◌, ◌≤◌, ◌*◌, ◌↔◌, ◌^◌, ℕ, List, [], length, true};
ghost use Rattle.std.specs.Ordering.{nat_cmp};
ghost use Rattle.std.specs.Cmp.Lexicographic.{slice_cmp};
ghost use Rattle.std.specs.declared.cmp.Ordering.TheVariants.{Less, Greater};
ghost use Rattle.bag_path.specs.Paths.{IsPath, is_payload};
ghost use Rattle.bag_rules.specs.contracts.fault.FaultOrd.TheImpl as order;
ghost use Rattle.bag_digest.specs.declared.buffers.TheConstants.{FRONT};
ghost use Rattle.bag_rules.specs.declared.file_batch.TheConstants.{MOST_READ};
ghost use Rattle.bag_rules.specs.declared.fault.Fault.{Fault};
ghost use Rattle.bag_rules.specs.declared.limits.TheConstants.{LARGEST_FILE, LARGEST_ITEM, LARGEST_TAG_FILE, MOST_FILES, MOST_LINES};
ghost use Rattle.bag_rules.specs.declared.outcome.CheckFault.{CheckFault};
ghost use Rattle.bag_rules.specs.declared.outcome.Outcome.{Outcome};
ghost use Rattle.bag_rules.specs.declared.want.Want.{Want};
ghost use Rattle.bag_rules.specs.declared.want.WantFault.{WantFault};
ghost use Rattle.bag_rules.specs.Bags.{Bag, HoldsFile, IsBagOf, paths_of};
ghost use Rattle.bag_rules.specs.Files.{AreTagFiles, Files};
ghost use Rattle.bag_rules.specs.Faults.{NoneUpTo, key_of, last_of_completeness};
ghost use Rattle.bag_rules.specs.declared.plan_fault.PlanFault.{PlanFault};
ghost use Rattle.bag_rules.specs.declared.plan_fault.PlanFault.TheVariants.{Memory};
ghost use Rattle.bag_rules.specs.Memory.{MemFiles, bag_in, mem_shown};
ghost use Rattle.bag_rules.specs.Limits.{Stops};
ghost use Rattle.bag_rules.specs.Opening.{Opens, RefusesTags};
ghost use Rattle.bag_rules.specs.Plans.{IsWantOf};
ghost use Rattle.bag_rules.specs.SameVerdicts.{SameVerdict};
ghost use Rattle.bag_rules.specs.Transfers.{IsExpected, IsMisfit, Passes};
ghost use Rattle.bag_rules.specs.Trees.{AreRising};
ghost use Rattle.bag_rules.specs.Validity.{IsComplete, IsValid};
ghost use Rattle.bag_rules.specs.Verdicts.{IsJudged, IsVerdict};
ghost use Rattle.bag_rules.specs.Wants.{IsFirstMisfitOf, IsWanted};

/// A check holds at most 4 MiB of the files that it has begun, and has at most 32 of them open.
pub fn a_check_holds_at_most_4_mebibytes_and_32_files()
    ensures octets { MOST_READ * FRONT ≤ 4 * 1048576 }
    ensures files { MOST_READ ≤ 32 }
{}

/// A bag that is judged is valid exactly if it has no faults.
pub fn a_judged_bag_is_valid_exactly_if_it_has_no_fault()
    ensures { (bag : Bag) (faults : List Fault) → AreRising (paths_of bag) → IsJudged bag faults
        → IsValid bag ↔ (faults ≡ []) }
{}

/// A bag that is judged is complete exactly if it has no faults but wrong digests.
pub fn a_judged_bag_is_complete_exactly_if_only_digests_are_wrong()
    ensures { (bag : Bag) (faults : List Fault) → AreRising (paths_of bag) → IsJudged bag faults
        → IsComplete bag ↔ NoneUpTo last_of_completeness faults }
{}

/// A bag has at most one verdict.
pub fn a_bag_has_one_verdict_at_most()
    ensures { (bag : Bag) (a b : Outcome) → AreRising (paths_of bag) → IsVerdict bag a
        → IsVerdict bag b → SameVerdict a b }
{}

/// Bags that hold the same files are the same. So the verdict on a bag doesn't depend on the order in which its files
/// were given.
pub fn the_same_files_are_the_same_bag()
    ensures { (a b : Bag) → AreRising (paths_of a) → AreRising (paths_of b)
        → ((path octets : List ℕ) → HoldsFile a path octets ↔ HoldsFile b path octets)
        → a.has_payload_dir ≡ b.has_payload_dir → a ≡ b }
{}

/// At most one limit is the first one that the check of a bag meets.
pub fn a_bag_meets_one_limit_first_at_most()
    ensures { (bag : Bag) (a b : CheckFault) → Stops bag a → Stops bag b → a ≡ b }
{}

/// A tree in memory shows the bag of its files.
pub fn a_tree_in_memory_is_that_of_a_bag()
    ensures { (tree : MemFiles) → IsBagOf (mem_shown tree) (bag_in tree) }
{}

/// The faults of a report are in order of kind, then of file name, then of line, path or second file name.
pub fn the_order_of_faults_is_by_kind_file_line_and_path()
    ensures { (fault other : Fault) → order.ghosts.cmp fault other ≡ Less
        → slice_cmp (slice_cmp nat_cmp) (key_of fault) (key_of other) ≢ Greater }
{}

/// Content passes for a listed path exactly if it is within the limit and is what the tag files want there.
pub fn what_is_wanted_and_within_the_limit_passes()
    ensures { (tags : Files) (path content : List ℕ) (want : Want) → IsWantOf tags path want
        → Passes tags path content ↔ ((length content ≤ LARGEST_ITEM) × IsWanted want content) }
{}

/// If it isn't what they want, the first reason by the want is also the first by the tag files.
pub fn what_is_not_wanted_is_a_misfit()
    ensures { (tags : Files) (path content : List ℕ) (want : Want) (fault : WantFault)
        → IsWantOf tags path want
        → IsFirstMisfitOf want content fault ↔ IsMisfit tags path content fault }
{}

/// A path that a payload manifest lists is that of a payload file.
pub fn an_expected_path_is_that_of_a_payload_file()
    ensures { (tags : Files) (path : List ℕ) → IsExpected tags path
        → IsPath path × (is_payload path ≡ true) }
{}

/// The limits are: the number of files, the number of lines, and the number of octets in a tag file, in any file that
/// is checked and in a payload file that a transfer holds.
pub fn the_limits_are_these()
    ensures { (MOST_FILES ≡ 200000) × (MOST_LINES ≡ 100000)
        × (LARGEST_TAG_FILE ≡ 16777216) × (LARGEST_FILE ≡ 2 ^ 40) × (LARGEST_ITEM ≡ 2 ^ 30) }
{}

/// If a transfer can be opened with these tag files, they are refused for no other reason than that memory runs out.
pub fn tag_files_that_open_are_not_refused()
    ensures { (tags : Files) (fault : PlanFault) → AreTagFiles tags → Opens tags
        → RefusesTags tags fault → fault ≡ Memory }
{}

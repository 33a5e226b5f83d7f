//! Worked examples of the definitions. Each function's contract is one example, and its body is empty.
ghost use Rattle.std.specs.Prelude.{◌≡◌, ◌⊎◌, ◌<◌, ◌∷◌, [], ℕ, List, Some, None, codes, length, map};
ghost use Rattle.bag_path.specs.declared.path.PathFault.TheVariants.{DotSegment};
ghost use Rattle.bag_digest.specs.declared.algorithm.Alg.TheVariants.{Sha256};
ghost use Rattle.bag_rules.specs.declared.limits.TheConstants.{LARGEST_ITEM};
ghost use Rattle.bag_rules.specs.ExampleBags.{file_a, file_e, tags_of_two, tags_with_fetch};
ghost use Rattle.bag_rules.specs.Files.{Files};
ghost use Rattle.bag_ledger.specs.declared.keeper_faults.KeepFault.TheVariants.{Memory};
ghost use Rattle.bag_ledger.specs.Ledgers.{begun, holding};
ghost use Rattle.bag_receiver.specs.declared.answer.Answer.{Answer};
ghost use Rattle.bag_receiver.specs.declared.answer.Answer.TheVariants.{Taken, Repeated, Refused};
ghost use Rattle.bag_receiver.specs.declared.answer.DeliverFault.TheVariants.{NoTransfer, BadPath, NotListed, TooLarge, Length, Digest, Keeper};
ghost use Rattle.bag_receiver.specs.Deliveries.{AreAccepted, IsDue, IsFirstHeld, TooLong, Unread, Whole};
ghost use Rattle.bag_receiver.specs.ExampleDeliveries.{abc, abd, another_run, both, delivered, one_run, only_e, run_with_a_failure};
ghost use Rattle.bag_receiver.specs.Stops.{Answered, Cut, Stop, StopRun};

/// A listed content is taken once and then repeated; another content, another path and another transfer are refused.
pub fn what_is_due_to_deliveries_one_after_another()
    ensures { let opened = begun tags_of_two in
        let with_e = holding opened file_e [] in
        let with_both = holding with_e file_a abc in
        IsDue (Some opened) file_e (Whole []) Taken
        × IsDue (Some with_e) file_a (Whole abc) Taken
        × IsDue (Some with_both) file_a (Whole abc) Repeated
        × IsDue (Some with_both) file_a (Whole abd) (Refused (Digest Sha256))
        × IsDue (Some with_both) (codes "data/z") (Whole abc) (Refused NotListed)
        × IsDue None file_a (Whole abc) (Refused NoTransfer) }
{}

/// A length that differs from `fetch.txt` is reported before a digest that differs (RFC 8493 section 2.2.3).
pub fn another_length_is_told_first()
    ensures { let opened = begun tags_with_fetch in
        IsDue (Some opened) file_a (Whole (codes "abcd")) (Refused Length)
        × IsDue (Some opened) file_a (Whole abd) (Refused (Digest Sha256))
        × IsDue (Some opened) file_a (Whole abc) Taken }
{}

/// A content longer than the limit is too large, whatever its octets are.
pub fn what_is_longer_than_the_limit_is_too_large()
    ensures { let opened = begun tags_of_two in
        IsDue (Some opened) file_a TooLong (Refused TooLarge)
        × ((content : List ℕ) → LARGEST_ITEM < length content
        → IsDue (Some opened) file_a (Whole content) (Refused TooLarge)) }
{}

/// If the end of a content wasn't reached, the only due answers are those that don't depend on the content.
pub fn what_was_not_read_to_its_end_is_never_taken()
    ensures { let opened = begun tags_of_two in
        IsDue (Some opened) (codes "data/../k") Unread (Refused (BadPath DotSegment))
        × IsDue (Some opened) (codes "data/z") Unread (Refused NotListed)
        × ((answer : Answer) → ¬ IsDue (Some opened) file_a Unread answer) }
{}

/// Losses, repeats and the order don't matter: two runs leave the same files, each distinct accepted one once.
pub fn what_is_held_after_two_runs_is_the_same()
    ensures { IsFirstHeld [] one_run both × IsFirstHeld [] another_run both
        × AreAccepted one_run both × AreAccepted another_run both }
{}

/// Of two contents accepted for one path, the first is held.
pub fn the_first_accepted_content_is_held()
    ensures { (path content other : List ℕ) →
        let deliveries = delivered path content Taken ∷ delivered path other Repeated ∷ [] in
        IsFirstHeld [] deliveries ((path, content) ∷ []) }
{}

/// A reader that failed leaves nothing, and the same path may be delivered again.
pub fn a_failed_reader_leaves_nothing()
    ensures { IsFirstHeld [] run_with_a_failure both × AreAccepted run_with_a_failure both }
{}

/// A delivery that was cut by a stop is held completely or not at all, and what was taken before it is kept.
pub fn a_cut_delivery_is_held_whole_or_not_at_all()
    ensures { let events = Answered (delivered file_e [] Taken) ∷ Cut file_a (Whole abc)
        ∷ Stop ∷ [] in
        StopRun tags_of_two events only_e × StopRun tags_of_two events both
        × ((held : Files) → StopRun tags_of_two events held → (held ≡ only_e) ⊎ (held ≡ both)) }
{}

/// If it is delivered again, it is held.
pub fn a_cut_delivery_that_is_given_again_is_held()
    ensures { (again : Answer) (held : Files) →
        let events = Answered (delivered file_e [] Taken) ∷ Cut file_a (Whole abc) ∷ Stop
        ∷ Answered (delivered file_e [] Repeated) ∷ Answered (delivered file_a abc again) ∷ [] in
        (again ≡ Taken) ⊎ (again ≡ Repeated) → StopRun tags_of_two events held → held ≡ both }
{}

/// If the keeper had no answer to a delivery, a stop decides whether it is held, unless something was taken after it.
pub fn a_stop_settles_what_had_no_answer()
    ensures { let doubtful = Answered (delivered file_a abc (Refused (Keeper Memory))) in
        StopRun tags_of_two (doubtful ∷ Stop ∷ []) []
        × StopRun tags_of_two (doubtful ∷ Stop ∷ []) ((file_a, abc) ∷ [])
        × ((held : Files) → StopRun tags_of_two
        (doubtful ∷ Answered (delivered file_e [] Taken) ∷ Stop ∷ []) held → held ≡ only_e) }
{}

/// A stop never leads to a content being held that isn't valid.
pub fn no_stop_lets_another_content_be_held()
    ensures { (held : Files) → StopRun tags_of_two (Cut file_a (Whole abd) ∷ Stop ∷ []) held
        → held ≡ [] }
{}

//! Laws on the definitions that the contracts of this crate cite. Each function's contract is one law, and its body is
//! empty.
ghost use Rattle.std.specs.Prelude.{◌≡◌, ◌≢◌, ◌↔◌, ◌∷◌, ◌++◌, [], ℕ, List, None, Option, Result, Some, Contains, map};
ghost use Rattle.std.specs.Map.{keys_of};
ghost use Rattle.std.specs.Str.{IsUtf8};
ghost use Rattle.bag_rules.specs.Faults.{Has};
ghost use Rattle.bag_rules.specs.Files.{Files};
ghost use Rattle.bag_rules.specs.Transfers.{AreHeldFor, Passes, with_files};
ghost use Rattle.bag_rules.specs.Trees.{AreRising};
ghost use Rattle.bag_ledger.specs.Ledgers.{Ledger, Transfer, holding, transfer_of};
ghost use Rattle.bag_ledger.specs.declared.keeper_faults.KeepFault.{KeepFault};
ghost use Rattle.bag_receiver.specs.declared.answer.Answer.{Answer};
ghost use Rattle.bag_receiver.specs.declared.answer.Answer.TheVariants.{Refused, Taken};
ghost use Rattle.bag_receiver.specs.declared.answer.DeliverFault.TheVariants.{Keeper};
ghost use Rattle.bag_receiver.specs.declared.begin.Begun.{Begun};
ghost use Rattle.bag_receiver.specs.declared.begin.BeginFault.{BeginFault};
ghost use Rattle.bag_receiver.specs.declared.transfer_name.TheConstants.{LONGEST_NAME};
ghost use Rattle.bag_receiver.specs.declared.run.TheConstants.{MOST_DELIVERIES};
ghost use Rattle.bag_receiver.specs.Beginning.{Begins, MayBeOpen};
ghost use Rattle.bag_receiver.specs.Deliveries.{Accepts, AcceptsPassing, AreAccepted, Content, Delivery, HasOneContent, IsAcceptance, IsAccepted, IsDue, IsFirstHeld, OneContent, PassesIn, Unread, Whole};
ghost use Rattle.bag_receiver.specs.TransferNames.{IsNamed};
ghost use Rattle.bag_receiver.specs.Receivers.{IsKept};
ghost use Rattle.bag_receiver.specs.LedgerStates.{Happened, LeavesOthers, LedgerState, Receives, settled};
ghost use Rattle.bag_receiver.specs.Stops.{AnswerStep, Answered, Cut, Event, OffersIn, Steps, Stop, StopRun, TransferState, transfer_state, with_file};

use bag_ledger::{Keeper, MapKeeper};

/// The limits: the octets of a transfer's name, and the deliveries of one run.
pub fn the_limits_are_these()
    ensures { (LONGEST_NAME ≡ 64) × (MOST_DELIVERIES ≡ 1000000) }
{}

/// At most one answer is due to a delivery.
pub fn one_answer_is_due_at_most()
    ensures { (transfer : Option Transfer) (text : List ℕ) (content : Content) (a b : Answer)
        → IsDue transfer text content a → IsDue transfer text content b → a ≡ b }
{}

/// A text names one transfer or none: never two, and never neither.
pub fn a_text_names_one_transfer_or_none()
    ensures one { (ledger : Ledger) (name : List ℕ) (a b : Option Transfer)
        → IsNamed ledger name a → IsNamed ledger name b → a ≡ b }
    ensures some { (ledger : Ledger) (name : List ℕ)
        → (transfer : Option Transfer) × IsNamed ledger name transfer }
{}

/// Some answer is due to what was delivered for a text, unless its end wasn't reached: it is impossible that none is
/// due.
pub fn some_answer_is_due_to_what_was_read()
    ensures { (transfer : Option Transfer) (text : List ℕ) (content : Content) → IsUtf8 text
        → content ≢ Unread
        → ¬ ((answer : Answer) → ¬ IsDue transfer text content answer) }
{}

/// If the answer that is due is `Taken` or `Repeated`, the content is valid.
pub fn what_is_due_to_be_accepted_passes()
    ensures { (transfer : Transfer) (text : List ℕ) (content : Content) (answer : Answer)
        → IsDue (Some transfer) text content answer → IsAcceptance answer
        → PassesIn transfer.tags text content }
{}

/// A content to which `Taken` is due becomes one more file of the transfer, and nothing is doubtful any more. Any other
/// due answer leaves what is held and what is doubtful unchanged.
pub fn what_is_due_is_a_step()
    ensures taken { (transfer : Transfer) (text octets : List ℕ) (doubtful : Files)
        → IsDue (Some transfer) text (Whole octets) Taken
        → let old = transfer_state transfer.items doubtful in
        let new = transfer_state (holding transfer text octets).items [] in
        AnswerStep transfer.tags text (Whole octets) Taken old new }
    ensures other { (transfer : Transfer) (text : List ℕ) (content : Content) (answer : Answer)
        → (doubtful : Files) → IsDue (Some transfer) text content answer → answer ≢ Taken
        → let same = transfer_state transfer.items doubtful in
        AnswerStep transfer.tags text content answer same same }
{}

/// What is held after one list of deliveries and then another is what is held after the joined list.
pub fn lists_of_deliveries_may_be_joined()
    ensures { (old middle new : Files) (deliveries others : List Delivery)
        → IsFirstHeld old deliveries middle → IsFirstHeld middle others new
        → IsFirstHeld old (deliveries ++ others) new }
{}

/// A list of deliveries leaves at most one set of files.
pub fn deliveries_leave_one_set_of_files_at_most()
    ensures { (old a b : Files) (deliveries : List Delivery) → IsFirstHeld old deliveries a
        → IsFirstHeld old deliveries b → a ≡ b }
{}

/// Without deliveries, what is held stays the same.
pub fn without_a_delivery_what_is_held_stays()
    ensures { (old : Files) → AreRising (keys_of old) → IsFirstHeld old [] old }
{}

/// An accepted delivery for a path that isn't held adds that one file.
pub fn an_accepted_delivery_adds_one_file()
    ensures { (old : Files) (delivery : Delivery) (path content : List ℕ)
        → AreRising (keys_of old) → IsAccepted delivery path content
        → ¬ Contains (keys_of old) path
        → IsFirstHeld old (delivery ∷ []) (with_file old path content) }
{}

/// A refused delivery changes nothing, and neither does a delivery for a path that is held.
pub fn a_refused_or_repeated_delivery_changes_nothing()
    ensures refused { (old : Files) (delivery : Delivery) → AreRising (keys_of old)
        → ¬ IsAcceptance delivery.answer → IsFirstHeld old (delivery ∷ []) old }
    ensures repeated { (old : Files) (delivery : Delivery) → AreRising (keys_of old)
        → Contains (keys_of old) delivery.text → IsFirstHeld old (delivery ∷ []) old }
{}

/// What is held is valid if everything that was accepted is.
pub fn what_is_held_passes()
    ensures { (tags old : Files) (deliveries : List Delivery) (new : Files)
        → IsFirstHeld old deliveries new → AreHeldFor tags old → AcceptsPassing tags deliveries
        → AreHeldFor tags new }
{}

/// If no two different contents offered for one path are valid, then after deliveries to a transfer that held nothing,
/// what is held is each distinct accepted delivery once.
pub fn what_is_held_is_what_was_accepted()
    ensures { (tags : Files) (deliveries : List Delivery) (held : Files)
        → OneContent tags deliveries → AcceptsPassing tags deliveries
        → IsFirstHeld [] deliveries held → AreAccepted deliveries held }
{}

/// Two lists in which the same was accepted leave the same files, whatever was lost, repeated or reordered.
pub fn lists_of_which_the_same_was_accepted_leave_the_same_files()
    ensures { (tags : Files) (deliveries others : List Delivery) (held other : Files)
        → OneContent tags (deliveries ++ others) → AcceptsPassing tags (deliveries ++ others)
        → ((path content : List ℕ)
        → Accepts deliveries path content ↔ Accepts others path content)
        → IsFirstHeld [] deliveries held → IsFirstHeld [] others other → held ≡ other }
{}

/// What happened can be split anywhere, and joined again.
pub fn what_happened_may_be_parted_and_joined()
    ensures { (tags : Files) (events others : List Event) (old new : TransferState)
        → Steps tags (events ++ others) old new
        ↔ ((middle : TransferState) × Steps tags events old middle × Steps tags others middle new) }
{}

/// What is held stays held, whatever happens.
pub fn what_is_held_stays_held()
    ensures { (tags : Files) (events : List Event) (old new : TransferState)
        → Steps tags events old new
        → (path content : List ℕ) → Has old.held (path, content) → Has new.held (path, content) }
{}

/// What is held is valid, whatever happens.
pub fn what_is_held_passes_after_stops()
    ensures { (tags : Files) (events : List Event) (old new : TransferState)
        → Steps tags events old new → AreHeldFor tags old.held → AreHeldFor tags new.held }
{}

/// What is held of a transfer was offered completely, and is valid.
pub fn what_is_held_was_offered()
    ensures offered { (tags : Files) (events : List Event) (held : Files)
        → StopRun tags events held → (path content : List ℕ) → Has held (path, content)
        → OffersIn events path content }
    ensures passes { (tags : Files) (events : List Event) (held : Files)
        → StopRun tags events held → AreHeldFor tags held }
{}

/// The path of a delivery that was answered `Taken` or `Repeated` is held, whatever happens after it.
pub fn an_accepted_delivery_has_its_path_held()
    ensures { (tags : Files) (events : List Event) (old new : TransferState) (delivery : Delivery)
        → Steps tags events old new → Has events (Answered delivery)
        → IsAcceptance delivery.answer → Contains (keys_of new.held) delivery.text }
{}

/// If no two different contents offered for one path are valid, it is held with the content of that delivery.
pub fn an_accepted_delivery_has_its_content_held()
    ensures { (tags : Files) (events : List Event) (held : Files) (delivery : Delivery)
        → (path content : List ℕ) → HasOneContent tags (OffersIn events)
        → StopRun tags events held → Has events (Answered delivery)
        → IsAccepted delivery path content → Has held (path, content) }
{}

/// Without stops, what is held is the content of the first accepted delivery for each path.
pub fn without_a_stop_the_first_accepted_content_is_held()
    ensures { (tags : Files) (deliveries : List Delivery) (old new : TransferState)
        → AreRising (keys_of old.held) → Steps tags (map Answered deliveries) old new
        → IsFirstHeld old.held deliveries new.held }
{}

/// Deliveries to a transfer continue what happened to it.
pub fn what_happened_goes_on_with_deliveries()
    ensures { (name : List ℕ) (deliveries : List Delivery) (old new : LedgerState) (tags : Files)
        → (events : List Event) → Receives name deliveries old new → Happened old name tags events
        → Happened new name tags (events ++ map Answered deliveries) }
{}

/// Deliveries to another transfer are no event of this one.
pub fn deliveries_are_no_event_of_another_transfer()
    ensures { (name other : List ℕ) (old new : LedgerState) (tags : Files) (events : List Event)
        → LeavesOthers name old new → other ≢ name → Happened old other tags events
        → Happened new other tags events }
{}

/// After a beginning that was cut by a stop, or that the keeper didn't answer, the transfer may be open, and stays so
/// through further beginnings with these tag files, through all that is done with other transfers, and through stops.
/// If a stop shows the transfer, it is opened: from then on it is as if its beginning had been answered with `New`.
pub fn a_beginning_that_a_stop_shows_is_opened()
    ensures begins { (name : List ℕ) (given : Files) (result : Result Begun BeginFault)
        (old new : LedgerState) → Begins name given result old new
        → MayBeOpen old name (with_files [] given) → MayBeOpen new name (with_files [] given) }
    ensures others { (other name : List ℕ) (old new : LedgerState) (tags : Files)
        → LeavesOthers other old new → name ≢ other → MayBeOpen old name tags
        → MayBeOpen new name tags }
    ensures stopped { (now : LedgerState) (name : List ℕ) (tags : Files) (crashed : Ledger)
        → MayBeOpen now name tags → Has (now.held ∷ now.doubtful) crashed
        → MayBeOpen (settled crashed) name tags }
    ensures opened { (now : LedgerState) (name : List ℕ) (tags : Files) (crashed : Ledger)
        → MayBeOpen now name tags → Has (now.held ∷ now.doubtful) crashed
        → transfer_of crashed name ≢ None → Happened (settled crashed) name tags [] }
{}

/// A stop leaves what was held or what was doubtful, and is one more event of each transfer.
pub fn a_stop_is_an_event_of_each_transfer()
    ensures { (now : LedgerState) (name : List ℕ) (tags : Files) (events : List Event)
        → (crashed : Ledger) → Happened now name tags events → Has (now.held ∷ now.doubtful) crashed
        → Happened (settled crashed) name tags (events ++ Stop ∷ []) }
{}

/// A delivery that the keeper didn't answer, and that no one was told of because the program stopped during it, is one
/// that the stop cut.
pub fn a_delivery_without_an_answer_is_cut_by_a_stop()
    ensures { (now : LedgerState) (name : List ℕ) (tags : Files) (events : List Event)
        → (delivery : Delivery) (fault : KeepFault) → delivery.answer ≡ Refused (Keeper fault)
        → Happened now name tags (events ++ Answered delivery ∷ [])
        → Happened now name tags (events ++ Cut delivery.text delivery.content ∷ []) }
{}

/// A new keeper in memory holds no transfer, and a crash leaves it so: a receiver with it begins with nothing.
pub fn a_new_keeper_in_memory_holds_nothing()
    ensures { (keeper : Ledger) → keeper ≡ []
        → IsKept ⟦<MapKeeper as Keeper>⟧.holds ⟦<MapKeeper as Keeper>⟧.may_leave keeper
        (settled []) }
{}

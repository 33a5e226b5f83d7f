//! Laws on transfers that are opened with the tag files of a written bag. Each function's contract is one law, and its
//! body is empty.
ghost use Rattle.std.specs.Prelude.{◌≡◌, [], ℕ, List, map};
ghost use Rattle.bag_rules.specs.Bags.{Bag};
ghost use Rattle.bag_rules.specs.Files.{Files};
ghost use Rattle.bag_rules.specs.Transfers.{held_bag};
ghost use Rattle.bag_rules.specs.Validity.{IsValid};
ghost use Rattle.bag_rules.specs.declared.report.Report.{Report};
ghost use Rattle.bag_writer.specs.FilledBags.{IsFilled, IsPayloadFor};
ghost use Rattle.bag_writer.specs.WrittenBags.{IsWritten, tag_files};
ghost use Rattle.bag_writer.specs.declared.spec.Spec.{Spec};
ghost use Rattle.bag_receiver.specs.Arrivals.{AreDelivered, AreDeliveredIn, AreWithin};
ghost use Rattle.bag_receiver.specs.Deliveries.{Delivery, HasOneContent, OneContent};
ghost use Rattle.bag_receiver.specs.LedgerStates.{Happened, IsHeldIn, LedgerState};
ghost use Rattle.bag_receiver.specs.Reports.{IsReportOf};
ghost use Rattle.bag_receiver.specs.Stops.{Answered, Event, OffersIn};

/// After deliveries in any order and with repeats in which each file of the payload was offered and some content was
/// accepted for each path, the transfer holds the payload, provided that no two different contents offered for one path
/// are valid.
pub fn a_written_bag_arrives()
    ensures { (spec : Spec) (payload : Files) (deliveries : List Delivery) (now : LedgerState)
        (name : List ℕ) → IsPayloadFor spec payload → AreWithin payload
        → Happened now name (tag_files spec payload) (map Answered deliveries)
        → OneContent (tag_files spec payload) deliveries → AreDelivered payload deliveries
        → IsHeldIn now name (tag_files spec payload) payload }
{}

/// The same holds if there were stops in between.
pub fn a_written_bag_arrives_whatever_stops()
    ensures { (spec : Spec) (payload : Files) (events : List Event) (now : LedgerState)
        (name : List ℕ) → IsPayloadFor spec payload → AreWithin payload
        → Happened now name (tag_files spec payload) events
        → HasOneContent (tag_files spec payload) (OffersIn events)
        → AreDeliveredIn payload events → IsHeldIn now name (tag_files spec payload) payload }
{}

/// The bag that is held then is the written bag with its holes filled, and it is valid.
pub fn a_bag_that_arrived_is_the_written_bag_filled()
    ensures filled { (spec : Spec) (payload : Files) → IsPayloadFor spec payload
        → AreWithin payload
        → IsFilled spec payload (held_bag (tag_files spec payload) payload) }
    ensures valid { (spec : Spec) (payload : Files) → IsPayloadFor spec payload
        → AreWithin payload → IsValid (held_bag (tag_files spec payload) payload) }
    ensures same { (spec : Spec) (payload : Files) (bag : Bag) → IsPayloadFor spec payload
        → AreWithin payload → spec.holes.items ≡ [] → IsWritten spec payload bag
        → held_bag (tag_files spec payload) payload ≡ bag }
{}

/// Its report has no faults.
pub fn a_bag_that_arrived_is_reported_valid()
    ensures { (spec : Spec) (payload : Files) (report : Report) → IsPayloadFor spec payload
        → AreWithin payload → IsReportOf (tag_files spec payload) payload report → report ≡ [] }
{}

//! Laws about the definitions that the contracts of this crate cite. The contract of each function states one law. Its
//! body is empty, but where a law stands on what the Rust types guarantee: there the values are gone through.
ghost use Rattle.std.specs.Prelude.{◌≡◌, ◌*◌, ◌≤◌, [], ℕ, List, length, not};
ghost use Rattle.std.specs.List.{filter, AllByRecursion};
ghost use Rattle.std.specs.Map.{keys_of};
ghost use Rattle.bag_digest.specs.declared.algorithm.Alg.{Alg};
ghost use Rattle.bag_path.specs.Paths.{is_payload, IsPath};
ghost use Rattle.bag_rules.specs.Bags.{Bag};
ghost use Rattle.bag_rules.specs.Faults.{Has};
ghost use Rattle.bag_rules.specs.Files.{AreTagFiles, Files};
ghost use Rattle.bag_rules.specs.Limits.{Stops};
ghost use Rattle.bag_rules.specs.Opening.{Opens};
ghost use Rattle.bag_rules.specs.Transfers.{AreExpected, Passes};
ghost use Rattle.bag_rules.specs.Validity.{IsValid};
ghost use Rattle.bag_rules.specs.declared.limits.TheConstants.{LARGEST_ITEM};
ghost use Rattle.bag_rules.specs.declared.outcome.CheckFault.{CheckFault};
ghost use Rattle.bag_tags.specs.declared.listing.Kind.TheVariants.{Payload};
ghost use Rattle.bag_writer.specs.FilledBags.{IsFilled, IsPayloadFor};
ghost use Rattle.bag_writer.specs.WrittenBags.{IsWritten, manifest_of, tag_files};
ghost use Rattle.bag_writer.specs.Writing.{empty_files, IsAccepted, IsReadFrom, IsTooLarge, payload_paths};
ghost use Rattle.bag_writer.specs.declared.payload_beside.TheConstants.{MOST_COPIED};
ghost use Rattle.bag_digest.specs.declared.buffers.TheConstants.{FRONT};
ghost use Rattle.bag_writer.specs.declared.items.TheConstants.{MOST_HELD};
ghost use Rattle.bag_writer.specs.declared.spec.Spec.{Spec};
ghost use Rattle.bag_rules.specs.Trees.{AreRising, paths_in};
ghost use Rattle.bag_tags.specs.Infos.{IsElement};

use crate::spec::Spec;
use bag_rules::Paths;
use bag_tags::Info;

/// The payload files that are held until their digests are taken have at most 4 MiB, however many there are; and so
/// have the pieces of those that are copied side by side, of which at most 32 are open.
pub fn a_new_bag_holds_at_most_twice_4_mebibytes()
    ensures held { MOST_HELD * FRONT ≤ 4 * 1048576 }
    ensures pieces { MOST_COPIED * FRONT ≤ 4 * 1048576 }
    ensures files { MOST_COPIED ≤ 32 }
{}

/// A written bag whose holes are filled is valid.
pub fn a_written_bag_with_its_holes_filled_is_valid()
    ensures { (spec : Spec) (payload : Files) (bag : Bag) → IsPayloadFor spec payload
        → IsFilled spec payload bag → IsValid bag }
{}

/// A written bag without holes is valid.
pub fn a_written_bag_without_holes_is_valid()
    ensures { (spec : Spec) (payload : Files) (bag : Bag) → IsPayloadFor spec payload
        → spec.holes.items ≡ [] → IsWritten spec payload bag → IsValid bag }
{}

/// No limit stops a check of such a bag.
pub fn no_limit_stops_a_check_of_a_written_bag()
    ensures { (spec : Spec) (payload : Files) (bag : Bag) (fault : CheckFault)
        → IsPayloadFor spec payload → IsFilled spec payload bag → ¬ Stops bag fault }
{}

/// The length of a payload manifest doesn't depend on what the files contain. So it is known before anything is
/// written.
pub fn a_manifest_is_as_long_as_with_empty_files()
    ensures { (alg : Alg) (payload : Files) → length (manifest_of Payload payload alg).1
        ≡ length (manifest_of Payload (empty_files (keys_of payload)) alg).1 }
{}

/// The tag files of a written bag are its files that aren't payload.
pub fn the_tag_files_of_a_written_bag_are_its_other_files()
    ensures { (spec : Spec) (payload : Files) (bag : Bag) → IsPayloadFor spec payload
        → IsWritten spec payload bag
        → filter (λ (file : List ℕ × List ℕ). not (is_payload file.0)) bag.files
        ≡ tag_files spec payload }
{}

/// A transfer can be opened with these tag files. It expects the files of the payload, and each of them that is within
/// the limit passes.
pub fn the_tag_files_of_a_written_bag_open()
    ensures files { (spec : Spec) (payload : Files) → IsPayloadFor spec payload
        → AreTagFiles (tag_files spec payload) }
    ensures opens { (spec : Spec) (payload : Files) → IsPayloadFor spec payload
        → Opens (tag_files spec payload) }
    ensures expected { (spec : Spec) (payload : Files) → IsPayloadFor spec payload
        → AreExpected (tag_files spec payload) (keys_of payload) }
    ensures passes { (spec : Spec) (payload : Files) (path content : List ℕ)
        → IsPayloadFor spec payload → Has payload (path, content)
        → length content ≤ LARGEST_ITEM → Passes (tag_files spec payload) path content }
{}

/// If a payload was read from a tree, is accepted and isn't too large, a bag can be written of it.
/// [`write_bag`](crate::write_bag) ensures these conditions, and the laws about written bags require no more. This
/// function goes over the paths and the elements, and reads no file.
pub fn what_is_read_of_a_tree_fits<P: Paths>(tree: &P, spec: &Spec)
    ensures { (payload : Files) → IsReadFrom (P.shown tree.now) payload
        → IsAccepted (payload_paths (P.shown tree.now)) spec.now
        → ¬ IsTooLarge spec.now payload → IsPayloadFor spec.now payload }
{
    paths_are_paths(tree);
    elements_are_elements(&spec.info);
}

fn paths_are_paths<P: Paths>(tree: &P)
    ensures rising { AreRising (paths_in (P.shown tree.now)) }
    ensures paths { AllByRecursion IsPath (paths_in (P.shown tree.now)) }
{
    for i in 0..tree.count() {
        let _path = tree.path(i).as_str();
    }
}

fn elements_are_elements(info: &Info)
    ensures { AllByRecursion IsElement info.now }
{
    for element in info.elements() {
        let _label = element.label();
    }
}

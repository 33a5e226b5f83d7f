//! Worked examples of the definitions. The contract of each function states one, and its body is empty.
ghost use Rattle.std.specs.Prelude.{◌≡◌, ◌++◌, ◌∷◌, [], codes};
ghost use Rattle.bag_path.specs.Octets.{lf};
ghost use Rattle.bag_writer.specs.ExampleBags.{IsPlainExample, IsWithHole, lengths_of, payload_of_two};
ghost use Rattle.bag_writer.specs.FilledBags.{IsPayloadFor};
ghost use Rattle.bag_writer.specs.WrittenBags.{fetch_files, info_file, tag_files};
ghost use Rattle.bag_writer.specs.declared.spec.Spec.{Spec};

/// The tag files of a payload of two files, one of which is a hole: their names in order, and their lengths (RFC 8493
/// sections 2.1 and 2.2).
pub fn a_bag_with_a_hole_has_these_tag_files()
    ensures names { (spec : Spec) → IsWithHole spec
        → lengths_of (tag_files spec payload_of_two)
        ≡ (codes "bag-info.txt", 44) ∷ (codes "bagit.txt", 54) ∷ (codes "fetch.txt", 34)
        ∷ (codes "manifest-md5.txt", 90) ∷ (codes "manifest-sha512.txt", 282)
        ∷ (codes "tagmanifest-md5.txt", 240) ∷ (codes "tagmanifest-sha512.txt", 720) ∷ [] }
    ensures info { (spec : Spec) → IsWithHole spec → (info_file spec payload_of_two).1
        ≡ codes "Source-Organization: Test" ++ lf ∷ codes "Payload-Oxum: 3.2" ++ lf ∷ [] }
    ensures fetch { (spec : Spec) → IsWithHole spec
        → fetch_files payload_of_two spec.holes.items
        ≡ (codes "fetch.txt", codes "http://example.org/e 0 data/e.txt" ++ lf ∷ []) ∷ [] }
{}

/// Without payload files the Oxum says no octets in no files, and the manifest lists nothing.
pub fn an_empty_bag_has_these_tag_files()
    ensures { (spec : Spec) → IsPlainExample spec
        → lengths_of (tag_files spec [])
        ≡ (codes "bag-info.txt", 18) ∷ (codes "bagit.txt", 54) ∷ (codes "manifest-sha256.txt", 0)
        ∷ (codes "tagmanifest-sha256.txt", 241) ∷ [] }
{}

/// Bags can be written of these payloads.
pub fn such_bags_are_written()
    ensures hole { (spec : Spec) → IsWithHole spec → IsPayloadFor spec payload_of_two }
    ensures plain { (spec : Spec) → IsPlainExample spec → IsPayloadFor spec [] }
{}

//! Worked examples of the definitions. The contract of each function states one, and its body is empty.
ghost use Rattle.std.specs.Prelude.{◌≡◌, true, false, [], ◌∷◌, ◌++◌, codes};
ghost use Rattle.bag_path.specs.Octets.{cr, lf};
ghost use Rattle.bag_path.specs.declared.version.Version.TheVariants.{V1, V097};
ghost use Rattle.bag_digest.specs.declared.algorithm.Alg.{Alg};
ghost use Rattle.bag_digest.specs.declared.algorithm.Alg.TheVariants.{Md5, Sha256};
ghost use Rattle.bag_tags.specs.declared.listing.Kind.TheVariants.{Payload};
ghost use Rattle.bag_tags.specs.Declarations.{written_declaration};
ghost use Rattle.bag_rules.specs.declared.fault.Fault.TheVariants.{FetchNotListed, NoDeclaration, NoPayloadDir, Missing, Unlisted, WrongDigest};
ghost use Rattle.bag_rules.specs.declared.scope.OutsideCause.TheVariants as outside;
ghost use Rattle.bag_rules.specs.Bags.{Bag, IsDeclared, version_of};
ghost use Rattle.bag_rules.specs.declared.want.WantFault.TheVariants as wanted;
ghost use Rattle.bag_rules.specs.ExampleBags.{bag_of_0_97, file_a, file_e, manifest_of_abc, tags_of_two, tags_with_fetch};
ghost use Rattle.bag_rules.specs.HasFault.{HasFault};
ghost use Rattle.bag_rules.specs.Listed.{IsListed, IsUnlisted};
ghost use Rattle.bag_tags.specs.Names.{manifest_name};
ghost use Rattle.bag_rules.specs.Transfers.{IsExpected, IsMisfit, Passes};
ghost use Rattle.bag_rules.specs.Validity.{IsComplete, IsValid};
ghost use Rattle.bag_rules.specs.Verdicts.{IsJudged, IsOutside};

/// The smallest bag: a declaration, a payload manifest that lists nothing, and an empty payload directory (RFC 8493
/// section 2.1).
pub fn the_least_bag_is_valid()
    ensures { let declaration = codes "BagIt-Version: 1.0" ++ lf
        ∷ codes "Tag-File-Character-Encoding: UTF-8" ++ lf ∷ [] in
        let bag : Bag = record {
          files = (codes "bagit.txt", declaration)
              ∷ (codes "manifest-sha256.txt", []) ∷ [];
          has_payload_dir = true;
        } in
        IsValid bag × IsJudged bag [] }
{}

/// The same files without the payload directory have this one fault (RFC 8493 section 2.1.2).
pub fn the_least_bag_needs_its_payload_directory()
    ensures { let declaration = codes "BagIt-Version: 1.0" ++ lf
        ∷ codes "Tag-File-Character-Encoding: UTF-8" ++ lf ∷ [] in
        let bag : Bag = record {
          files = (codes "bagit.txt", declaration)
              ∷ (codes "manifest-sha256.txt", []) ∷ [];
          has_payload_dir = false;
        } in
        IsJudged bag (NoPayloadDir ∷ []) }
{}

/// A bag is valid if its manifest lists its payload file with its SHA-256 (RFC 8493 section 3).
pub fn a_bag_with_one_payload_file_is_valid()
    ensures { let manifest = manifest_of_abc in
        let bag : Bag = record {
          files = (codes "bagit.txt", written_declaration)
              ∷ (codes "data/a.txt", codes "abc") ∷ (codes "manifest-sha256.txt", manifest)
              ∷ [];
          has_payload_dir = true;
        } in
        IsValid bag × IsJudged bag [] }
{}

/// If one octet of the payload is changed, the bag is complete but not valid (RFC 8493 section 3).
pub fn a_changed_payload_file_has_a_wrong_digest()
    ensures { let manifest = manifest_of_abc in
        let bag : Bag = record {
          files = (codes "bagit.txt", written_declaration)
              ∷ (codes "data/a.txt", codes "abd") ∷ (codes "manifest-sha256.txt", manifest)
              ∷ [];
          has_payload_dir = true;
        } in
        IsComplete bag × (¬ IsValid bag) × IsJudged bag
        (WrongDigest (manifest_name Payload Sha256) (codes "data/a.txt") ∷ []) }
{}

/// A payload file that the manifest doesn't list makes the bag incomplete (RFC 8493 section 3).
pub fn a_payload_file_that_is_not_listed_is_a_fault()
    ensures { let bag : Bag = record {
      files = (codes "bagit.txt", written_declaration)
          ∷ (codes "data/a.txt", codes "abc") ∷ (codes "manifest-sha256.txt", [])
          ∷ [];
      has_payload_dir = true;
    } in
        (¬ IsComplete bag) × IsJudged bag (Unlisted Sha256 (codes "data/a.txt") ∷ []) }
{}

/// A listed file that isn't there makes the bag incomplete too (RFC 8493 section 3).
pub fn a_listed_file_that_is_not_there_is_a_fault()
    ensures { let manifest = manifest_of_abc in
        let bag : Bag = record {
          files = (codes "bagit.txt", written_declaration)
              ∷ (codes "manifest-sha256.txt", manifest) ∷ [];
          has_payload_dir = true;
        } in
        (¬ IsComplete bag) × IsJudged bag
        (Missing (manifest_name Payload Sha256) (codes "data/a.txt") ∷ []) }
{}

/// For a bag with no files and no payload directory only the fault of the declaration is reported.
pub fn no_files_have_no_declaration()
    ensures { let bag : Bag = record { files = []; has_payload_dir = false } in
        IsJudged bag (NoDeclaration ∷ []) }
{}

/// A bag of another version isn't judged, whatever else is wrong with it.
pub fn an_earlier_version_is_outside()
    ensures { let declaration = codes "BagIt-Version: 0.96" ++ cr ∷ lf
        ∷ codes "Tag-File-Character-Encoding: ISO-8859-1" in
        let bag : Bag = record {
          files = (codes "bagit.txt", declaration)
              ∷ [];
          has_payload_dir = false;
        } in
        IsOutside bag outside.Version }
{}

/// A bag that declares version 0.97 is read by that version, in which its payload file has to be listed in some payload
/// manifest. Of these two manifests the second lists it. By the rules of version 1.0 the first one would be reported.
pub fn in_version_0_97_some_manifest_lists_a_payload_file()
    ensures { let bag = bag_of_0_97 manifest_of_abc in
        let path = codes "data/a.txt" in
        IsDeclared bag × (version_of bag ≡ V097) × IsListed V097 bag path
        × IsUnlisted V1 bag Md5 path × ((alg : Alg) → ¬ HasFault bag (Unlisted alg path)) }
{}

/// If no payload manifest lists the file, the first manifest is reported and no other. The same is true of a path in
/// `fetch.txt`.
pub fn in_version_0_97_the_first_manifest_is_told_of_an_unlisted_file()
    ensures { let bag = bag_of_0_97 [] in
        let unlisted = Unlisted Md5 (codes "data/a.txt") in
        let not_fetched = FetchNotListed Md5 (codes "data/z") in
        HasFault bag unlisted × HasFault bag not_fetched × ((alg : Alg)
        → (HasFault bag (Unlisted alg (codes "data/a.txt")) → alg ≡ Md5)
        × (HasFault bag (FetchNotListed alg (codes "data/z")) → alg ≡ Md5)) }
{}

/// Content with the digest that the manifest of a transfer lists passes, whether or not a length is given.
pub fn what_is_listed_passes()
    ensures { Passes tags_of_two file_a (codes "abc") × Passes tags_of_two file_e []
        × Passes tags_with_fetch file_a (codes "abc") × Passes tags_with_fetch file_e [] }
{}

/// If the length differs from that in `fetch.txt`, this is reported before a digest that differs. A file that isn't
/// listed isn't expected.
pub fn what_is_not_listed_does_not_pass()
    ensures { IsMisfit tags_with_fetch file_a (codes "abcd") wanted.Length
        × IsMisfit tags_with_fetch file_a (codes "abd") (wanted.Digest Sha256)
        × IsMisfit tags_of_two file_a (codes "abd") (wanted.Digest Sha256)
        × ¬ IsExpected tags_of_two (codes "data/z") }
{}

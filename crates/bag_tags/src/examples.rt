//! Worked examples of the definitions. The contract of each function states one, and its body is empty.
ghost use Rattle.std.specs.Prelude.{◌≡◌, ℕ, true, false, [], ◌∷◌, ◌++◌, Some, None, codes};
ghost use Rattle.bag_digest.specs.declared.algorithm.Alg.TheVariants.{Md5, Sha256};
ghost use Rattle.bag_digest.specs.declared.digest.Digest.TheVariants as digest;
ghost use Rattle.bag_path.specs.declared.path.PathFault.TheVariants as path;
ghost use Rattle.bag_path.specs.declared.version.Version.TheVariants.{V1, V097};
ghost use Rattle.bag_tags.specs.declared.declaration.DeclFault.TheVariants as declaration;
ghost use Rattle.bag_tags.specs.declared.tag_fault.LineCause.TheVariants as cause;
ghost use Rattle.bag_tags.specs.declared.listing.Kind.TheVariants.{Payload, Tag};
ghost use Rattle.bag_tags.specs.declared.name.TagName.TheVariants as name;
ghost use Rattle.bag_tags.specs.Declarations.{IsDeclaration, IsDeclarationFault, current, version_of};
ghost use Rattle.bag_tags.specs.FetchEntries.{fetch_item};
ghost use Rattle.bag_tags.specs.Fetches.{fetch_line};
ghost use Rattle.bag_tags.specs.FetchText.{FetchText, FetchFault};
ghost use Rattle.bag_tags.specs.Infos.{element};
ghost use Rattle.bag_tags.specs.InfoText.{InfoText, InfoFault};
ghost use Rattle.bag_tags.specs.Listings.{pair};
ghost use Rattle.bag_tags.specs.Manifests.{ManifestText, ManifestFault};
ghost use Rattle.bag_tags.specs.Names.{Names};
ghost use Rattle.bag_tags.specs.Oxums.{OxumText};
ghost use Rattle.bag_tags.specs.TagLines.{mark};

/// Manifests are named by their algorithm, which is known or not (RFC 8493 sections 2.1.3, 2.2.1 and 2.4).
pub fn manifests_are_named_by_their_algorithm()
    ensures { Names (codes "manifest-sha256.txt") (name.PayloadManifest Sha256)
        × Names (codes "tagmanifest-md5.txt") (name.TagManifest Md5)
        × Names (codes "manifest-sha224.txt") name.UnknownManifest
        × Names (codes "manifest-SHA256.txt") name.UnknownManifest }
{}

/// The name of a manifest without an algorithm has no meaning. Neither has the name of a tag file below another
/// directory.
pub fn like_names_name_nothing()
    ensures { Names (codes "manifest-.txt") name.Other × Names (codes "x/bagit.txt") name.Other }
{}

/// Version 1.0 and UTF-8 are declared (RFC 8493 section 2.1.1).
pub fn the_current_version_is_declared()
    ensures { IsDeclaration (codes "BagIt-Version: 1.0" ++ 10
        ∷ codes "Tag-File-Character-Encoding: UTF-8" ++ 10 ∷ []) current }
{}

/// An earlier version and another encoding are declared, with other line ends (RFC 8493 section 2.1.1).
pub fn an_earlier_version_is_declared()
    ensures { IsDeclaration (codes "BagIt-Version: 0.97" ++ 13 ∷ 10
        ∷ codes "Tag-File-Character-Encoding: ISO-8859-1")
        (record { major = 0; minor = 97; utf8 = false }) }
{}

/// A byte order mark is a fault (RFC 8493 section 2.1.1).
pub fn a_marked_declaration_is_faulty()
    ensures { IsDeclarationFault (mark ++ codes "BagIt-Version: 1.0" ++ 10
        ∷ codes "Tag-File-Character-Encoding: UTF-8" ++ 10 ∷ [])
        declaration.Mark }
{}

/// One line is too few (RFC 8493 section 2.1.1).
pub fn a_declaration_of_one_line_is_faulty()
    ensures { IsDeclarationFault (codes "BagIt-Version: 1.0" ++ 10 ∷ []) declaration.LineCount }
{}

/// Version 0.97 is known, and version 0.96 isn't.
pub fn version_0_97_is_known()
    ensures { IsDeclaration (codes "BagIt-Version: 0.97" ++ 10
        ∷ codes "Tag-File-Character-Encoding: UTF-8" ++ 10 ∷ [])
        (record { major = 0; minor = 97; utf8 = true })
        × (version_of (record { major = 0; minor = 97; utf8 = true }) ≡ Some V097)
        × (version_of (record { major = 0; minor = 96; utf8 = true }) ≡ None) }
{}

/// A label needs its space.
pub fn a_declaration_with_other_labels_is_faulty()
    ensures { IsDeclarationFault (codes "BagIt-Version:1.0" ++ 10
        ∷ codes "Tag-File-Character-Encoding: UTF-8" ++ 10 ∷ []) declaration.Label }
{}

/// The numbers of a version have no leading zeros.
pub fn a_version_with_a_leading_zero_is_faulty()
    ensures { IsDeclarationFault (codes "BagIt-Version: 01.0" ++ 10
        ∷ codes "Tag-File-Character-Encoding: UTF-8" ++ 10 ∷ []) declaration.Version }
{}

/// An oxum is two numbers below 2^64, joined by a dot (RFC 8493 section 2.2.2). Blanks at both ends and leading zeros
/// are dropped.
pub fn oxums_are_two_numbers_and_a_dot()
    ensures { OxumText (codes " 3.2" ++ 9 ∷ []) 3 2
        × OxumText (codes "007.02") 7 2
        × OxumText (codes "18446744073709551615.0") 18446744073709551615 0 }
{}

/// A text isn't an oxum if a number is missing, has a sign, contains a blank or isn't below 2^64.
pub fn other_texts_are_no_oxums()
    ensures { ((octets streams : ℕ) → ¬ OxumText (codes "3.") octets streams)
        × ((octets streams : ℕ) → ¬ OxumText (codes "+3.2") octets streams)
        × ((octets streams : ℕ) → ¬ OxumText (codes "3 .2") octets streams)
        × ((octets streams : ℕ) → ¬ OxumText (codes "18446744073709551616.0") octets streams) }
{}

/// A line is hex digits in either case, blanks and a path, with any line end (RFC 8493 section 2.1.3). One `*` and one
/// `./` before the path are dropped.
pub fn a_manifest_lists_a_path_with_its_digest()
    ensures { ManifestText V1 Sha256 Payload
        (codes "BA7816BF8F01CFEA414140DE5DAE2223B00361A396177A9CB410FF61F20015AD" ++ 9
        ∷ codes "*./data/a.txt" ++ 13 ∷ 10 ∷ [])
        (pair (codes "data/a.txt") (digest.Sha256 (
        0xBA ∷ 0x78 ∷ 0x16 ∷ 0xBF ∷ 0x8F ∷ 0x01 ∷ 0xCF ∷ 0xEA ∷ 0x41 ∷ 0x41 ∷ 0x40 ∷ 0xDE ∷ 0x5D
        ∷ 0xAE ∷ 0x22 ∷ 0x23
        ∷ 0xB0 ∷ 0x03 ∷ 0x61 ∷ 0xA3 ∷ 0x96 ∷ 0x17 ∷ 0x7A ∷ 0x9C ∷ 0xB4 ∷ 0x10 ∷ 0xFF ∷ 0x61 ∷ 0xF2
        ∷ 0x00 ∷ 0x15 ∷ 0xAD ∷ [])) ∷ []) }
{}

/// A manifest may list nothing. Blank lines are skipped.
pub fn a_manifest_may_list_nothing()
    ensures { ManifestText V1 Sha256 Payload [] []
        × ManifestText V1 Md5 Tag (10 ∷ 32 ∷ 9 ∷ 13 ∷ 10 ∷ []) [] }
{}

/// A path is listed at most once (RFC 8493 section 2.1.3).
pub fn a_path_that_is_listed_twice_is_a_fault()
    ensures { ManifestFault V1 Md5 Payload
        (codes "900150983cd24fb0d6963f7d28e17f72  data/a" ++ 10
        ∷ codes "900150983cd24fb0d6963f7d28e17f72  data/b" ++ 10
        ∷ codes "900150983cd24fb0d6963f7d28e17f72  ./data/a" ++ 10 ∷ [])
        (record { line = 3; cause = cause.Twice }) }
{}

/// A payload manifest lists only payload files (RFC 8493 section 2.1.3), and a tag manifest lists no tag manifests
/// (section 2.2.1).
pub fn a_path_of_the_other_kind_is_a_fault()
    ensures { ManifestFault V1 Md5 Payload (codes "900150983cd24fb0d6963f7d28e17f72  k")
        (record { line = 1; cause = cause.WrongPlace })
        × ManifestFault V1 Md5 Tag (codes "900150983cd24fb0d6963f7d28e17f72  data/k")
        (record { line = 1; cause = cause.WrongPlace })
        × ManifestFault V1 Md5 Tag (codes "900150983cd24fb0d6963f7d28e17f72  tagmanifest-md5.txt")
        (record { line = 1; cause = cause.WrongPlace }) }
{}

/// A line needs a blank, a digest of the algorithm's length and a path without faults.
pub fn other_lines_of_a_manifest_are_faults()
    ensures { ManifestFault V1 Md5 Payload (codes "900150983cd24fb0d6963f7d28e17f72")
        (record { line = 1; cause = cause.NoSeparator })
        × ManifestFault V1 Sha256 Payload (codes "900150983cd24fb0d6963f7d28e17f72 data/k")
        (record { line = 1; cause = cause.BadDigest })
        × ManifestFault V1 Md5 Payload (codes "900150983cd24fb0d6963f7d28e17f72 data/../k")
        (record { line = 1; cause = cause.BadPath path.DotSegment })
        × ManifestFault V1 Md5 Payload (codes "900150983cd24fb0d6963f7d28e17f72 data/%41")
        (record { line = 1; cause = cause.BadPath path.BadEscape }) }
{}

/// A label may be repeated. A value may be empty, or continue on indented lines (RFC 8493 section 2.2.2).
pub fn a_bag_info_says_its_elements()
    ensures { InfoText V1 (codes "Note: one" ++ 10 ∷ codes "Note: two" ++ 10 ∷ 9 ∷ codes " three"
        ++ 10 ∷ codes "Empty:" ++ 10 ∷ [])
        (element (codes "Note") (codes "one") ∷ element (codes "Note")
        (codes "two" ++ 10 ∷ codes "three") ∷ element (codes "Empty") [] ∷ []) }
{}

/// An indented first line has nothing to continue, a line needs a colon and a blank, and a label doesn't end in a blank
/// (RFC 8493 section 2.2.2).
pub fn other_lines_of_a_bag_info_are_faults()
    ensures { InfoFault V1 (codes " x") (record { line = 1; cause = cause.NothingToContinue })
        × InfoFault V1 (codes "a b") (record { line = 1; cause = cause.NoSeparator })
        × InfoFault V1 (codes "a:b") (record { line = 1; cause = cause.NoSeparator })
        × InfoFault V1 (codes "L : v") (record { line = 1; cause = cause.BadLabel }) }
{}

/// In version 0.97 there may be blanks on both sides of the colon. They are dropped.
pub fn a_bag_info_of_version_0_97_says_its_elements()
    ensures { InfoText V097 (codes "L : v" ++ 10 ∷ codes "L:v" ++ 10 ∷ codes "L:" ++ 32 ∷ 9 ∷ 32
        ∷ codes "v" ++ 10 ∷ [])
        (element (codes "L") (codes "v") ∷ element (codes "L") (codes "v")
        ∷ element (codes "L") (codes "v") ∷ []) }
{}

/// In version 0.97 a line needs a colon and a label before it.
pub fn other_lines_of_a_bag_info_of_version_0_97_are_faults()
    ensures { InfoFault V097 (codes "a b") (record { line = 1; cause = cause.NoSeparator })
        × InfoFault V097 (codes ":v") (record { line = 1; cause = cause.BadLabel })
        × InfoFault V097 (codes ": v") (record { line = 1; cause = cause.BadLabel }) }
{}

/// A length is a number of octets, or `-` if none is given (RFC 8493 section 2.2.3).
pub fn a_fetch_list_lists_its_entries()
    ensures { FetchText V1 (codes "http:x - data/a" ++ 10 ∷ codes "https://example.org/b" ++ 9
        ∷ codes "05" ++ 9 ∷ codes "data/b c" ++ 10 ∷ [])
        (fetch_line 1 (fetch_item (codes "http:x") None (codes "data/a"))
        ∷ fetch_line 2 (fetch_item (codes "https://example.org/b") (Some 5) (codes "data/b c"))
        ∷ []) }
{}

/// An entry needs a URL, a length and the path of a payload file (RFC 8493 section 2.2.3).
pub fn other_lines_of_a_fetch_list_are_faults()
    ensures { FetchFault V1 (codes "1http:x - data/a") (record { line = 1; cause = cause.BadUrl })
        × FetchFault V1 (codes "http:x -1 data/a") (record { line = 1; cause = cause.BadLength })
        × FetchFault V1 (codes "http:x 5 a") (record { line = 1; cause = cause.WrongPlace })
        × FetchFault V1 (codes "http:x data/a") (record { line = 1; cause = cause.NoSeparator }) }
{}

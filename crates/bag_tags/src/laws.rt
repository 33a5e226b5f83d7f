//! Laws about the definitions that the contracts of this crate cite. The contract of each function states one law, and
//! its body is empty.
ghost use Rattle.std.specs.Prelude.{◌≡◌, ◌⊎◌, ℕ, List};
ghost use Rattle.std.specs.List.{AllByRecursion};
ghost use Rattle.std.specs.Ordering.{nat_cmp};
ghost use Rattle.std.specs.Cmp.Lexicographic.{slice_cmp};
ghost use Rattle.bag_digest.specs.declared.algorithm.Alg.{Alg};
ghost use Rattle.bag_path.specs.declared.version.Version.{Version};
ghost use Rattle.bag_path.specs.declared.version.Version.TheVariants.{V1};
ghost use Rattle.bag_tags.specs.declared.tag_fault.LineFault.{LineFault};
ghost use Rattle.bag_tags.specs.declared.listing.Kind.{Kind};
ghost use Rattle.bag_tags.specs.declared.listing.Pair.{Pair};
ghost use Rattle.bag_tags.specs.declared.name.LineFile.{LineFile};
ghost use Rattle.bag_tags.specs.declared.name.ManifestName.{ManifestName};
ghost use Rattle.bag_tags.specs.contracts.name.LineFileOrd.TheImpl as files;
ghost use Rattle.bag_tags.specs.contracts.name.ManifestNameOrd.TheImpl as manifests;
ghost use Rattle.bag_tags.specs.declared.fetch.FetchLine.{FetchLine};
ghost use Rattle.bag_tags.specs.Fetches.{CanBeFetched, numbered_from, written_fetch};
ghost use Rattle.bag_tags.specs.FetchText.{FetchText, FetchFault};
ghost use Rattle.bag_tags.specs.Infos.{IsElement, MetadataElement, written_info};
ghost use Rattle.bag_tags.specs.InfoText.{InfoText, InfoFault};
ghost use Rattle.bag_tags.specs.Listings.{NoneTwice};
ghost use Rattle.bag_tags.specs.Manifests.{ManifestText, ManifestFault};
ghost use Rattle.bag_tags.specs.ManifestView.{FitEach};
ghost use Rattle.bag_tags.specs.ManifestWriting.{CanBeWritten, written_manifest};
ghost use Rattle.bag_tags.specs.Names.{file_of, text_file};
ghost use Rattle.bag_tags.specs.Oxums.{OxumText};

pub use crate::declaration::{
    a_declaration_begins_with_its_version, a_declaration_has_no_fault,
    octets_declare_one_thing_at_most, octets_have_one_declaration_fault_at_most,
};
pub use crate::name::{a_path_has_one_unknown_algorithm_at_most, a_path_names_one_thing_at_most};

/// Manifests are ordered by their file names.
pub fn manifests_stand_in_the_order_of_their_names()
    ensures { (name other : ManifestName)
        → manifests.ghosts.cmp name other ≡ slice_cmp nat_cmp (file_of name) (file_of other) }
{}

/// Tag files that are read line by line are ordered by their names.
pub fn tag_files_stand_in_the_order_of_their_names()
    ensures { (file other : LineFile)
        → files.ghosts.cmp file other ≡ slice_cmp nat_cmp (text_file file) (text_file other) }
{}

/// A text is that of at most one manifest.
pub fn a_text_lists_one_list_of_pairs_at_most()
    ensures { (version : Version) (alg : Alg) (kind : Kind) (octets : List ℕ)
        (pairs others : List Pair)
        → ManifestText version alg kind octets pairs → ManifestText version alg kind octets others
        → pairs ≡ others }
{}

/// A text is that of at most one `bag-info.txt`.
pub fn a_text_says_one_list_of_elements_at_most()
    ensures { (version : Version) (octets : List ℕ) (elements others : List MetadataElement)
        → InfoText version octets elements → InfoText version octets others → elements ≡ others }
{}

/// A text is that of at most one `fetch.txt`.
pub fn a_text_lists_one_list_of_entries_at_most()
    ensures { (version : Version) (octets : List ℕ) (lines others : List FetchLine)
        → FetchText version octets lines → FetchText version octets others → lines ≡ others }
{}

/// A text with a fault isn't that of a manifest.
pub fn a_faulty_manifest_lists_nothing()
    ensures { (version : Version) (alg : Alg) (kind : Kind) (octets : List ℕ) (pairs : List Pair)
        (fault : LineFault)
        → ManifestText version alg kind octets pairs → ManifestFault version alg kind octets fault
        → ⊥ }
{}

/// The text of a manifest has at most one first fault.
pub fn a_manifest_has_one_first_fault_at_most()
    ensures { (version : Version) (alg : Alg) (kind : Kind) (octets : List ℕ)
        (fault other : LineFault)
        → ManifestFault version alg kind octets fault → ManifestFault version alg kind octets other
        → fault ≡ other }
{}

/// A text with a fault isn't that of a `bag-info.txt`.
pub fn a_faulty_bag_info_says_nothing()
    ensures { (version : Version) (octets : List ℕ) (elements : List MetadataElement)
        (fault : LineFault)
        → InfoText version octets elements → InfoFault version octets fault → ⊥ }
{}

/// The text of a `bag-info.txt` has at most one first fault.
pub fn a_bag_info_has_one_first_fault_at_most()
    ensures { (version : Version) (octets : List ℕ) (fault other : LineFault)
        → InfoFault version octets fault → InfoFault version octets other → fault ≡ other }
{}

/// A text with a fault isn't that of a `fetch.txt`.
pub fn a_faulty_fetch_list_lists_nothing()
    ensures { (version : Version) (octets : List ℕ) (lines : List FetchLine) (fault : LineFault)
        → FetchText version octets lines → FetchFault version octets fault → ⊥ }
{}

/// The text of a `fetch.txt` has at most one first fault.
pub fn a_fetch_list_has_one_first_fault_at_most()
    ensures { (version : Version) (octets : List ℕ) (fault other : LineFault)
        → FetchFault version octets fault → FetchFault version octets other → fault ≡ other }
{}

/// A text either is the value of a `Payload-Oxum` or isn't.
pub fn a_text_is_an_oxum_or_is_none()
    ensures { (text : List ℕ) → ((octets streams : ℕ) × OxumText text octets streams)
        ⊎ ((octets streams : ℕ) → ¬ OxumText text octets streams) }
{}

/// A text is that of a manifest, or has a faulty line.
pub fn a_manifest_has_its_pairs_or_a_faulty_line()
    ensures { (version : Version) (alg : Alg) (kind : Kind) (octets : List ℕ)
        → ((pairs : List Pair) × ManifestText version alg kind octets pairs)
        ⊎ ((fault : LineFault) × ManifestFault version alg kind octets fault) }
{}

/// A text is that of a `fetch.txt`, or has a faulty line.
pub fn a_fetch_list_has_its_entries_or_a_faulty_line()
    ensures { (version : Version) (octets : List ℕ)
        → ((lines : List FetchLine) × FetchText version octets lines)
        ⊎ ((fault : LineFault) × FetchFault version octets fault) }
{}

/// A text is that of a `bag-info.txt`, or has a faulty line.
pub fn a_bag_info_has_its_elements_or_a_faulty_line()
    ensures { (version : Version) (octets : List ℕ)
        → ((elements : List MetadataElement) × InfoText version octets elements)
        ⊎ ((fault : LineFault) × InfoFault version octets fault) }
{}

/// What is written for pairs that a manifest may list is the text of a manifest that lists them.
pub fn a_written_manifest_lists_its_pairs()
    ensures { (alg : Alg) (kind : Kind) (pairs : List Pair) → AllByRecursion CanBeWritten pairs
        → FitEach alg kind pairs → NoneTwice pairs
        → ManifestText V1 alg kind (written_manifest pairs) pairs }
{}

/// What is written for elements is the text of a `bag-info.txt` that says them.
pub fn a_written_bag_info_says_its_elements()
    ensures { (elements : List MetadataElement) → AllByRecursion IsElement elements
        → InfoText V1 (written_info elements) elements }
{}

/// What is written for entries is the text of a `fetch.txt` that lists them, on lines numbered from 1.
pub fn a_written_fetch_list_lists_its_entries()
    ensures { (lines : List FetchLine) → AllByRecursion CanBeFetched lines
        → FetchText V1 (written_fetch lines) (numbered_from 1 lines) }
{}

//! Worked examples of the definitions. The contract of each function states one, and its body is empty.
ghost use Rattle.std.specs.Prelude.{◌≡◌, ℕ, List, [], ◌∷◌, ◌++◌, Some, codes, replicate, true, false};
ghost use Rattle.bag_path.specs.Lines.{HasLines, line};
ghost use Rattle.bag_path.specs.Octets.{lf, cr};
ghost use Rattle.bag_path.specs.Paths.{IsPath, path_fault, is_payload};
ghost use Rattle.bag_path.specs.Spellings.{Spells, SpellsNothing, written_spelling};
ghost use Rattle.bag_path.specs.declared.lines.Ending.TheVariants.{Lf, Cr, CrLf, Nothing};
ghost use Rattle.bag_path.specs.declared.path.PathFault.TheVariants.{Empty, TooLong, EmptySegment, DotSegment, PayloadRoot};
ghost use Rattle.bag_path.specs.declared.version.Version.TheVariants.{V1, V097};

/// A line ends at LF, CR or CR LF. The last line may also end where the octets end (RFC 8493 section 2.3).
pub fn lines_end_at_lf_cr_and_cr_lf()
    ensures { HasLines (codes "a" ++ cr ∷ lf ∷ codes "b" ++ cr ∷ codes "c" ++ lf ∷ lf ∷ codes "d")
        (line (codes "a") CrLf ∷ line (codes "b") Cr ∷ line (codes "c") Lf ∷ line [] Lf
        ∷ line (codes "d") Nothing ∷ []) }
{}

/// If there are no octets, there are no lines.
pub fn no_octets_have_no_line()
    ensures { HasLines [] [] }
{}

/// `%0A` spells LF and `%25` spells `%`, and they are written that way (RFC 8493 section 2.1.3).
pub fn escapes_spell_lf_and_percent()
    ensures { Spells V1 (codes "data/x" ++ lf ∷ codes "%y") (codes "data/x%0A%25y")
        × (written_spelling (codes "data/x" ++ lf ∷ codes "%y") ≡ codes "data/x%0A%25y") }
{}

/// An escape in lower case is accepted, and is written in upper case (RFC 8493 section 2.1.3).
pub fn an_escape_in_lower_case_is_written_in_upper_case()
    ensures { Spells V1 (codes "data/" ++ lf ∷ []) (codes "data/%0a")
        × (written_spelling (codes "data/" ++ lf ∷ []) ≡ codes "data/%0A") }
{}

/// In version 1.0 the only escapes are those of LF, CR and `%` (RFC 8493 section 2.1.3).
pub fn other_escapes_spell_nothing()
    ensures { SpellsNothing V1 (codes "data/%41")
        × SpellsNothing V1 (codes "data/%2")
        × SpellsNothing V1 (codes "100%") }
{}

/// In version 0.97 `%` stands for itself, even before `25`, before another `%` and at the end of the text.
pub fn percent_stands_for_itself_in_version_0_97()
    ensures { Spells V097 (codes "data/%41") (codes "data/%41")
        × Spells V097 (codes "data/%25") (codes "data/%25")
        × Spells V097 (codes "data/%%0%") (codes "data/%%0%") }
{}

/// In version 0.97 the escapes of LF and CR are those of version 1.0, in either case, even after a `%` that stands for
/// itself.
pub fn line_ends_are_escaped_in_version_0_97()
    ensures { Spells V097 (codes "data/" ++ lf ∷ []) (codes "data/%0a")
        × Spells V097 (codes "data/" ++ lf ∷ cr ∷ cr ∷ []) (codes "data/%0A%0D%0d")
        × Spells V097 (codes "%" ++ lf ∷ codes "0A") (codes "%%0A0A") }
{}

/// In version 0.97 a name that contains the characters of an escape of LF or CR can't be spelled. In version 1.0 it
/// can.
pub fn a_literal_line_escape_has_no_spelling_in_version_0_97()
    ensures { ((text : List ℕ) → ¬ Spells V097 (codes "data/%0A") text)
        × ((text : List ℕ) → ¬ Spells V097 (codes "data/%0dk") text)
        × Spells V1 (codes "data/%0A") (codes "data/%250A") }
{}

/// Paths are always written by the rules of version 1.0, whichever version they were read in.
pub fn paths_of_version_0_97_are_written_in_version_1()
    ensures { (written_spelling (codes "data/%41") ≡ codes "data/%2541")
        × (written_spelling (codes "data/%25") ≡ codes "data/%2525")
        × (written_spelling (codes "data/" ++ lf ∷ []) ≡ codes "data/%0A") }
{}

/// A path has no segment that is empty, `.` or `..`, and it isn't the name of the payload directory.
pub fn paths_that_lead_elsewhere_have_faults()
    ensures { (path_fault (codes "data/../k") ≡ Some DotSegment)
        × (path_fault (codes "./k") ≡ Some DotSegment)
        × (path_fault (codes "data//k") ≡ Some EmptySegment)
        × (path_fault (codes "/k") ≡ Some EmptySegment)
        × (path_fault (codes "data/") ≡ Some EmptySegment)
        × (path_fault (codes "data") ≡ Some PayloadRoot)
        × (path_fault [] ≡ Some Empty) }
{}

/// A segment may begin or end with dots, and a path needs no directory.
pub fn common_names_are_paths()
    ensures { IsPath (codes "k") × IsPath (codes "data/..k/k./...") × IsPath (codes "data.txt") }
{}

/// A path has at most 4,096 octets.
pub fn a_path_has_4096_octets_at_most()
    ensures { let letter : ℕ = 97 in IsPath (replicate 4096 letter)
        × (path_fault (replicate 4097 letter) ≡ Some TooLong) }
{}

/// The payload is what lies below `data/`, in exactly this spelling (RFC 8493 section 2.1.2).
pub fn payload_files_lie_below_data()
    ensures { (is_payload (codes "data/k") ≡ true)
        × (is_payload (codes "data.txt") ≡ false)
        × (is_payload (codes "Data/k") ≡ false) }
{}

//! Laws about the definitions that the contracts of this crate cite. The contract of each function states one law, and
//! its body is empty.
ghost use Rattle.std.specs.Prelude.{◌≡◌, ◌≢◌, ◌↔◌, ◌++◌, ℕ, List, All, Some, None, map};
ghost use Rattle.std.specs.Str.{IsUtf8};
ghost use Rattle.bag_path.specs.Lines.{HasLines, IsPlain, Text, line, lines_of, written_lines};
ghost use Rattle.bag_path.specs.Paths.{IsPath, path_fault};
ghost use Rattle.bag_path.specs.SpellingReading.{octets_spelled};
ghost use Rattle.bag_path.specs.Spellings.{IsLineEscape, Spells, written_spelling};
ghost use Rattle.bag_path.specs.declared.lines.Ending.TheVariants.{Lf};
ghost use Rattle.bag_path.specs.declared.version.Version.{Version};
ghost use Rattle.bag_path.specs.declared.version.Version.TheVariants.{V1, V097};

/// A text is a path exactly if it has none of the faults.
pub fn a_path_has_no_fault()
    ensures { (text : List ℕ) → IsUtf8 text → IsPath text ↔ (path_fault text ≡ None) }
{}

/// A text spells at most one list of octets.
pub fn a_text_spells_one_path_at_most()
    ensures { (version : Version) (path other text : List ℕ)
        → Spells version path text → Spells version other text → path ≡ other }
{}

/// The written spelling of a path spells it.
pub fn what_is_written_spells_its_path()
    ensures { (path : List ℕ) → Spells V1 path (written_spelling path) }
{}

/// The written spelling of a path contains no LF and no CR, so it stays on its line.
pub fn what_is_written_has_no_line_end()
    ensures { (path : List ℕ) → All IsPlain (written_spelling path) }
{}

/// In version 0.97 every text spells some octets.
pub fn every_text_spells_octets_in_version_0_97()
    ensures { (text : List ℕ) → (path : List ℕ) × Spells V097 path text }
{}

/// In version 0.97 no text spells a path that contains an escape of LF or CR.
pub fn a_path_with_a_line_escape_has_no_spelling_in_version_0_97()
    ensures { (before part after text : List ℕ) (octet : ℕ) → IsLineEscape part octet
        → ¬ Spells V097 (before ++ part ++ after) text }
{}

/// In version 0.97 every other path spells itself.
pub fn other_paths_spell_themselves_in_version_0_97()
    ensures { (path : List ℕ) → ((before part after : List ℕ) (octet : ℕ)
        → IsLineEscape part octet → path ≢ (before ++ part ++ after)) → Spells V097 path path }
{}

/// In version 0.97 every other path is spelled by some text that contains no LF and no CR.
pub fn other_paths_have_a_spelling_on_one_line_in_version_0_97()
    ensures { (path : List ℕ) → ((before part after : List ℕ) (octet : ℕ)
        → IsLineEscape part octet → path ≢ (before ++ part ++ after))
        → (text : List ℕ) × Spells V097 path text × All IsPlain text }
{}

/// Reading a text gives exactly the octets that it spells.
pub fn what_is_read_is_what_is_spelled()
    ensures { (version : Version) (path text : List ℕ)
        → Spells version path text ↔ (octets_spelled version text ≡ Some path) }
{}

/// Reading the written spelling of a path gives the octets of that path.
pub fn what_is_written_is_read_again()
    ensures { (path : List ℕ) → octets_spelled V1 (written_spelling path) ≡ Some path }
{}

/// Octets have exactly one list of lines.
pub fn octets_have_one_list_of_lines()
    ensures { (octets : List ℕ) (lines : List Text)
        → HasLines octets lines ↔ (lines ≡ lines_of octets) }
{}

/// Texts without LF and CR, written with LF after each, are read back as the same lines.
pub fn written_lines_are_read_again()
    ensures { (texts : List (List ℕ)) → All (All IsPlain) texts
        → lines_of (written_lines texts) ≡ map (λ text. line text Lf) texts }
{}

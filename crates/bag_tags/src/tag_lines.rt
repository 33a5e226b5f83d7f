//! Reads text tag files, line by line.
ghost use Rattle.std.specs.Prelude.{◌≡◌, ℕ, false, List, IfErr, IsErrOf, MatchResult, OnOk};
ghost use Rattle.std.specs.List.{AllByRecursion};
ghost use Rattle.std.specs.Str.{IsUtf8};
ghost use Rattle.bag_path.specs.Lines.{IsPlain};
ghost use Rattle.bag_path.specs.declared.version.Version.{Version};
ghost use Rattle.bag_tags.specs.declared.tag_fault.LineCause.{LineCause};
ghost use Rattle.bag_tags.specs.declared.tag_fault.LineFault.{LineFault};
ghost use Rattle.bag_tags.specs.Pieces.{tag_text};
ghost use Rattle.bag_tags.specs.TagLines.{
  AreExact,
  Causes,
  Faults,
  HasCause,
  IsFirstFault,
  IsTextOf,
  LeadsOn,
  RefusedAt,
};
ghost use Rattle.bag_tags.specs.Words.{is_blank_line};

use crate::last_line::LastLine;
use crate::pieces::{read_end, read_ended};
use crate::splitting::is_blank_line;
use crate::tag_fault::{LineCause, LineFault, TagCause, TagFault};
use bag_path::Version;
use std::alloc::Global;
use std::str;

/// The value of a text tag file, to which its lines are added in order.
pub(crate) trait TagLines {
    /// The value that a line that is UTF-8 and not blank leads to from this value.
    ghost leads: { Version → Self → ℕ → List ℕ → Self → Type 0 };

    /// Why such a line is faulty after this value.
    ghost refuses: { Version → Self → List ℕ → LineCause → Type 0 };

    /// Adds what a line says. After an `Err` the value isn't used again.
    fn read_line(&mut self, version: Version, number: u64, text: &str) -> Result<(), TagCause>
        requires plain { AllByRecursion IsPlain text.now }
        requires not_blank { is_blank_line text.now ≡ false }
        ensures ok { OnOk result (leads version self.old number text.now self.new) }
        ensures err { IfErr result (Causes (refuses version self.old text.now)) };
}

/// Adds all lines of a text to a value. After an `Err` the value isn't used again.
pub(crate) fn read_onto<V: TagLines>(
    alloc: Global,
    value: &mut V,
    version: Version,
    octets: &[u8],
) -> Result<(), TagFault>
    requires { AreExact (V.leads version) (V.refuses version) }
    ensures read { OnOk result (IsTextOf (V.leads version) value.old octets.now value.new) }
    ensures only { (other : V) → IsTextOf (V.leads version) value.old octets.now other
        → MatchResult result (λ done. value.new ≡ other) (λ fault. fault ≡ TagFault.Memory) }
    ensures fault { (fault : LineFault) → IsErrOf result (TagFault.Line fault)
        → IsFirstFault (V.leads version) (V.refuses version) value.old octets.now fault }
{
    let mut last = LastLine::first(alloc);
    let tail = read_ended(value, version, &mut last, octets)?;
    read_end(value, version, &mut last, tail)
}

/// Adds what a line says.
pub(crate) fn read_numbered<V: TagLines>(
    value: &mut V,
    version: Version,
    number: u64,
    text: &[u8],
) -> Result<(), TagFault>
    requires { AllByRecursion IsPlain text.now }
    ensures ok { OnOk result
        (LeadsOn (V.leads version) value.old (tag_text (number, text.now)) value.new) }
    ensures err { IfErr result
        (Faults (RefusedAt (V.refuses version) value.old (tag_text (number, text.now)))) }
{
    if is_blank_line(text) {
        return Ok(());
    }
    match read_octets(value, version, number, text) {
        Ok(()) => Ok(()),
        Err(TagCause::Memory) => Err(TagFault::Memory),
        Err(TagCause::Line(cause)) => Err(TagFault::Line(LineFault {
            line: number,
            cause,
        })),
    }
}

/// Adds what a line says that isn't blank, if it is UTF-8.
fn read_octets<V: TagLines>(
    value: &mut V,
    version: Version,
    number: u64,
    octets: &[u8],
) -> Result<(), TagCause>
    requires plain { AllByRecursion IsPlain octets.now }
    requires not_blank { is_blank_line octets.now ≡ false }
    ensures utf8 { OnOk result (IsUtf8 octets.now) }
    ensures ok { OnOk result (V.leads version value.old number octets.now value.new) }
    ensures err { IfErr result (Causes (HasCause (V.refuses version) value.old octets.now)) }
{
    let Ok(text) = str::from_utf8(octets) else {
        return Err(TagCause::Line(LineCause::NotUtf8));
    };
    value.read_line(version, number, text)
}

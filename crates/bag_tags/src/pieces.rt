//! Reads text tag files that come in pieces, which may be cut anywhere.
ghost use Rattle.std.specs.Prelude.{◌≡◌, ◌≢◌, ◌++◌, ◌↔◌, ℕ, List, IfErr, IfOk, IsTrue, OnOk};
ghost use Rattle.std.specs.List.{AllByRecursion};
ghost use Rattle.bag_path.specs.Lines.{IsPlain, ending_octets, is_lone_lf};
ghost use Rattle.bag_path.specs.declared.lines.Ending.{Ending};
ghost use Rattle.bag_tags.specs.Pieces.{Awaits, is_cr, last_line, unmarked};
ghost use Rattle.bag_tags.specs.TagLines.{Faults, IsTextOf, LeadsOn, RefusedAt, StopsAt};

use crate::last_line::LastLine;
use crate::splitting::{MARK, without};
use crate::tag_fault::TagFault;
use crate::tag_lines::{TagLines, read_numbered};
use bag_path::{Ending, Lines, Version};

/// Reads the lines that end in the next piece, and keeps the octets of the last one. After an `Err` the value isn't
/// used again.
pub(crate) fn read_piece<V: TagLines>(
    value: &mut V,
    version: Version,
    last: &mut LastLine,
    piece: &[u8],
) -> Result<(), TagFault>
    ensures ok { (start : V) (all left : List ℕ)
        → Awaits (V.leads version) start all (piece.now ++ left) last.old value.old
        → OnOk result (Awaits (V.leads version) start all left last.new value.new) }
    ensures err { (start : V) (all left : List ℕ)
        → Awaits (V.leads version) start all (piece.now ++ left) last.old value.old
        → IfErr result (Faults (StopsAt (V.leads version) (V.refuses version) start all)) }
{
    let tail = read_ended(value, version, last, piece)?;
    last.add(tail)
}

/// Reads the lines that end in the next piece. Returns the octets after them, which may be the front of a line.
pub(crate) fn read_ended<'a, V: TagLines>(
    value: &mut V,
    version: Version,
    last: &mut LastLine,
    piece: &'a [u8],
) -> Result<&'a [u8], TagFault>
    ensures ok { (start : V) (all left : List ℕ)
        → Awaits (V.leads version) start all (piece.now ++ left) last.old value.old
        → IfOk result (λ tail.
        Awaits (V.leads version) start all (tail.now ++ left) last.new value.new) }
    ensures plain { IfOk result (λ tail. AllByRecursion IsPlain tail.now) }
    ensures err { (start : V) (all left : List ℕ)
        → Awaits (V.leads version) start all (piece.now ++ left) last.old value.old
        → IfErr result (Faults (StopsAt (V.leads version) (V.refuses version) start all)) }
{
    for line in Lines::new(piece) {
        if !is_ended(line.ending) {
            return Ok(line.text);
        }
        end_line(value, version, last, line.text, line.ending)?;
    }
    Ok(&[])
}

/// Reads the last line, which ends after this text, and begins the next one. An LF alone is passed over if it belongs
/// to the ending of the line before.
fn end_line<V: TagLines>(
    value: &mut V,
    version: Version,
    last: &mut LastLine,
    text: &[u8],
    ending: Ending,
) -> Result<(), TagFault>
    requires plain { AllByRecursion IsPlain text.now }
    requires ended { ending ≢ Ending.Nothing }
    ensures ok { (start : V) (all left : List ℕ) → Awaits (V.leads version) start all
        (text.now ++ ending_octets ending ++ left) last.old value.old
        → OnOk result (Awaits (V.leads version) start all left last.new value.new) }
    ensures err { (start : V) (all left : List ℕ) → Awaits (V.leads version) start all
        (text.now ++ ending_octets ending ++ left) last.old value.old
        → IfErr result (Faults (StopsAt (V.leads version) (V.refuses version) start all)) }
{
    if last.is_after_cr() && is_lone_lf(text, ending) {
        last.pass_lf();
        return Ok(());
    }
    read_last(value, version, last, text)?;
    last.end(is_cr(ending))
}

/// Reads the last line, which ends after this text where all octets end. After an `Err` the value isn't used again.
pub(crate) fn read_end<V: TagLines>(
    value: &mut V,
    version: Version,
    last: &mut LastLine,
    text: &[u8],
) -> Result<(), TagFault>
    requires { AllByRecursion IsPlain text.now }
    ensures ok { (start : V) (all : List ℕ)
        → Awaits (V.leads version) start all text.now last.old value.old
        → OnOk result (IsTextOf (V.leads version) start all value.new) }
    ensures err { (start : V) (all : List ℕ)
        → Awaits (V.leads version) start all text.now last.old value.old
        → IfErr result (Faults (StopsAt (V.leads version) (V.refuses version) start all)) }
{
    read_last(value, version, last, text)
}

/// Adds what the last line says, which ends after this text.
fn read_last<V: TagLines>(
    value: &mut V,
    version: Version,
    last: &mut LastLine,
    text: &[u8],
) -> Result<(), TagFault>
    requires { AllByRecursion IsPlain text.now }
    ensures ok { OnOk result
        (LeadsOn (V.leads version) value.old (last_line last.old text.now) value.new) }
    ensures number { OnOk result (last.new.number ≡ last.old.number) }
    ensures err { IfErr result
        (Faults (RefusedAt (V.refuses version) value.old (last_line last.old text.now))) }
{
    if last.octets().is_empty() {
        return read_numbered(value, version, last.number(), unmarked(last.number(), text));
    }
    last.add(text)?;
    read_numbered(
        value,
        version,
        last.number(),
        unmarked(last.number(), last.octets()),
    )
}

/// The text of a line, without a byte order mark in the first one.
fn unmarked(number: u64, text: &[u8]) -> &[u8]
    ensures unmarked { result.now ≡ unmarked number text.now }
    ensures plain { AllByRecursion IsPlain text.now → AllByRecursion IsPlain result.now }
{
    if number == 1 {
        without(MARK, text)
    } else {
        text
    }
}

fn is_ended(ending: Ending) -> bool
    ensures { IsTrue result ↔ (ending ≢ Ending.Nothing) }
{
    !matches!(ending, Ending::Nothing)
}

fn is_cr(ending: Ending) -> bool
    ensures { result ≡ is_cr ending }
{
    matches!(ending, Ending::Cr)
}

/// Whether a line is nothing but an LF.
fn is_lone_lf(text: &[u8], ending: Ending) -> bool
    ensures { result ≡ is_lone_lf text.now ending }
{
    text.is_empty() && matches!(ending, Ending::Lf)
}

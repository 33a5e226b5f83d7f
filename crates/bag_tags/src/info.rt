//! What `bag-info.txt` says, and its text (RFC 8493 section 2.2.2).
ghost use Rattle.std.specs.Prelude.{◌≡◌, ◌↔◌, IsTrue, ◌++◌, ℕ, true, false, List, [], IfErr, IfOk, IsErrOf, OnOk, MatchOption, MatchResult};
ghost use Rattle.std.specs.List.{AllByRecursion};
ghost use Rattle.bag_path.specs.Lines.{IsPlain};
ghost use Rattle.bag_path.specs.declared.version.Version.{Version};
ghost use Rattle.bag_path.specs.declared.version.Version.TheVariants.{V1, V097};
ghost use Rattle.bag_tags.specs.Infos.{IsFit, IsLabel, IsLabelOctet, IsValue, MetadataElement, IsElement, written_element, written_info, written_octet, written_value};
ghost use Rattle.bag_tags.specs.InfoReading.{stops_value};
ghost use Rattle.bag_tags.specs.declared.tag_fault.LineFault.{LineFault};
ghost use Rattle.bag_tags.specs.TagLines.{Causes};
ghost use Rattle.bag_tags.specs.Words.{begins_blank, is_blank_line};
ghost use Rattle.bag_tags.specs.InfoText.{Continues, GivesElement, GivesNoElement, HasFirstLine, HasLabel, HasParts, InfoText, InfoFault, LacksSeparator};

use crate::oxum::OXUM_LABEL;
use crate::splitting::{Cut, MARK, begins_blank, is_blank, split_text};
use crate::tag_fault::{LineCause, TagCause, TagFault};
use crate::tag_lines::{TagLines, read_onto};
use bag_path::Version;
use std::alloc::{AllocError, Global};
use std::marker::Model;
use thiserror::Error;

/// A metadata element of `bag-info.txt`: a label and its value. Each line break in the value is one LF.
#[derive(Debug, Drop)]
pub struct Element {
    label: String,
    value: String,
}

impl Model for Element {
    ghost use Rattle.bag_tags.specs.Infos.{MetadataElement, element, IsElement};
    ghost use Rattle.std.specs.Prelude.{string_bytes};

    ghost Value = { MetadataElement };

    ghost view = { λ e. element (string_bytes e.label) (string_bytes e.value) };

    ghost invariant = { λ e. IsElement (element (string_bytes e.label) (string_bytes e.value)) };
}

/// Why a label and a value make no element. If several causes apply, the first in this order is returned, but `Memory`
/// may be returned in place of any other.
#[derive(Clone, Copy, Debug, PartialEq, Eq, Error)]
pub enum ElementFault {
    /// The label is empty, begins or ends with a blank, begins with U+FEFF, or contains a colon, CR or LF.
    #[error("label")]
    BadLabel,
    /// The value contains a CR, or a line after an LF that is empty or begins with a blank.
    #[error("value")]
    BadValue,
    /// Memory ran out.
    #[error("out of memory")]
    Memory,
}

impl From<AllocError> for ElementFault {
    ghost use Rattle.std.specs.Prelude.{◌≡◌};
    ghost use Rattle.bag_tags.specs.declared.info.ElementFault.TheVariants.{Memory};

    ghost from_gives = { λ error fault. fault ≡ Memory };

    fn from(_: AllocError) -> ElementFault {
        ElementFault::Memory
    }
}

impl Element {
    ghost use Rattle.std.specs.Prelude.{◌≡◌, IfOk, IfErr};
    ghost use Rattle.bag_tags.specs.Infos.{element, element_with_line, is_oxum, IsElement, IsFurtherLine, RefusesElement};

    /// The element with this label and this value.
    ///
    /// # Errors
    ///
    /// The first of `BadLabel` and `BadValue` that applies, or `Memory` if memory runs out.
    pub fn new(alloc: Global, label: &str, value: &str) -> Result<Element, ElementFault>
        ensures made { IfOk result (λ made. made ≡ element label.now value.now) }
        ensures is_element { IfOk result IsElement }
        ensures refused { IfErr result (RefusesElement label.now value.now) }
    {
        if !is_label(label.as_bytes()) {
            return Err(ElementFault::BadLabel);
        }
        if !is_value(value.as_bytes()) {
            return Err(ElementFault::BadValue);
        }
        Ok(Element {
            label: String::from_str(alloc, label)?,
            value: String::from_str(alloc, value)?,
        })
    }

    /// The label, with its letters in the case in which they were given. Reserved labels are compared without regard to
    /// case.
    pub fn label(&self) -> &str
        ensures label { result.now ≡ self.now.label }
        ensures is_element { IsElement self.now }
    {
        self.label.as_str()
    }

    /// The value, with LF between its lines.
    pub fn value(&self) -> &str
        ensures value { result.now ≡ self.now.value }
        ensures is_element { IsElement self.now }
    {
        self.value.as_str()
    }

    /// Whether this is a `Payload-Oxum`. The label is compared without regard to ASCII case.
    pub fn is_oxum(&self) -> bool
        ensures { result ≡ is_oxum self.now }
    {
        self.label().eq_ignore_ascii_case(OXUM_LABEL)
    }

    /// The element with one more line at the end of its value.
    pub(crate) fn with_line(self, line: &str) -> Result<Element, AllocError>
        requires { IsFurtherLine line.now }
        ensures { IfOk result (λ more. more ≡ element_with_line self line.now) }
    {
        let Element { label, mut value } = self;
        value.push('\n')?;
        value.push_str(line)?;
        Ok(Element { label, value })
    }
}

/// The elements of `bag-info.txt`, in its order. Several elements may have the same label.
#[derive(Drop)]
pub struct Info {
    elements: Vec<Element>,
}

impl Model for Info {
    ghost use Rattle.std.specs.Prelude.{List};
    ghost use Rattle.bag_tags.specs.Infos.{MetadataElement};

    ghost Value = { List MetadataElement };

    ghost view = { λ info. info.elements.items };
}

impl Info {
    ghost use Rattle.std.specs.Prelude.{◌≡◌, ◌++◌, ◌∷◌, [], OnOk, OnErr, IfSome, IfNone};
    ghost use Rattle.bag_tags.specs.Infos.{MetadataElement};

    /// A list without elements.
    pub fn new(alloc: Global) -> Info
        ensures { result ≡ [] }
    {
        Info {
            elements: Vec::new(alloc),
        }
    }

    /// The allocator that the elements keep.
    pub(crate) fn allocator(&self) -> Global {
        *self.elements.allocator()
    }

    /// The elements in their order.
    pub fn elements(&self) -> &[Element]
        ensures { result.now ≡ self.now }
    {
        self.elements.as_slice()
    }

    /// Adds an element after the others.
    ///
    /// # Errors
    ///
    /// `AllocError` if memory runs out. The elements are then unchanged.
    pub fn push(&mut self, element: Element) -> Result<(), AllocError>
        ensures added { OnOk result (self.new ≡ self.old ++ element ∷ []) }
        ensures unchanged { OnErr result (self.new ≡ self.old) }
    {
        self.elements.push(element)?;
        Ok(())
    }

    /// Removes the last element and returns it.
    pub(crate) fn pop(&mut self) -> Option<Element>
        ensures last { IfSome result (λ last. self.old ≡ self.new ++ last ∷ []) }
        ensures none { IfNone result (self.old ≡ []) }
        ensures unchanged { IfNone result (self.new ≡ self.old) }
    {
        self.elements.pop()
    }
}

fn is_label(text: &[u8]) -> bool
    ensures { IsTrue result ↔ IsLabel text.now }
{
    is_fit(text) && are_in_label(text)
}

fn are_in_label(text: &[u8]) -> bool
    ensures { IsTrue result ↔ AllByRecursion IsLabelOctet text.now }
{
    text.iter().all(|octet| is_in_label(*octet))
}

fn is_in_label(octet: u8) -> bool
    ensures { IsTrue result ↔ IsLabelOctet octet }
{
    octet != b':' && octet != b'\n' && octet != b'\r'
}

fn is_fit(text: &[u8]) -> bool
    ensures { IsTrue result ↔ IsFit text.now }
{
    !text.is_empty()
        && !is_blank(text[0])
        && !is_blank(text[text.len() - 1])
        && !text.starts_with(MARK)
}

/// Whether the text contains no CR, and no line after the first is empty or begins with a blank.
fn is_value(text: &[u8]) -> bool
    ensures { IsTrue result ↔ IsValue text.now }
{
    let mut after_lf = false;
    for octet in text {
        if stops_value(after_lf, *octet) {
            return false;
        }
        after_lf = *octet == b'\n';
    }
    !after_lf
}

fn stops_value(after_lf: bool, octet: u8) -> bool
    ensures { result ≡ stops_value after_lf octet }
{
    octet == b'\r' || after_lf && (is_blank(octet) || octet == b'\n')
}

/// Reads the elements of a text. Each element is a line with a label, a colon, a blank and the first line of the value.
/// Indented lines may follow, each of which is a further line of the value. In version 0.97 there may be any number of
/// blanks before and after the colon, which are dropped.
///
/// One byte order mark at the start is dropped. Lines that are empty or only blanks are skipped.
///
/// # Errors
///
/// The first faulty line, counted from 1, with the first cause that applies: it isn't UTF-8; it is indented, and no
/// element comes before it; it has no separator; its label is bad. Or `Memory`, if memory runs out.
pub fn read_info(alloc: Global, octets: &[u8], version: Version) -> Result<Info, TagFault>
    // The result is what the text says, and every text that says something is read.
    ensures read { IfOk result (λ info. InfoText version octets.now info) }
    ensures only { (elements : List MetadataElement) → InfoText version octets.now elements
        → MatchResult result (λ info. info ≡ elements) (λ fault. fault ≡ TagFault.Memory) }
    ensures fault { (fault : LineFault) → IsErrOf result (TagFault.Line fault)
        → InfoFault version octets.now fault }
{
    let mut info = Info::new(alloc);
    read_onto(alloc, &mut info, version, octets)?;
    Ok(info)
}

impl TagLines for Info {
    ghost use Rattle.bag_tags.specs.InfoText.{AddsInfo, RefusesInfo};

    ghost leads = { AddsInfo };

    ghost refuses = { RefusesInfo };

    fn read_line(&mut self, version: Version, _number: u64, text: &str) -> Result<(), TagCause> {
        if begins_blank(text.as_bytes()) {
            return continue_last(self, text);
        }
        let element = read_element(self.allocator(), version, text)?;
        self.push(element)?;
        Ok(())
    }
}

/// Adds an indented line to the value of the last element.
fn continue_last(info: &mut Info, text: &str) -> Result<(), TagCause>
    requires plain { AllByRecursion IsPlain text.now }
    requires indented { begins_blank text.now ≡ true }
    requires not_blank { is_blank_line text.now ≡ false }
    ensures ok { OnOk result (Continues info.old text.now info.new) }
    ensures err { IfErr result (Causes (λ cause. (cause ≡ LineCause.NothingToContinue)
        × (info.old ≡ []))) }
{
    let Some(last) = info.pop() else {
        return Err(TagCause::Line(LineCause::NothingToContinue));
    };
    let (_blanks, line) = split_text(text, Cut::NoBlank);
    let longer = last.with_line(line)?;
    info.push(longer)?;
    Ok(())
}

/// The element that a line gives.
fn read_element(alloc: Global, version: Version, text: &str) -> Result<Element, TagCause>
    requires { AllByRecursion IsPlain text.now }
    ensures ok { IfOk result (GivesElement version text.now) }
    ensures err { IfErr result (Causes (GivesNoElement version text.now)) }
{
    let Some((label, first)) = split_parts(version, text) else {
        return Err(TagCause::Line(LineCause::NoSeparator));
    };
    match Element::new(alloc, label, first) {
        Ok(element) => Ok(element),
        Err(ElementFault::BadLabel) => Err(TagCause::Line(LineCause::BadLabel)),
        Err(ElementFault::BadValue) => unreachable!(),
        Err(ElementFault::Memory) => Err(TagCause::Memory),
    }
}

/// The label of a line and the first line of the value, if the line has a separator.
fn split_parts(version: Version, text: &str) -> Option<(&str, &str)>
    ensures { MatchOption result (LacksSeparator version text.now)
        (λ parts. HasParts version text.now parts.0.now parts.1.now) }
{
    let (before, after) = text.split_once(':')?;
    let first = first_line(version, after)?;
    Some((label(version, before), first))
}

/// The label, which is what comes before the colon.
fn label(version: Version, before: &str) -> &str
    ensures { HasLabel version before.now result.now }
{
    match version {
        Version::V1 => before,
        Version::V097 => without_last_blanks(before),
    }
}

/// The first line of the value, if what follows the colon has the form of one.
fn first_line(version: Version, after: &str) -> Option<&str>
    ensures { MatchOption result ((first : List ℕ) → ¬ HasFirstLine version after.now first)
        (λ first. HasFirstLine version after.now first.now) }
{
    match version {
        Version::V1 => after_blank(after),
        Version::V097 => Some(split_text(after, Cut::NoBlank).1),
    }
}

/// What follows a blank, or nothing if the text is empty.
fn after_blank(text: &str) -> Option<&str>
    ensures { MatchOption result ((first : List ℕ) → ¬ HasFirstLine V1 text.now first)
        (λ first. HasFirstLine V1 text.now first.now) }
{
    match text.as_bytes().first() {
        None => Some(text),
        Some(octet) => {
            if is_blank(*octet) {
                Some(&text[1..])
            } else {
                None
            }
        }
    }
}

/// A text without the blanks at its end.
fn without_last_blanks(text: &str) -> &str
    ensures { HasLabel V097 text.now result.now }
{
    match text.as_bytes().iter().rposition(|octet| !is_blank(*octet)) {
        Some(last) => &text[..last + 1],
        None => "",
    }
}

/// Writes these elements. Each is a label, a colon, a space and the value, whose further lines are indented by a space.
/// Each line ends in LF, and long lines aren't folded. In version 1.0 `read_info` reads the same elements back.
///
/// # Errors
///
/// `AllocError` if memory runs out.
pub fn write_info(alloc: Global, info: &Info) -> Result<Vec<u8>, AllocError>
    ensures written { IfOk result (λ octets. octets.items ≡ written_info info.now) }
    ensures reads { IfOk result (λ octets. InfoText V1 octets.items info.now) }
{
    let mut octets = Vec::new(alloc);
    for element in info.elements() {
        write_element(&mut octets, element)?;
    }
    Ok(octets)
}

fn write_element(octets: &mut Vec<u8>, element: &Element) -> Result<(), AllocError>
    ensures written { OnOk result (octets.new.items ≡ octets.old.items
        ++ written_element element.now) }
    ensures is_element { IsElement element.now }
{
    octets.extend_from_slice(element.label().as_bytes())?;
    octets.extend_from_slice(b": ")?;
    write_value(octets, element.value().as_bytes())?;
    octets.push(b'\n')?;
    Ok(())
}

/// Writes the lines of a value, with each line after the first indented by a space.
fn write_value(octets: &mut Vec<u8>, value: &[u8]) -> Result<(), AllocError>
    ensures { OnOk result (octets.new.items ≡ octets.old.items ++ written_value value.now) }
{
    for octet in value {
        write_octet(octets, *octet)?;
    }
    Ok(())
}

fn write_octet(octets: &mut Vec<u8>, octet: u8) -> Result<(), AllocError>
    ensures { OnOk result (octets.new.items ≡ octets.old.items ++ written_octet octet) }
{
    if octet == b'\n' {
        octets.extend_from_slice(b"\n ")?;
        return Ok(());
    }
    octets.push(octet)?;
    Ok(())
}

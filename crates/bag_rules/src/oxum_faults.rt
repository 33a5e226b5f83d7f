//! Compares the size of the payload with `Payload-Oxum` (RFC 8493 section 2.2.2).
ghost use Rattle.std.specs.Prelude.{◌≡◌, ◌↔◌, IfErr, IsTrue, OnOk, length};
ghost use Rattle.bag_rules.specs.Bags.{Bag};
ghost use Rattle.bag_rules.specs.Faults.{kind_of_oxum};
ghost use Rattle.bag_rules.specs.FilesInside.{IsOtherOxum, IsSizeOf};
ghost use Rattle.bag_rules.specs.HasFault.{HasFaultOf};
ghost use Rattle.bag_rules.specs.ReadingInside.{Adds, AreTextsOf};

use crate::fault::Fault;
use crate::tag_texts::TagTexts;
use bag_tags::{Element, Oxum};
use std::alloc::AllocError;

/// How large the payload is.
#[derive(Clone, Copy, Drop)]
pub(crate) struct PayloadSize {
    /// How many octets its files have in total.
    pub octets: u128,
    /// How many files it has.
    pub streams: u64,
}

/// Adds a fault if `Payload-Oxum` gives another size.
pub(crate) fn add_wrong_oxum(
    texts: &TagTexts,
    size: PayloadSize,
    faults: &mut Vec<Fault>,
) -> Result<(), AllocError>
    ensures { (bag : Bag) → AreTextsOf (length bag.files) bag texts.now
        → IsSizeOf bag.files size
        → OnOk result (Adds faults.old.items faults.new.items (HasFaultOf bag kind_of_oxum)) }
{
    let Some(info) = &texts.info else {
        return Ok(());
    };
    let elements = info.elements();
    let is_other = |element: &Element|
        ensures { IsTrue result ↔ IsOtherOxum size element.now }
    { is_other_oxum(element, size) };
    if elements.iter().any(is_other) {
        faults.push(Fault::OxumWrong)?;
    }
    Ok(())
}

/// Whether the element is a `Payload-Oxum` that gives another size.
fn is_other_oxum(element: &Element, size: PayloadSize) -> bool
    ensures { IsTrue result ↔ IsOtherOxum size element.now }
{
    if !element.is_oxum() {
        return false;
    }
    match Oxum::parse(element.value()) {
        Some(oxum) => u128::from(oxum.octets) != size.octets || oxum.streams != size.streams,
        None => false,
    }
}

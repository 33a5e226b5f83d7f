//! `Payload-Oxum`, which gives the size of a bag's payload (RFC 8493 section 2.2.2).
ghost use Rattle.std.specs.Prelude.{◌≡◌, Some, IfOk, IfSome, string_bytes};
ghost use Rattle.bag_tags.specs.Oxums.{OxumText, written_oxum};
ghost use Rattle.bag_tags.specs.declared.oxum.Oxum.{Oxum};

use crate::number::read_number;
use crate::splitting::{Cut, is_blank_line, split_at_first};
use std::alloc::{AllocError, Global};

/// The label of the element that gives an Oxum.
pub const OXUM_LABEL: &str = "Payload-Oxum";

/// The size of a payload: how many octets it has, in how many files (streams).
#[derive(Clone, Copy, Debug, PartialEq, Eq)]
pub struct Oxum {
    /// How many octets the payload files have in total.
    pub octets: u64,
    /// How many payload files there are.
    pub streams: u64,
}

impl Oxum {
    /// Reads the value of an element: two numbers below 2^64 in ASCII digits, joined by a dot. Blanks at both ends and
    /// leading zeros are accepted. Any other text gives `None`.
    pub fn parse(text: &str) -> Option<Oxum>
        ensures read { IfSome result (λ oxum. OxumText text.now oxum.octets oxum.streams) }
        ensures only { (oxum : Oxum) → OxumText text.now oxum.octets oxum.streams → result
            ≡ Some oxum }
    {
        let (_front, rest) = split_at_first(text.as_bytes(), Cut::NoBlank);
        let (octets, rest) = split_at_first(rest, Cut::Dot);
        let rest = rest.strip_prefix(b".")?;
        let (streams, back) = split_at_first(rest, Cut::Blank);
        if !is_blank_line(back) {
            return None;
        }
        Some(Oxum {
            octets: read_number(octets)?,
            streams: read_number(streams)?,
        })
    }

    /// The value as it is written: the two numbers without leading zeros, joined by a dot.
    ///
    /// # Errors
    ///
    /// `AllocError` if memory runs out.
    pub fn to_text(self, alloc: Global) -> Result<String, AllocError>
        ensures written { IfOk result (λ text. string_bytes text
            ≡ written_oxum self.octets self.streams) }
        ensures says { IfOk result (λ text. OxumText (string_bytes text) self.octets self.streams) }
    {
        format!(in alloc; "{}.{}", self.octets, self.streams)
    }
}

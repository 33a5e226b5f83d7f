//! The last line of a text that comes in pieces.
ghost use Rattle.std.specs.List.{AllByRecursion};
ghost use Rattle.std.proofs.Props.{props};
ghost use Rattle.bag_path.specs.Lines.{IsPlain};

use crate::tag_fault::TagFault;
use std::alloc::Global;

/// The line in which the octets so far end. It may go on in the next piece.
#[derive(Drop)]
pub(crate) struct LastLine {
    /// Its number, counted from 1.
    number: u64,
    /// Its octets so far.
    octets: Vec<u8>,
    /// Whether it begins after a CR. An LF that comes next belongs to the ending of the line before.
    after_cr: bool,
    ghost plain: { AllByRecursion IsPlain octets.items } by { Prim.hlevel props },
}

impl LastLine {
    ghost use Rattle.std.specs.Prelude.{◌≡◌, ◌++◌, ◌∷◌, [], true, IfErr, OnOk};
    ghost use Rattle.std.specs.List.{AllByRecursion};
    ghost use Rattle.bag_path.specs.Lines.{IsPlain};
    ghost use Rattle.bag_path.specs.Octets.{lf};
    ghost use Rattle.bag_tags.specs.declared.tag_fault.TagFault.{TagFault};
    ghost use Rattle.bag_tags.specs.Pieces.{IsBegun, IsLonger, IsNext};

    /// The first line, without an octet.
    pub(crate) fn first(alloc: Global) -> LastLine
        ensures { IsBegun result }
    {
        LastLine {
            number: 1,
            octets: Vec::new(alloc),
            after_cr: false,
        }
    }

    /// The number of the line.
    pub(crate) fn number(&self) -> u64
        ensures { result ≡ self.now.number }
    {
        self.number
    }

    /// The octets of the line so far.
    pub(crate) fn octets(&self) -> &[u8]
        ensures octets { result.now ≡ self.now.octets.items }
        ensures plain { AllByRecursion IsPlain result.now }
    {
        self.octets.as_slice()
    }

    /// Whether an LF that comes next belongs to the ending of the line before.
    pub(crate) fn is_after_cr(&self) -> bool
        ensures { result ≡ self.now.after_cr }
    {
        self.after_cr
    }

    /// Goes past the LF of a CR LF that was cut in two.
    pub(crate) fn pass_lf(&mut self)
        requires { self.old.after_cr ≡ true }
        ensures { IsLonger self.old (lf ∷ []) self.new }
    {
        self.after_cr = false;
    }

    /// Adds octets to the line.
    pub(crate) fn add(&mut self, octets: &[u8]) -> Result<(), TagFault>
        requires { AllByRecursion IsPlain octets.now }
        ensures added { OnOk result (IsLonger self.old octets.now self.new) }
        ensures octets { OnOk result (self.new.octets.items ≡ self.old.octets.items ++ octets.now) }
        ensures err { IfErr result (λ fault. fault ≡ TagFault.Memory) }
    {
        if octets.is_empty() {
            return Ok(());
        }
        let Ok(()) = self.octets.extend_from_slice(octets) else {
            return Err(TagFault::Memory);
        };
        self.after_cr = false;
        Ok(())
    }

    /// Ends the line and begins the next one.
    pub(crate) fn end(&mut self, after_cr: bool) -> Result<(), TagFault>
        ensures next { OnOk result (IsNext self.old after_cr self.new) }
        ensures err { IfErr result (λ fault. fault ≡ TagFault.Memory) }
    {
        let Some(number) = self.number.checked_add(1) else {
            return Err(TagFault::Memory);
        };
        self.number = number;
        self.octets.clear();
        self.after_cr = after_cr;
        Ok(())
    }
}

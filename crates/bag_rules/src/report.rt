//! Reports: the faults that a check finds.
ghost use Rattle.std.specs.Prelude.{◌↔◌};
ghost use Rattle.bag_rules.specs.declared.fault.Fault.{Fault};
ghost use Rattle.bag_rules.specs.Faults.{Has};

use crate::fault::Fault;
use std::marker::Model;

/// The faults of a bag, in order and each once: by kind of fault, then by file name, line and path.
#[derive(Debug, Drop)]
pub struct Report {
    faults: Vec<Fault>,
}

impl Model for Report {
    ghost use Rattle.std.specs.Prelude.{List};
    ghost use Rattle.bag_rules.specs.declared.fault.Fault.{Fault};
    ghost use Rattle.bag_rules.specs.Faults.{AreInOrder};

    ghost Value = { List Fault };

    ghost view = { λ report. report.faults.items };

    ghost invariant = { λ report. AreInOrder report.faults.items };
}

impl Report {
    ghost use Rattle.std.specs.Prelude.{◌≡◌, ◌↔◌, [], IfOk, IsTrue};
    ghost use Rattle.bag_rules.specs.declared.fault.Fault.{Fault};
    ghost use Rattle.std.specs.List.Sorted.{IsNonDecreasingBy};
    ghost use Rattle.bag_rules.specs.Faults.{Has, AreInOrder, NoneUpTo, last_of_completeness, number_of};

    /// The report of these faults, which may be in any order and may be repeated.
    pub(crate) fn new(mut faults: Vec<Fault>) -> Report
        ensures same { (fault : Fault) → Has result fault ↔ Has faults.items fault }
        ensures in_order { AreInOrder result }
    {
        faults.sort_unstable();
        faults.dedup();
        Report { faults }
    }

    /// The faults in order.
    pub fn faults(&self) -> &[Fault]
        ensures faults { result.now ≡ self.now }
        ensures in_order { AreInOrder self.now }
        ensures by_number { IsNonDecreasingBy number_of self.now }
    {
        self.faults.as_slice()
    }

    /// Whether the bag is complete (RFC 8493 section 3), which it is if it has no faults but wrong digests.
    pub fn is_complete(&self) -> bool
        ensures { IsTrue result ↔ NoneUpTo last_of_completeness self.now }
    {
        self.faults.iter().all(|fault| fault.number() > 13)
    }

    /// Whether the bag is valid (RFC 8493 section 3), which it is if it has no faults.
    pub fn is_valid(&self) -> bool
        ensures { IsTrue result ↔ (self.now ≡ []) }
    {
        self.faults.is_empty()
    }
}

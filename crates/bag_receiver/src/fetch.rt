//! Fetching: asks a supplier for what the `fetch.txt` of a transfer lists and isn't held.
ghost use Rattle.std.specs.Prelude.{◌≡◌, ◌≢◌, ◌↔◌, ◌∷◌, [], ℕ, List, Some, None, IfOk, IfNone, IfSome, IsErrOf, IsTrue, MatchResult, slice_get, slice_set, string_bytes, true};
ghost use Rattle.bag_digest.specs.Failures.{CountsIf, one_more};
ghost use Rattle.bag_tags.specs.declared.fetch.FetchLine.{FetchLine};
ghost use Rattle.bag_rules.specs.Faults.{Has};
ghost use Rattle.bag_rules.specs.Files.{Files};
ghost use Rattle.bag_rules.specs.Plans.{AreFetchLines, IsPlanOf, item_paths};
ghost use Rattle.bag_rules.specs.Trees.{AreRising};
ghost use Rattle.bag_ledger.specs.declared.keeper_faults.StoreFault.{StoreFault};
ghost use Rattle.bag_receiver.specs.Fetching.{IsFetching};
ghost use Rattle.bag_receiver.specs.FetchingInside.{AreMarks, AreRequests, IsRequest, IsUnderWay};
ghost use Rattle.bag_receiver.specs.TransferNames.{IsNamed, IsTransferName};
ghost use Rattle.bag_receiver.specs.Receivers.{Does, SaysOfState};
ghost use Rattle.bag_receiver.specs.ReceiversInside.{Same};
ghost use Rattle.bag_receiver.specs.Runs.{CountsEach, Runs};
ghost use Rattle.bag_receiver.specs.Suppliers.{IsReply, Reply, delivery_by, supplier_failure, told};

use crate::answer::DeliverFault;
use crate::receiver::Receiver;
use crate::report::ViewFault;
use crate::supplier::Supplier;
use bag_digest::Failed;
use bag_ledger::{KeepFault, Keeper};
use bag_path::BagPath;
use bag_rules::{ItemSize, Plan, place_in};
use bag_tags::FetchLine;
use std::alloc::{AllocError, Global};

/// The outcome of asking for an entry of `fetch.txt`.
#[derive(Clone, Copy, Debug, PartialEq, Eq)]
pub enum FetchAnswer {
    /// The content supplied is valid, and is held from now on.
    Taken,
    /// The supplier doesn't have it.
    NotSupplied,
    /// The supplier failed when it was asked.
    SupplierFailed,
    /// The content supplied isn't taken, and nothing changes.
    Refused(DeliverFault),
}

/// An entry of `fetch.txt` that was asked for.
#[derive(Debug, Drop)]
pub struct FetchOutcome {
    /// The number of its line, counted from 1.
    pub line: u64,
    /// The path of the payload file.
    pub path: BagPath,
    /// The outcome.
    pub answer: FetchAnswer,
}

/// A file to ask for, and the place of its path in the plan.
#[derive(Drop)]
struct FetchRequest {
    line: u64,
    url: String,
    path: BagPath,
    place: usize,
}

/// The entries of `fetch.txt`, and which paths of the plan are held.
#[derive(Drop)]
struct Requests {
    list: Vec<FetchRequest>,
    held: Vec<bool>,
}

impl<K: Keeper> Receiver<K> {
    /// Asks the supplier for each entry of `fetch.txt` whose path isn't held when it is reached, in order, and takes in
    /// what it gives as [`deliver_from`](Receiver::deliver_from) does (RFC 8493 section 2.2.3).
    ///
    /// # Errors
    ///
    /// Those of [`report`](Receiver::report), before the supplier is asked for anything. After that, a fault is the
    /// outcome of its entry, and the remaining entries follow.
    pub fn fetch<S: Supplier>(
        &mut self,
        alloc: Global,
        name: &str,
        supplier: &mut S,
    ) -> Result<Vec<FetchOutcome>, ViewFault>
        ensures { IsFetching K.holds K.may_leave K.clean K.failures S.supply S.failures S.asks
            name.now self.old self.new supplier.old supplier.new result }
    {
        let Requests { list, mut held } = self.requests(alloc, name)?;
        let mut outcomes = Vec::with_capacity(alloc, list.len())?;
        for request in list {
            if is_marked(&held, request.place) {
                continue;
            }
            let answer = self.fetch_one(alloc, name, &request, supplier);
            mark_taken(&mut held, request.place, answer);
            let FetchRequest { line, path, .. } = request;
            // The capacity is enough.
            let _pushed = outcomes.push(FetchOutcome { line, path, answer });
        }
        Ok(outcomes)
    }

    /// Asks for one payload file, and takes in what is supplied.
    fn fetch_one<S: Supplier>(
        &mut self,
        alloc: Global,
        name: &str,
        request: &FetchRequest,
        supplier: &mut S,
    ) -> FetchAnswer
        ensures got { (reply : Reply) × (result ≡ told reply)
            × IsReply (S.supply supplier.old) (string_bytes request.now.url) request.now.path reply
            × Runs K.holds K.may_leave K.clean K.failures self.old self.new name.now
            (delivery_by request.now.path reply) }
        ensures same { S.supply supplier.new ≡ S.supply supplier.old }
        ensures failures { CountsEach (supplier_failure result)
            (S.failures supplier.old) (S.failures supplier.new) }
        ensures asks { S.asks supplier.new ≡ one_more (S.asks supplier.old) }
    {
        let path = &request.path;
        match supplier.ask(request.url.as_str(), path.as_str()) {
            Err(Failed) => FetchAnswer::SupplierFailed,
            Ok(false) => FetchAnswer::NotSupplied,
            Ok(true) => match self.take_from(alloc, name, path, supplier) {
                // A path that is held isn't asked for, so this is no repeat.
                Ok(_) => FetchAnswer::Taken,
                Err(fault) => FetchAnswer::Refused(fault),
            },
        }
    }

    /// What to ask for, and what is held.
    fn requests(&mut self, alloc: Global, name: &str) -> Result<Requests, ViewFault>
        ensures looks { Does K.holds K.may_leave K.clean self.old self.new Same }
        ensures prepared { SaysOfState K.holds K.may_leave K.clean self.old self.new (λ now.
            MatchResult result
            (λ requests. IsUnderWay now.held name.now requests.held.items requests.list.items [])
            (λ fault. fault ≡ ViewFault.NoTransfer → IsNamed now.held name.now None)) }
        ensures judged { ¬ IsTransferName name.now → IsErrOf result ViewFault.NoTransfer }
        ensures store { CountsIf ((fault : StoreFault)
            × IsErrOf result (ViewFault.Keeper (KeepFault.Store fault)))
            (K.failures self.old.keeper) (K.failures self.new.keeper) }
    {
        if !self.has_plan(alloc, name)? {
            return Err(ViewFault::NoTransfer);
        }
        let Some(plan) = self.plans.get(name) else {
            return Err(ViewFault::NoTransfer);
        };
        let sizes = self.keeper.sizes(alloc, name)?;
        let paths = plan.paths();
        let held = held_marks(alloc, paths, sizes.as_slice())?;
        let list = requests_of(alloc, plan, paths)?;
        Ok(Requests { list, held })
    }
}

/// Marks those of the paths that are held.
fn held_marks(alloc: Global, paths: &[BagPath], sizes: &[ItemSize]) -> Result<Vec<bool>, AllocError>
    ensures { AreRising paths.now
        → IfOk result (λ marks. AreMarks paths.now marks.items (item_paths sizes.now)) }
{
    let mut marks = vec![in alloc; false; paths.len()]?;
    for size in sizes {
        mark_path(&mut marks, paths, &size.path);
    }
    Ok(marks)
}

/// Marks a path, if it is one of them.
fn mark_path(marks: &mut Vec<bool>, paths: &[BagPath], path: &BagPath)
    ensures { AreRising paths.now → (held : List (List ℕ))
        → AreMarks paths.now marks.old.items held
        → AreMarks paths.now marks.new.items (path.now ∷ held) }
{
    let Some(place) = place_in(paths, path) else {
        return;
    };
    mark(marks, place);
}

/// The entries of `fetch.txt`, each with the place of its path.
fn requests_of(
    alloc: Global,
    plan: &Plan,
    paths: &[BagPath],
) -> Result<Vec<FetchRequest>, AllocError>
    ensures { (tags : Files) → IsPlanOf tags plan.now → IfOk result (λ requests.
        (lines : List FetchLine) × AreFetchLines tags lines
        × AreRequests paths.now lines requests.items) }
{
    let mut requests = Vec::new(alloc);
    for line in plan.fetch() {
        requests.push(request_for(alloc, paths, line)?)?;
    }
    Ok(requests)
}

fn request_for(
    alloc: Global,
    paths: &[BagPath],
    line: &FetchLine,
) -> Result<FetchRequest, AllocError>
    ensures { IfOk result (IsRequest paths.now line.now) }
{
    let FetchLine { line, entry } = line;
    // Every entry that a plan has to fetch is listed.
    let Some(place) = place_in(paths, entry.path()) else {
        return Err(AllocError);
    };
    Ok(FetchRequest {
        line: *line,
        url: String::from_str(alloc, entry.url())?,
        path: entry.path().clone()?,
        place,
    })
}

/// Whether this place is marked.
fn is_marked(marks: &Vec<bool>, place: usize) -> bool
    ensures { IsTrue result ↔ (slice_get marks.now.items place ≡ Some true) }
{
    match marks.get(place) {
        Some(mark) => *mark,
        None => false,
    }
}

/// Marks this place if the payload file was taken.
fn mark_taken(marks: &mut Vec<bool>, place: usize, answer: FetchAnswer)
    ensures taken { answer ≡ FetchAnswer.Taken
        → marks.new.items ≡ slice_set marks.old.items place true }
    ensures others { answer ≢ FetchAnswer.Taken → marks.new.items ≡ marks.old.items }
{
    if answer == FetchAnswer::Taken {
        mark(marks, place);
    }
}

/// Marks this place.
fn mark(marks: &mut Vec<bool>, place: usize)
    ensures { marks.new.items ≡ slice_set marks.old.items place true }
{
    if let Some(mark) = marks.get_mut(place) {
        *mark = true;
    }
}

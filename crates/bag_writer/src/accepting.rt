//! Refuses bags that can't be written, before anything is written.
ghost use Rattle.std.specs.Prelude.{◌≡◌, IfErr, IfOk, List, MatchResult, length, ℕ};
ghost use Rattle.std.specs.List.{list_any};
ghost use Rattle.bag_rules.specs.Trees.{paths_in};
ghost use Rattle.bag_tags.specs.Infos.{is_oxum};
ghost use Rattle.bag_writer.specs.Accepting.{AreMarks, Marks, RefusesHoles};
ghost use Rattle.bag_writer.specs.Steps.{AreHoleMarks};
ghost use Rattle.bag_writer.specs.Writing.{IsAccepted, IsBadHole, IsMetBefore, RefusesBag, payload_paths};
ghost use Rattle.bag_writer.specs.declared.spec.Hole.{Hole};

use crate::spec::{Hole, Spec};
use crate::write_fault::WriteFault;
use bag_path::BagPath;
use bag_rules::{Paths, find, first_folder};
use bag_tags::is_url;
use std::alloc::{AllocError, Global};

/// Marks the files of the tree that are holes, if a bag with them can be written.
///
/// # Errors
///
/// The first of `NoAlgorithm`, `OxumGiven`, `BadHole` and `Clash` that applies, or `Memory` if memory runs out.
pub(crate) fn accepted_holes<P: Paths>(
    alloc: Global,
    tree: &P,
    spec: &Spec,
) -> Result<Vec<bool>, WriteFault>
    ensures accepted { MatchResult result
        (λ marks. IsAccepted (payload_paths (P.shown tree.now)) spec.now)
        (λ fault. RefusesBag (payload_paths (P.shown tree.now)) spec.now fault
        × IsMetBefore fault) }
    ensures marks { IfOk result (λ marks.
        AreHoleMarks (paths_in (P.shown tree.now)) spec.now marks.items) }
{
    if spec.algs.is_empty() {
        return Err(WriteFault::NoAlgorithm);
    }
    if gives_oxum(spec) {
        return Err(WriteFault::OxumGiven);
    }
    let marks = hole_marks(alloc, tree, &spec.holes)?;
    match first_folder(payload_paths(alloc, tree)?)? {
        Some(path) => Err(WriteFault::Clash(path)),
        None => Ok(marks),
    }
}

/// Whether an element is a `Payload-Oxum`. The case of its label doesn't matter.
fn gives_oxum(spec: &Spec) -> bool
    ensures { result ≡ list_any is_oxum spec.now.info }
{
    spec.info.elements().iter().any(|element| element.is_oxum())
}

/// Marks the files of the tree that are holes.
///
/// # Errors
///
/// `BadHole` for the first hole that is bad, or `Memory` if memory runs out.
fn hole_marks<P: Paths>(alloc: Global, tree: &P, holes: &[Hole]) -> Result<Vec<bool>, WriteFault>
    ensures marks { IfOk result (λ marks.
        AreMarks (paths_in (P.shown tree.now)) holes.now marks.items) }
    ensures good { IfOk result (λ marks. (i : ℕ)
        → ¬ IsBadHole (payload_paths (P.shown tree.now)) holes.now i) }
    ensures refused { IfErr result (RefusesHoles (payload_paths (P.shown tree.now)) holes.now) }
{
    let mut marks = vec![in alloc; false; tree.count()]?;
    for (i, hole) in holes.iter().enumerate() {
        if !mark(tree, hole, &mut marks) {
            return Err(WriteFault::BadHole(i));
        }
    }
    Ok(marks)
}

/// Marks a hole and returns whether it is good: it is a payload file, has a URL and isn't marked yet.
fn mark<P: Paths>(tree: &P, hole: &Hole, marks: &mut [bool]) -> bool
    requires { length marks.old ≡ length (paths_in (P.shown tree.now)) }
    ensures { (before : List Hole) → AreMarks (paths_in (P.shown tree.now)) before marks.old
        → Marks (paths_in (P.shown tree.now)) (payload_paths (P.shown tree.now)) before
        hole.now marks.new result }
{
    if !hole.path.is_payload() || !is_url(hole.url.as_bytes()) {
        return false;
    }
    let Some(i) = find(tree, hole.path.as_str()) else {
        return false;
    };
    if marks[i] {
        return false;
    }
    marks[i] = true;
    true
}

/// The paths of the payload files.
fn payload_paths<P: Paths>(alloc: Global, tree: &P) -> Result<Vec<BagPath>, AllocError>
    ensures { IfOk result (λ paths. paths.items ≡ payload_paths (P.shown tree.now)) }
{
    let mut paths = Vec::new(alloc);
    for i in 0..tree.count() {
        let path = tree.path(i);
        if path.is_payload() {
            paths.push(path.clone()?)?;
        }
    }
    Ok(paths)
}

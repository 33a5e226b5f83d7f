//! Delivers the payload files of a tree one after another.
ghost use Rattle.std.specs.Io.KnownBytes.{ReadConsumes};
ghost use Rattle.std.specs.Prelude.{◌≡◌, ◌≤◌, [], IfNone, IfSome, IfOk, IsErr, None, Ok, Some, false, is_some, length, true};
ghost use Rattle.bag_folder.specs.Bringing.{courier_of, IsFoundAt, IsReady, SameItem, left_of, payload_from};

use bag_digest::{Failed, Failures, Source};
use bag_path::BagPath;
use bag_receiver::Courier;
use bag_rules::Tree;
use std::marker::Model;

/// Delivers the payload files of a tree, each once, in the order of their paths.
///
/// A file is opened at its first read. So a file of which nothing is read is never opened, and if a file can't be
/// opened, its first read fails.
#[derive(Drop)]
pub struct TreeCourier<T: Tree> {
    tree: T,
    // where the search for the next file begins
    place: usize,
    // the place of the current file
    came: Option<usize>,
    is_started: bool,
    failures: Failures,
    nexts: u64,
}

impl<T: Tree> Model for TreeCourier<T> {
    ghost use Rattle.bag_folder.specs.Bringing.{Bringing, IsPlaceIn};

    ghost Value = { Bringing T };

    ghost view = { λ courier. record {
      tree = courier.tree;
      place = courier.place;
      came = courier.came;
      is_started = courier.is_started;
      failures = courier.failures;
      nexts = courier.nexts;
    } };

    ghost invariant = { λ courier. IsPlaceIn (T.shown courier.tree) courier.came };
}

impl<T: Tree> TreeCourier<T> {
    /// A courier of this tree's payload files.
    pub fn new(tree: T) -> TreeCourier<T>
        ensures { result ≡ courier_of tree }
    {
        TreeCourier {
            tree,
            place: 0,
            came: None,
            is_started: false,
            failures: Failures::none(),
            nexts: 0,
        }
    }

    /// The tree.
    pub fn tree(&self) -> &T
        ensures { result.now ≡ self.now.tree }
    {
        &self.tree
    }

    /// Reads from the current file, and opens it first if necessary.
    fn read_on(&mut self, buf: &mut [u8]) -> Result<usize, Failed>
        ensures bound { IfOk result (λ n. n ≤ length buf.new) }
        ensures octets { ReadConsumes (left_of T.shown T.remaining self.old)
            (left_of T.shown T.remaining self.new) result buf.new }
        ensures same { SameItem T.shown self.old self.new
            × (self.new.failures ≡ self.old.failures) }
        ensures closed { self.old.came ≡ None → IsErr result }
        ensures ready { IsReady T.sure T.ready self.old → IsReady T.sure T.ready self.new
            × ¬ IsErr result }
    {
        let Some(i) = self.came else {
            return Err(Failed);
        };
        if !self.is_started {
            self.tree.start(i)?;
            self.is_started = true;
        }
        self.tree.read(buf)
    }
}

impl<T: Tree> Source for TreeCourier<T> {
    ghost use Rattle.bag_folder.specs.Bringing.{same_itself, same_on};

    ghost remaining = { left_of T.shown T.remaining };

    ghost failures = { λ courier. courier.failures };

    ghost ready = { IsReady T.sure T.ready };

    ghost is_open = { λ courier. is_some courier.came };

    ghost keeps = { SameItem T.shown };

    fn read(&mut self, buf: &mut [u8]) -> Result<usize, Failed> {
        let answer = self.read_on(buf);
        self.failures.counted(answer)
    }

    fn failures(&self) -> u64 {
        self.failures.count()
    }

    ghost keeps_itself = { same_itself T.shown };

    ghost keeps_on = { same_on T.shown };
}

impl<T: Tree> Courier for TreeCourier<T> {
    ghost use Rattle.bag_folder.specs.Bringing.{BringsNext, current_path, keeps_item, to_come};
    ghost use Rattle.bag_receiver.specs.Couriers.{ComesNext, HasPath};

    ghost coming = { λ courier. to_come (T.shown courier.tree) courier.place };

    ghost path = { λ courier. current_path (T.shown courier.tree) courier.came };

    ghost nexts = { λ courier. courier.nexts };

    ghost steady = { λ _. Unit {0} };

    /// Goes on to the next payload file, without opening it. Never fails.
    fn next(&mut self) -> Result<bool, Failed>
        ensures came { IfOk result (λ more. ComesNext
            (to_come (T.shown self.old.tree) self.old.place) more
            (current_path (T.shown self.new.tree) self.new.came)
            (left_of T.shown T.remaining self.new)
            (to_come (T.shown self.new.tree) self.new.place)) }
        ensures path { HasPath result (current_path (T.shown self.new.tree) self.new.came)
            (is_some self.new.came) }
        ensures answered { result ≡ Ok (is_some self.new.came) }
        ensures exactly { BringsNext T.shown self.old self.new }
    {
        self.nexts = self.nexts.saturating_add(1);
        self.is_started = false;
        self.came = next_payload(&self.tree, self.place);
        if let Some(i) = self.came {
            self.place = i + 1;
        }
        Ok(self.came.is_some())
    }

    fn path(&self) -> &BagPath {
        match self.came {
            Some(i) => self.tree.path(i),
            None => unreachable!(),
        }
    }

    fn nexts(&self) -> u64 {
        self.nexts
    }

    ghost keeps_item = { keeps_item T.shown };
}

/// The place of the first payload file from `place` on.
fn next_payload<T: Tree>(tree: &T, place: usize) -> Option<usize>
    ensures found { IfSome result (IsFoundAt (T.shown tree.now) place) }
    ensures none { IfNone result (payload_from (T.shown tree.now) place ≡ []) }
{
    for i in place..tree.count() {
        if tree.path(i).is_payload() {
            return Some(i);
        }
    }
    None
}

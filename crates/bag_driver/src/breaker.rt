//! Lets one call of a device fail.
use std::cell::Cell;

/// A kind of device.
#[derive(Clone, Copy, PartialEq, Eq)]
pub enum Device {
    Tree,
    Sink,
    Reader,
    Courier,
    Supplier,
    Keeper,
    /// A keeper that gives tag files of which no plan can be made, where it would give those that it holds.
    Tags,
    /// A keeper that gives no octets of a payload file, where it would give a piece.
    Piece,
    /// The reads of pieces of a keeper.
    Reading,
    /// The log of a ledger in files.
    Log,
    /// The database of a ledger in files.
    Database,
    /// Both files: from the call that fails on each call does, until the ledger is opened again.
    Stop,
    /// The same, and only what a sync had reached is left of the files.
    Cut,
    Writer,
}

impl Device {
    /// The kind with this name.
    pub fn of(name: &str) -> Option<Device> {
        match name {
            "tree" => Some(Device::Tree),
            "sink" => Some(Device::Sink),
            "reader" => Some(Device::Reader),
            "courier" => Some(Device::Courier),
            "supplier" => Some(Device::Supplier),
            "keeper" => Some(Device::Keeper),
            "tags" => Some(Device::Tags),
            "piece" => Some(Device::Piece),
            "reading" => Some(Device::Reading),
            "log" => Some(Device::Log),
            "database" => Some(Device::Database),
            "stop" => Some(Device::Stop),
            "cut" => Some(Device::Cut),
            "writer" => Some(Device::Writer),
            _ => None,
        }
    }
}

/// Counts the calls of all devices of one kind, and lets one of them fail, or that and each that follows.
#[derive(Drop)]
pub struct Breaker {
    device: Option<Device>,
    is_lasting: bool,
    // how many calls there are up to the one that fails; 0 if none does
    left: Cell<u64>,
    has_broken: Cell<bool>,
    // whether each call of a file fails
    is_stopped: Cell<bool>,
}

impl Breaker {
    /// Lets the call with this number fail, counted from 1; none if it is 0.
    pub fn new(device: Option<Device>, number: u64) -> Breaker {
        Breaker::of(device, false, number)
    }

    /// Lets each call after so many fail.
    pub fn after(device: Option<Device>, calls: u64) -> Breaker {
        Breaker::of(device, true, calls.saturating_add(1))
    }

    fn of(device: Option<Device>, is_lasting: bool, number: u64) -> Breaker {
        Breaker {
            device,
            is_lasting,
            left: Cell::new(number),
            has_broken: Cell::new(false),
            is_stopped: Cell::new(false),
        }
    }

    /// Lets none fail.
    pub fn none() -> Breaker {
        Breaker::new(None, 0)
    }

    /// Counts a call of a device of this kind. Returns whether it fails.
    pub fn breaks(&self, device: Device) -> bool {
        if self.device != Some(device) {
            return false;
        }
        let left = self.left.get();
        self.left.set(left.saturating_sub(1));
        let breaks = left == 1 || (left == 0 && self.is_lasting);
        if breaks {
            self.has_broken.set(true);
        }
        breaks
    }

    /// Counts a call of this file of a ledger. Returns whether it fails.
    pub fn breaks_file(&self, file: Device) -> bool {
        if self.is_stopped.get() {
            return true;
        }
        let stops = self.breaks(Device::Stop) || self.breaks(Device::Cut);
        self.is_stopped.set(stops);
        stops || self.breaks(file)
    }

    /// Lets the files work again. Returns whether they have lost what no sync had reached.
    pub fn restart(&self) -> bool {
        self.is_stopped.replace(false) && self.device == Some(Device::Cut)
    }

    /// Whether a call has failed since this was asked last.
    pub fn has_broken(&self) -> bool {
        self.has_broken.replace(false)
    }
}

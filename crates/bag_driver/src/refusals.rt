//! Calls that are refused memory, or in which a call of a device fails, for `tests/refusals.py`, which describes the
//! input and the output.
use crate::breaker::{Breaker, Device};
use crate::breaking_keeper::BreakingKeeper;
use crate::event::Event;
use crate::file_keeper::FileKeeper;
use crate::keepers::Reopened;
use crate::lines::{answer_lines, read_lines};
use crate::world::World;
use bag_sqlite::SqlKeeper;
use sqlite::MemStore;
use std::alloc::Global;
use std::io::{self, Write};

/// Makes the calls on standard input, one after another, over the keeper with this name.
pub fn answer_over<W: Write + Drop>(rt: &HostRuntime, keeper: &str, out: &mut W) -> io::Result<u8> {
    let breaker = Breaker::none();
    match keeper {
        "map" => answer_each::<BreakingKeeper<'_>, W>(rt, &breaker, out)?,
        "sqlite" => answer_each::<SqlKeeper<MemStore>, W>(rt, &breaker, out)?,
        _ => return Ok(64),
    }
    Ok(0)
}

/// Makes the calls on standard input over a keeper of this type.
fn answer_each<'a, K: Reopened<'a>, W: Write + Drop>(
    rt: &HostRuntime,
    breaker: &'a Breaker,
    out: &mut W,
) -> io::Result<()> {
    let mut world = World::<K>::new(rt.alloc(), breaker);
    answer_lines(rt, &mut world, out)
}

/// Makes the first of the calls on standard input, as many as the words say, over the keeper that they name, and lets a
/// call of a device fail. All lines are read before the first call, and all memory that they need is asked for.
pub fn answer_refused<W: Write + Drop>(
    rt: &HostRuntime,
    words: &[String],
    out: &mut W,
) -> io::Result<u8> {
    let [_, keeper, most, device, number] = words else {
        return Ok(64);
    };
    let (Ok(most), Ok(number)) = (most.parse::<usize>(), number.parse::<u64>()) else {
        return Ok(64);
    };
    let alloc = rt.alloc();
    let breaker = Breaker::new(Device::of(device.as_str()), number);
    let lines = read_lines(rt)?;
    let mut events = events_of(alloc, lines.as_slice())?;
    answer_by(
        alloc,
        keeper.as_str(),
        &breaker,
        events.as_mut_slice(),
        most,
        out,
    )
}

/// Makes the first of these calls over the keeper with this name.
fn answer_by<W: Write + Drop>(
    alloc: Global,
    keeper: &str,
    breaker: &Breaker,
    events: &mut [Event<'_>],
    most: usize,
    out: &mut W,
) -> io::Result<u8> {
    match keeper {
        "map" | "breaking" => answer_all::<BreakingKeeper<'_>, W>(
            alloc, breaker, events, most, out,
        )?,
        "sqlite" => answer_all::<SqlKeeper<MemStore>, W>(alloc, breaker, events, most, out)?,
        "files" => answer_all::<FileKeeper<'_>, W>(alloc, breaker, events, most, out)?,
        _ => return Ok(64),
    }
    Ok(0)
}

/// The calls that these lines ask for.
fn events_of<'a>(alloc: Global, lines: &'a [String]) -> io::Result<Vec<Event<'a>>> {
    let mut events = Vec::new(alloc);
    for line in lines {
        let words: Vec<&str> = line.split(' ').collect(alloc)?;
        events.push(Event::parse(alloc, words.as_slice())?)?;
    }
    Ok(events)
}

/// Makes the first of these calls over a keeper of this type, and writes each answer in a line, which ends in ` !` if a
/// call of a device failed in it.
fn answer_all<'a, K: Reopened<'a>, W: Write + Drop>(
    alloc: Global,
    breaker: &'a Breaker,
    events: &mut [Event<'_>],
    most: usize,
    out: &mut W,
) -> io::Result<()> {
    let mut world = World::<K>::new(alloc, breaker);
    answer_in(alloc, &mut world, breaker, events, most, out)
}

/// The same, in a world that is new.
fn answer_in<'a, K: Reopened<'a>, W: Write + Drop>(
    alloc: Global,
    world: &mut World<'a, K>,
    breaker: &Breaker,
    events: &mut [Event<'_>],
    most: usize,
    out: &mut W,
) -> io::Result<()> {
    for event in events.iter() {
        world.store(alloc, event)?;
    }
    for event in events.iter_mut().take(most) {
        world.call(alloc, event, out)?;
        writeln!(out, "{}", if breaker.has_broken() { " !" } else { "" })?;
    }
    Ok(())
}

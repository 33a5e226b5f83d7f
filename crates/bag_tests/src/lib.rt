//! Tests of what no line of output shows: misuse, devices that fail inside a call, and values that are read but not
//! printed.
#![tactic(auto)]

#[cfg(test)]
mod folders;
#[cfg(test)]
mod ledgers;
#[cfg(test)]
mod names;
#[cfg(test)]
mod paths;
#[cfg(test)]
mod printing;
#[cfg(test)]
mod puts;
#[cfg(test)]
mod sinks;
#[cfg(test)]
mod sources;
#[cfg(test)]
mod tags;
#[cfg(test)]
mod trees;

//! Tests by public calls, where no command of the program shows what is tested.
//!
//! The tests of the lowest crates call ports, packed words, trees of phasers, and the word that real threads share. The tests
//! of runs cut a schedule anywhere, force threads into an order, and let any call of a port fail. They also test the calls of
//! `headline`.
#![tactic(auto)]

#[cfg(test)]
mod closing_page;
#[cfg(test)]
mod failing_ports;
#[cfg(test)]
mod limits;
#[cfg(test)]
mod names;
#[cfg(test)]
mod orders;
#[cfg(test)]
mod pauses;
#[cfg(test)]
mod port_callers;
#[cfg(test)]
mod programs;
#[cfg(test)]
mod schedules;
#[cfg(test)]
mod shared_callers;
#[cfg(test)]
mod std_ports;
#[cfg(test)]
mod taking;
#[cfg(test)]
mod trees;
#[cfg(test)]
mod words;

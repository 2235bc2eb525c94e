//! Tests of calls that no program reaches, by layer, with values from outside the code: programs and networks, plans,
//! configurations and devices, worlds, logs and replays, runs, and the line of a difference.
#![tactic(auto)]

#[cfg(test)]
mod configurations;
#[cfg(test)]
mod devices;
#[cfg(test)]
mod differences;
#[cfg(test)]
mod events;
#[cfg(test)]
mod finishing;
#[cfg(test)]
mod fixtures;
#[cfg(test)]
mod logs;
#[cfg(test)]
mod memory;
#[cfg(test)]
mod networks;
#[cfg(test)]
mod plans;
#[cfg(test)]
mod programs;
#[cfg(test)]
mod promises;
#[cfg(test)]
mod replays;
#[cfg(test)]
mod results;
#[cfg(test)]
mod runs;
#[cfg(test)]
mod turns;
#[cfg(test)]
mod walks;

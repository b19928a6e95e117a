//! Tests of segments over a world in memory, and of the patches, the data and the tables that stand in them:
//! what was written is read back with two drives pulled, faults are told apart, and how many calls it takes.
#![tactic(auto)]

#[cfg(test)]
mod data;
#[cfg(test)]
mod patches;
#[cfg(test)]
mod segments;
#[cfg(test)]
mod stage;
#[cfg(test)]
mod tables;

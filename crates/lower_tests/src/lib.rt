//! Tests of what calls no device: vectors by hand from docs/FORMAT.md or from outside for names, codecs and parities, the tables in memory, chains of mediums, the map of units,
//! the index of hints, the plain array, and what a checkpoint plans and the next boot record says of it. Each call once on its happy path.
#![tactic(auto)]

#[cfg(test)]
mod addresses;
#[cfg(test)]
mod boot_records;
#[cfg(test)]
mod chained;
#[cfg(test)]
mod checkpoints;
#[cfg(test)]
mod commands;
#[cfg(test)]
mod elisions;
#[cfg(test)]
mod facts;
#[cfg(test)]
mod fields;
#[cfg(test)]
mod headers;
#[cfg(test)]
mod hints;
#[cfg(test)]
mod mediums;
#[cfg(test)]
mod names;
#[cfg(test)]
mod objects;
#[cfg(test)]
mod parity;
#[cfg(test)]
mod patches;
#[cfg(test)]
mod plain;
#[cfg(test)]
mod pyramids;
#[cfg(test)]
mod room;
#[cfg(test)]
mod segments;
#[cfg(test)]
mod units;

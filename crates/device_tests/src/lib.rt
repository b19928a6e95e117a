//! Tests of the worlds in memory and over files, of the reader and the writer, and over a world in memory of what stands on devices of their own:
//! the boot region, the log, the register over both, and the making of an array. Calls fail, stops come in the middle, and what is left then is seen.
#![tactic(auto)]

#[cfg(test)]
mod clients;
#[cfg(test)]
mod files;
#[cfg(test)]
mod logs;
#[cfg(test)]
mod making;
#[cfg(test)]
mod records;
#[cfg(test)]
mod registers;
#[cfg(test)]
mod requests;
#[cfg(test)]
mod stage;
#[cfg(test)]
mod worlds;

//! Tests of a journal over disks in memory.
#![tactic(auto)]

#[cfg(test)]
mod bytes;
#[cfg(test)]
mod crashes;
#[cfg(test)]
mod sale;
#[cfg(test)]
mod storages;

//! Tests of stores and links over a specification that is read.
#![tactic(auto)]

#[cfg(test)]
mod link_tests;
#[cfg(test)]
mod links;
#[cfg(test)]
mod shop;
#[cfg(test)]
mod store_tests;
#[cfg(test)]
mod stores;

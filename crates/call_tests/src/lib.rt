//! Tests of public calls that the program doesn't make.
#![tactic(auto)]

#[cfg(test)]
mod documents;
#[cfg(test)]
mod effects;
#[cfg(test)]
mod pairs;
#[cfg(test)]
mod tests;

//! Tests of the bytes of a batch.
#![tactic(auto)]

#[cfg(test)]
mod first_sale;

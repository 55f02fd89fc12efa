//! Tests of calls below `canvas`, each on values that are worked out by hand. Nothing stands on this crate, so that the crates
//! that it tests are proved once.
#![tactic(auto)]

#[cfg(test)]
mod abstractions;
#[cfg(test)]
mod clients;
#[cfg(test)]
mod closures;
#[cfg(test)]
mod disjuncts;
#[cfg(test)]
mod heaps;
#[cfg(test)]
mod name_tables;
#[cfg(test)]
mod outside;
#[cfg(test)]
mod printing;
#[cfg(test)]
mod questions;
#[cfg(test)]
mod reading;
#[cfg(test)]
mod rules;
#[cfg(test)]
mod sets_of_names;
#[cfg(test)]
mod specifications;
#[cfg(test)]
mod token_lists;

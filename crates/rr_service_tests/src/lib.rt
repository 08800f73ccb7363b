//! Tests of stores and desks over databases in memory, and of the connections that desks serve:
//! what stands after submissions, migrations and stops, and after faults of readers, writers and
//! the store; what connections want, and what they are answered. What is expected comes from the
//! rules, read by hand.
#![tactic(auto)]

#[cfg(test)]
mod connections;
#[cfg(test)]
mod databases;
#[cfg(test)]
mod desk_tests;
#[cfg(test)]
mod desks;
pub mod memory_peers;
#[cfg(test)]
mod migration_tests;
#[cfg(test)]
mod request_tests;
#[cfg(test)]
mod serving_tests;
#[cfg(test)]
mod stop_tests;
#[cfg(test)]
mod stopped;
#[cfg(test)]
mod store_tests;
#[cfg(test)]
mod texts;
#[cfg(test)]
mod turn_tests;

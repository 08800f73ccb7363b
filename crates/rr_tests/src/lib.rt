//! Tests in memory of what no use of the program shows: streams that fail, spans in trees and
//! nests, questions that the program does not ask; and seeded items and answers on registries in
//! either book. What is expected comes from the rules, read by hand. Worked cases that the program
//! shows are in `checks/submissions`.
#![tactic(auto)]

#[cfg(test)]
mod address_tests;
#[cfg(test)]
mod book_tests;
#[cfg(test)]
mod books;
#[cfg(test)]
mod collection_tests;
#[cfg(test)]
mod collections;
#[cfg(test)]
mod cover_tests;
#[cfg(test)]
mod hostile_tests;
#[cfg(test)]
mod io_tests;
#[cfg(test)]
mod reader_tests;
#[cfg(test)]
mod sequence_tests;
#[cfg(test)]
mod stream_tests;
#[cfg(test)]
mod text_tests;
#[cfg(test)]
mod texts;
#[cfg(test)]
mod told;
#[cfg(test)]
mod worked_tests;

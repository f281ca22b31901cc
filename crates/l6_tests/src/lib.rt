//! Tests of the libraries' calls: tables of values that were worked out by hand or come from a plain
//! model. They are in a crate of their own, since a crate that has tests is proved twice.
#![tactic(auto)]

#[cfg(test)]
mod assemblies;
#[cfg(test)]
mod buddy_stores;
#[cfg(test)]
mod copies;
#[cfg(test)]
mod decks;
#[cfg(test)]
mod devices;
#[cfg(test)]
mod drawings;
#[cfg(test)]
mod faults;
#[cfg(test)]
mod free_lists;
#[cfg(test)]
mod histories;
#[cfg(test)]
mod images;
#[cfg(test)]
mod listings;
#[cfg(test)]
mod machines;
#[cfg(test)]
mod own_stores;
#[cfg(test)]
mod places;
#[cfg(test)]
mod regions;
#[cfg(test)]
mod scan_stores;
#[cfg(test)]
mod using_a_store;

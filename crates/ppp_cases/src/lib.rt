//! Cases of the crates below the world, by crate: values that the standards give, forms of text, and each public call once.
//! There is nothing here but tests, and in [`entries`] what judges a case of them. They stand in a crate of their own since a
//! crate with tests is proved twice.
#![tactic(auto)]

#[cfg(test)]
mod automaton;
pub mod entries;
#[cfg(test)]
mod feed;
#[cfg(test)]
mod frame;
#[cfg(test)]
mod io;
#[cfg(test)]
mod packet;
#[cfg(test)]
mod script;
#[cfg(test)]
mod text;

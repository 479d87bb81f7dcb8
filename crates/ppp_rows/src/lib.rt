//! Worked runs of the whole program, each once, as rows of tables. There is nothing here but tests, and in [`worlds`] what does
//! the events of a case.
#![tactic(auto)]

#[cfg(test)]
mod bundles;
#[cfg(test)]
mod calls;
#[cfg(test)]
mod ends;
#[cfg(test)]
mod rows;
#[cfg(test)]
mod world;
pub mod worlds;

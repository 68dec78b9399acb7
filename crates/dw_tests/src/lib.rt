//! Tests of the libraries: public calls whose results no run of the program shows, and values that no clause says.
#![tactic(auto)]

#[cfg(test)]
mod addresses;
#[cfg(test)]
mod agreement;
#[cfg(test)]
mod calling;
#[cfg(test)]
mod cprint;
#[cfg(test)]
mod elf;
#[cfg(test)]
mod entries;
#[cfg(test)]
mod forms;
#[cfg(test)]
mod image;
#[cfg(test)]
mod lines;
#[cfg(test)]
mod links;
#[cfg(test)]
mod ranges;
#[cfg(test)]
mod spans;
#[cfg(test)]
mod surface;
#[cfg(test)]
mod types;
#[cfg(test)]
mod vectors;

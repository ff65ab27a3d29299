// Examples of the rules, run as tests.
#![tactic(auto)]

#[cfg(test)]
mod balances;
#[cfg(test)]
mod checks;
#[cfg(test)]
mod copies;
mod deposits;
#[cfg(test)]
mod examples;
#[cfg(test)]
mod fields;
#[cfg(test)]
mod files;
#[cfg(test)]
mod free_codes;
#[cfg(test)]
mod letters;
#[cfg(test)]
mod mixes;
#[cfg(test)]
mod readings;
#[cfg(test)]
mod records;
#[cfg(test)]
mod sections;
#[cfg(test)]
mod shelves;
#[cfg(test)]
mod showings;
#[cfg(test)]
mod strangers;
#[cfg(test)]
mod tables;
mod tokens;
#[cfg(test)]
mod twinned;
#[cfg(test)]
mod volumes;

pub use deposits::{deposit_and_show, deposit_twice};

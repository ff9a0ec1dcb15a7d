// Tests of the library's calls, one after another, on tables of their own.
#![tactic(auto)]

#[cfg(test)]
mod levels;
#[cfg(test)]
mod longer;
#[cfg(test)]
mod published;
#[cfg(test)]
mod tables;

//! Tests over every character, every escape and every length, which take minutes without
//! optimization. The shorter ones are in `litrs_tests`.
#![tactic(auto)]

#[cfg(test)]
mod built_characters;
#[cfg(test)]
mod lengths;
#[cfg(test)]
mod rewritten;

//! Tests of facts that no contract states, over the public calls of all crates. Calls that allocate
//! succeed while there is memory, and ask for a known amount. Other tests are about texts printed
//! at a width, at a precision or in color, the number of calls of devices, and the sizes of types.
#![tactic(auto)]

#[cfg(test)]
mod built;
#[cfg(test)]
mod colors;
#[cfg(test)]
mod lines;
#[cfg(test)]
mod printing;
#[cfg(test)]
mod sizes;
#[cfg(test)]
mod tokens;

// Tests of the report and fault types, the check of a text, plain globs, recorded answers, lines and picking.
#![tactic(auto)]

#[cfg(test)]
mod globs;
#[cfg(test)]
mod picks;
#[cfg(test)]
mod refusals;

// Tests of the hierarchies on keys of every kind, valid or not, against what the rules say of them.
#![tactic(auto)]

#[cfg(test)]
mod addresses;
#[cfg(test)]
mod places;

//! A report that has every form of line, and those of worked texts, beside their texts.
#![tactic(auto)]

#[cfg(test)]
mod parts;
#[cfg(test)]
mod rows;
#[cfg(test)]
mod table;
#[cfg(test)]
mod whole;

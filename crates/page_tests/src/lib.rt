// Examples of pages of an index.
#![tactic(auto)]

#[cfg(test)]
mod shown;

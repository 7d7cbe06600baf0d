// Examples of records, pages and buckets.
#![tactic(auto)]

#[cfg(test)]
mod pages;
#[cfg(test)]
mod reading;

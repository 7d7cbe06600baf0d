// Examples of the devices and of the copy between two of them.
#![tactic(auto)]

#[cfg(test)]
mod copies;
#[cfg(test)]
mod images;
#[cfg(test)]
mod logs;
#[cfg(test)]
mod windows;

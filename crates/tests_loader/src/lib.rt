//! Tests of loaders: images that are loaded or refused, command lines and initrds.
#![tactic(auto)]

#[cfg(test)]
mod bzimages;
#[cfg(test)]
mod counts;
#[cfg(test)]
mod elves;
#[cfg(test)]
mod files;
#[cfg(test)]
mod images;
#[cfg(test)]
mod lines;
#[cfg(test)]
mod long;
#[cfg(test)]
mod slow;
#[cfg(test)]
mod small;

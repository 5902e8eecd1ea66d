//! Tests of texts: pages and sinks in memory and real files, the lines of a day of either form, whole publications, texts that come in
//! pieces, parts as JSON, and the words of a command.
//!
//! They call what is public alone, so they stand apart from what they test, which then is proved once.
#![tactic(auto)]

#[cfg(test)]
mod feed;
#[cfg(test)]
mod files;
#[cfg(test)]
mod lines;
#[cfg(test)]
mod outside;
#[cfg(test)]
mod pieces;
#[cfg(test)]
mod printing;
#[cfg(test)]
mod publications;
#[cfg(test)]
mod reach_lines;
#[cfg(test)]
mod same;
#[cfg(test)]
mod texts;
#[cfg(test)]
mod words;

//! Tests of calls behind the commands that no row of words and files makes: of words, files, times, least offsets, gate lists and
//! replays. A crate with tests is proved twice, so they stand apart.
#![tactic(auto)]

#[cfg(test)]
mod arguments;
#[cfg(test)]
mod devices;
#[cfg(test)]
mod explained;
#[cfg(test)]
mod files;
#[cfg(test)]
mod gate_lists;
#[cfg(test)]
mod offsets;
#[cfg(test)]
mod replays;
#[cfg(test)]
mod texts;
#[cfg(test)]
mod words;
#[cfg(test)]
mod written;

//! Tests of what stands between the program and the host: the words of the command line, the messages on standard error, and the
//! real files and output.
#![tactic(auto)]

#[cfg(test)]
mod devices;
#[cfg(test)]
mod endings;
#[cfg(test)]
mod messages;
#[cfg(test)]
mod notes;
#[cfg(test)]
mod refused_words;
#[cfg(test)]
mod words;

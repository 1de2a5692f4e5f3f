//! Tests of data channels: what their calls answer between the sides of a pair and over two associations, runs of new
//! pairs, and DATA_CHANNEL_OPEN by itself.
#![tactic(auto)]

#[cfg(test)]
mod callers;
#[cfg(test)]
mod lines;
#[cfg(test)]
mod open_messages;
#[cfg(test)]
mod port;
#[cfg(test)]
mod scenes;

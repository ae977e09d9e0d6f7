// Tests of the libraries on examples, in a crate of their own: a crate with tests is proved twice.
#![tactic(auto)]

#[cfg(test)]
mod of_circuits;
#[cfg(test)]
mod of_devices;
#[cfg(test)]
mod of_groups;
#[cfg(test)]
mod of_layout;
#[cfg(test)]
mod of_layout_writer;
#[cfg(test)]
mod of_nets;
#[cfg(test)]
mod of_rule_text;
#[cfg(test)]
mod of_text;
#[cfg(test)]
mod of_tiles;

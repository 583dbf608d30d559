//! Cases of the devices: a reader and a writer that fail, files in a folder, the system's clock, and the line of each status. The
//! crate has no code of its own.
#![tactic(auto)]

#[cfg(test)]
mod real_devices;

//! Tests of sessions: rows of scripts with their answers, scripts that are cut, and devices that fail.
#![tactic(auto)]

#[cfg(test)]
mod assertions;
#[cfg(test)]
mod cut_scripts;
#[cfg(test)]
mod devices;
#[cfg(test)]
mod fakes;
#[cfg(test)]
mod rows;
#[cfg(test)]
mod sessions;

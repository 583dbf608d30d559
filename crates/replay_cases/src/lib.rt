//! Tests of the words of the command line, of script lines, of sessions and of runs.
#![tactic(auto)]

#[cfg(test)]
mod configured;
#[cfg(test)]
mod declared;
#[cfg(test)]
mod done;
#[cfg(test)]
mod editing;
#[cfg(test)]
mod filed;
#[cfg(test)]
mod filtered;
#[cfg(test)]
mod lines;
#[cfg(test)]
mod making;
#[cfg(test)]
mod maps;
#[cfg(test)]
mod replaying;
#[cfg(test)]
mod replies_written;
#[cfg(test)]
mod runs;
#[cfg(test)]
mod script_lines;
#[cfg(test)]
mod selections;
#[cfg(test)]
mod shown;
#[cfg(test)]
mod talking;
#[cfg(test)]
mod updates;
#[cfg(test)]
mod words_read;

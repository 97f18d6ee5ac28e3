//! Trials, by calls, of what no test row of the program shows: commands as a list, and streams,
//! over maps and a database; a shelf, ends of a stream, and files that fail at each call;
//! connections; how many rows a step writes; and the public calls that the program does not make.
#![tactic(auto)]

#[cfg(test)]
mod asking;
#[cfg(test)]
mod ends;
#[cfg(test)]
mod files;
#[cfg(test)]
mod refusing;
#[cfg(test)]
mod streams;
#[cfg(test)]
mod worked;

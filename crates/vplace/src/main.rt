//! `vplace`, the program: its words, the files that they name, and what is printed on the two outputs.
#![tactic(auto)]

mod arguments;
mod check_command;
#[cfg(test)]
mod desk;
mod environment;
mod example;
mod files;
mod flags;
mod forecast;
mod host_files;
mod kept;
mod laws;
mod messages;
#[cfg(test)]
mod narrow;
mod options;
mod out_file;
mod out_names;
mod patient;
mod place_command;
mod place_flags;
#[cfg(test)]
mod placing_tests;
mod program;
mod reading;
#[cfg(test)]
mod refused_tests;
mod requests;
mod results;
mod resume_command;
mod resume_flags;
#[cfg(test)]
mod resuming_tests;
mod status;
mod streams;
#[cfg(test)]
mod tests;

use arguments::given_words;
use fab_text::Counted;
use host_files::HostFiles;
use patient::Patient;
use std::io;
use std::process::ExitCode;
use streams::taken;

fn main(rt: HostRuntime) -> ExitCode {
    // Holds a descriptor for each standard stream that is closed, until the run is over.
    let _streams = (taken(&rt), taken(&rt), taken(&rt));
    let mut out = Counted::new(Patient {
        inner: io::writer(&rt),
    });
    let mut err = Counted::new(Patient { inner: rt.stderr() });
    let status = match given_words(&rt) {
        Ok(words) => program::program(
            &rt,
            words.as_slice(),
            &mut HostFiles::new(&rt),
            &mut out,
            &mut err,
        ),
        Err(_) => messages::no_memory(&mut err).code(),
    };
    ExitCode::from(status)
}

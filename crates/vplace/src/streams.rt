//! The numbers of the standard streams. If one of them is closed, the next file that is opened would get its number, and then what is
//! written to the stream: the part file of a run could get the report. So the program first takes the number of a closed stream.

use std::fs::File;
use std::os::fd::AsRawFd;

// The numbers of the standard streams are below this one.
const STREAMS: i32 = 3;

/// Takes the least number of a closed standard stream, if there is one. It opens a folder with this number, which can be neither read as a
/// file nor written. So a closed output fails as it should.
pub fn taken(rt: &HostRuntime) -> Option<File> {
    match File::open(rt, "/") {
        Ok(folder) if folder.as_raw_fd() < STREAMS => Some(folder),
        _ => None,
    }
}

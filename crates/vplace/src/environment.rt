//! What a subcommand works in, besides what is asked of it.

use crate::files::NamedFiles;
use crate::out_names::OutNames;

/// What a run is made in: the system, the files by name, and the names of the files that the run may leave.
#[derive(Drop)]
pub struct Environment<'a, R, F: NamedFiles> {
    pub rt: &'a R,
    pub files: &'a F,
    pub names: OutNames<'a>,
}

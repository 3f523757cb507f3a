//! The names of the files that a run may leave.

ghost use Rattle.std.specs.Prelude.{◌≡◌};
ghost use Rattle.vplace.specs.Leaving.{point_name};

/// The names of the files that a run may leave.
#[derive(Clone, Copy, Debug)]
pub struct OutNames<'a> {
    /// The out name: that of the placement of a run that finishes.
    pub out: &'a [u8],
    /// The save name: that of the checkpoint of a run that stops, if a stop is requested.
    pub save: Option<&'a [u8]>,
}

impl<'a> OutNames<'a> {
    /// The name of a checkpoint: the save name. A run that stops has one.
    pub fn of_point(&self) -> &'a [u8]
        ensures { result.now ≡ point_name self.now }
    {
        match self.save {
            Some(save) => save,
            None => self.out,
        }
    }
}

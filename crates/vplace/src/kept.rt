//! What a run that may stop prepares before its first move. After its last move only the text of the checkpoint needs memory.

ghost use Rattle.std.specs.Prelude.{◌≡◌, IfOk};
ghost use Rattle.fab_text.specs.Lines.{lines};
ghost use Rattle.fab_run.specs.PointMeaning.{StandsForPoint};
ghost use Rattle.fab_run.specs.PointText.{IsWritable, point_text};
ghost use Rattle.vplace.specs.Forecasts.{forecast_in};

use crate::forecast::Forecast;
use fab_arch::Grid;
use fab_net::Design;
use fab_run::{Point, write_point};
use fab_text::Counted;
use std::alloc::{AllocError, Global};

/// What a run that may stop keeps for its checkpoint.
#[derive(Drop)]
pub struct Kept {
    pub seed: u64,
    pub design: Design,
    pub grid: Grid,
    pub forecast: Forecast,
}

/// How a run ends, as far as it is known before its first move. Nothing is kept of a run without a stop, which finishes.
pub fn forecast_by(kept: &Option<Kept>) -> Forecast
    ensures { result ≡ forecast_in kept.now }
{
    match kept {
        Some(kept) => kept.forecast,
        None => Forecast::Finishes,
    }
}

impl Kept {
    /// The text of a point of the run.
    pub fn text_of(&self, alloc: Global, point: &Point) -> Result<Vec<u8>, AllocError>
        requires { IsWritable self.now.design self.now.grid point.now }
        ensures exact { IfOk result (λ text.
            text.items ≡ point_text self.now.seed self.now.design self.now.grid point.now) }
        ensures back { IfOk result (λ text.
            StandsForPoint self.now.grid.io_rat self.now.design (lines text.items) self.now.seed
            self.now.grid point.now) }
    {
        let mut text = Counted::new(Vec::new(alloc));
        match write_point(alloc, &mut text, self.seed, &self.design, &self.grid, point) {
            Ok(()) => Ok(text.into_inner()),
            // A vector refuses bytes only if memory runs out.
            Err(_) => Err(AllocError),
        }
    }
}

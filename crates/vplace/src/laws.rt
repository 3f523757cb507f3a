//! Laws about runs and calls of the program. A function whose contract is a law has an empty body.

ghost use Rattle.vplace.specs.FileChains.{PiecesAreOneRun, UnbrokenCallsAreTold};
ghost use Rattle.vplace.specs.Foreseen.{ResumedEndAsForecast, RunsEndAsForecast};

/// The law that the pieces of a run are the run. Let `place` stop, let each `resume` go on from the checkpoint that the call before it
/// saved, and let the last one finish. Then the reports joined are the report of one call of `place` without a stop, and the file at the
/// last out name is the text of its placement. So each such call that finds the same texts writes these bytes, whatever its batch and
/// workers.
pub fn pieces_are_one_run()
    ensures one { PiecesAreOneRun }
    ensures told { UnbrokenCallsAreTold }
{}

/// The law that a run ends only as it is forecast before its first move. If the forecast of its schedule, beginning and stop is
/// `Forecast::Finishes`, it finishes. If the forecast is `Forecast::Stops`, it stops. So each file that a run leaves is one that the
/// forecast allows (`Forecast::may_leave`). The same holds for a run that goes on from a checkpoint text.
pub fn forecasts_hold()
    ensures runs { RunsEndAsForecast }
    ensures resumed { ResumedEndAsForecast }
{}

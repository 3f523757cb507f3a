//! The subcommand `resume`. It reads all files before it looks at the first text. After the run has answered, it writes the placement, or
//! the checkpoint of a run that stopped again.

ghost use Rattle.std.specs.Prelude.{◌≡◌, ◌≢◌, ◌⊎◌, ℕ, List, [], Option, Some, None, OnOk, OnErr, IfOk, IfErr, IfSome, option_copied, option_map};
ghost use Rattle.fab_text.specs.Failures.{grown};
ghost use Rattle.fab_commit.specs.Run.Points.{done_at};
ghost use Rattle.fab_run.specs.Check.{IsTextFault, report_failed_with};
ghost use Rattle.fab_run.specs.Ends.{Answer};
ghost use Rattle.fab_run.specs.Going.{Going, HasPoint, IsGoing, IsGoingFault, IsGoingTextFault};
ghost use Rattle.fab_run.specs.Placed.{AskToGoOn, IsPlaced, IsReportBegun};
ghost use Rattle.fab_run.specs.Setting.{Texts, texts_of};
ghost use Rattle.fab_run.specs.RunChecks.{IsRefusal};
ghost use Rattle.fab_run.specs.declared.fault.RunFault.{RunFault as RunFaultOf};
ghost use Rattle.fab_run.specs.declared.fault.RunFault.TheVariants.{NoMemory};
ghost use Rattle.vplace.specs.Status.{IsRefused, status_of};
ghost use Rattle.vplace.specs.Asked.{IsResumeFault, stop_asked};
ghost use Rattle.vplace.specs.Forecasts.{IsForecast, forecast_in};
ghost use Rattle.vplace.specs.Leaving.{AreLeft, IsCheckpoint, IsDeviceTold, IsShutFor, IsTriedInVain, plan_of};
ghost use Rattle.vplace.specs.Said.{IsFaultSaid, IsSaid, IsToldRefusal, no_memory_line, report_line, unwritable_line, word_fault_line};
ghost use Rattle.vplace.specs.Files.{Held};
ghost use Rattle.vplace.specs.Resuming.{AreNamedToResume, AreUnreadToResume, DidResume, save_name};
ghost use Rattle.vplace.specs.declared.requests.WordFault.{WordFault as WordFaultOf};
ghost use Rattle.vplace.specs.declared.messages.OutRole.{OutRole as OutRoleOf};

use crate::environment::Environment;
use crate::files::NamedFiles;
use crate::forecast::{forecast_for, moves_made};
use crate::kept::{Kept, forecast_by};
use crate::messages;
use crate::messages::Role;
use crate::out_file::{OutFile, Planned};
use crate::out_names::OutNames;
use crate::reading::{read_arch_and_net, read_role};
use crate::requests::{ResumeWords, stop_of};
use crate::results::{Left, arch_and_design, leave, left_by};
use crate::status::Status;
use fab_file::Labels;
use fab_run::{CountedOutcome, Ending, Inputs, Restart, RunFault, read_point, resume_run_counted};
use fab_text::Sink;
use std::alloc::Global;
use std::marker::Brand;
use std::sync::Wait;
use std::thread::Threads;

/// The texts of the files that a resumed run reads.
#[derive(Drop)]
struct Read {
    arch: Vec<u8>,
    net: Vec<u8>,
    point: Vec<u8>,
}

/// Reads all files of a resumed run, in the order architecture, netlist, checkpoint.
fn read_texts<F: NamedFiles, E: Sink>(
    alloc: Global,
    files: &F,
    words: &ResumeWords,
    err: &mut E,
) -> Result<Read, Status>
    ensures gives { IfOk result (λ read.
        AreNamedToResume (F.held files.now) words.now
        (record {
          arch = read.arch.items;
          net = read.net.items;
          pads = None;
          net_label = words.now.net.items;
          arch_label = words.now.arch.items;
        })
        read.point.items) }
    ensures unread { IfErr result (λ status.
        AreUnreadToResume (F.held files.now) words.now status (λ line.
        IsSaid line (E.contents err.old) (E.contents err.new) (E.failed err.old)
        (E.failed err.new))) }
    ensures quiet { OnOk result (E.contents err.new ≡ E.contents err.old) }
    ensures still { OnOk result (E.failed err.new ≡ E.failed err.old) }
    ensures said { OnErr result
        (IsFaultSaid (E.contents err.old) (E.contents err.new) (E.failed err.old)
        (E.failed err.new)) }
    ensures open { IfErr result (λ status. (status ≡ Status.Device) ⊎ (status ≡ Status.NoMemory)) }
{
    let (arch, net) = read_arch_and_net(
        alloc,
        files,
        words.arch.as_slice(),
        words.net.as_slice(),
        err,
    )?;
    let point = read_role(alloc, files, Role::Point, words.point.as_slice(), err)?;
    Ok(Read { arch, net, point })
}

/// Reads what a resumed run with a stop keeps for its checkpoint; this makes the first three checks of the run. A run without a stop keeps
/// nothing.
fn keep(alloc: Global, inputs: &Inputs, restart: &Restart) -> Result<Option<Kept>, RunFault>
    ensures none { IfOk result (λ kept. kept ≡ None → restart.now.stop ≡ None) }
    ensures kept { IfOk result (λ kept.
        (s : Going) → HasPoint (texts_of inputs.now) restart.now.point.now s →
        IsForecast s.point.schedule (done_at s.point) restart.now.stop (forecast_in kept) ×
        IfSome kept (λ k. (k.seed ≡ s.seed) × (k.design ≡ s.design) × (k.grid ≡ s.grid))) }
    ensures only { (s : Going) → HasPoint (texts_of inputs.now) restart.now.point.now s →
        IfErr result (λ e. e ≡ NoMemory) }
    ensures fault { IfErr result (IsGoingTextFault (texts_of inputs.now) restart.now.point.now) }
    ensures text { IfErr result IsTextFault }
{
    if restart.stop.is_none() {
        return Ok(None);
    }
    let (arch, design) = arch_and_design(alloc, inputs)?;
    let (seed, grid, point) = read_point(alloc, restart.point, &arch, &design)?;
    let forecast = forecast_for(&point.schedule, moves_made(&point), restart.stop);
    Ok(Some(Kept {
        seed,
        design,
        grid,
        forecast,
    }))
}

/// Resumes a run. Returns the text of the point where it stopped, if it did. If `kept` is `None`, the run has no stop, and does not stop.
fn run_on<R: AllocGlobal + Threads + Wait + Sync, O: Sink, P: Sink>(
    rt: &R,
    inputs: &Inputs,
    restart: &Restart,
    kept: &Option<Kept>,
    out: &mut O,
    place: &mut P,
) -> Result<Option<Vec<u8>>, RunFault>
    requires none { kept.now ≡ None → restart.now.stop ≡ None }
    requires kept { (s : Going) → HasPoint (texts_of inputs.now) restart.now.point.now s →
        IfSome kept.now (λ k. (k.seed ≡ s.seed) × (k.design ≡ s.design) × (k.grid ≡ s.grid)) }
    ensures placed { IfOk result (λ point.
        (s : Going) × HasPoint (texts_of inputs.now) restart.now.point.now s ×
        ((a : Answer) ×
        IsPlaced (AskToGoOn (texts_of inputs.now) restart.now.point.now restart.now.batch
        restart.now.workers restart.now.stop) (texts_of inputs.now) a (O.contents out.old)
        (O.contents out.new) (P.contents place.old) (P.contents place.new) ×
        IsCheckpoint (texts_of inputs.now) s.seed a.ending
        (option_map (λ bytes. bytes.items) point))) }
    ensures only { (s : Going) →
        IsGoing (texts_of inputs.now) restart.now.point.now restart.now.batch restart.now.workers
        s → IfErr result (λ e. ¬ IsRefusal e) }
    ensures fault { IfErr result
        (IsGoingFault (texts_of inputs.now) restart.now.point.now restart.now.batch
        restart.now.workers) }
    ensures silent { IfErr result (λ e. IsRefusal e → O.contents out.new ≡ O.contents out.old) }
    ensures cut { OnErr result ((O.contents out.new ≡ O.contents out.old) ⊎
        IsReportBegun
        (AskToGoOn (texts_of inputs.now) restart.now.point.now restart.now.batch
        restart.now.workers restart.now.stop) (O.contents out.old) (O.contents out.new)) }
    ensures sound { OnOk result (O.failed out.new ≡ O.failed out.old) }
    ensures failed { IfErr result (λ e.
        O.failed out.new ≡ report_failed_with e (O.failed out.old)) }
{
    let CountedOutcome { ending, .. } = resume_run_counted(rt, inputs, restart, out, place)?;
    match ending {
        Ending::Finished => Ok(None),
        Ending::Stopped(point) => match kept {
            Some(kept) => Ok(Some(kept.text_of(rt.alloc(), &point)?)),
            None => Ok(None),
        },
    }
}

/// Resumes a run that keeps `kept` for its checkpoint, and writes the report.
fn resume_kept<R: AllocGlobal + Threads + Wait + Sync, F: NamedFiles, O: Sink, E: Sink, N: Planned>(
    environment: &Environment<'_, R, F>,
    inputs: &Inputs,
    restart: &Restart,
    kept: &Option<Kept>,
    out: &mut O,
    err: &mut E,
) -> Result<Left<F::Outlet>, Status>
    requires plan { plan_of environment.now.names (forecast_in kept.now)
        (F.shut environment.now.files.now) ≡ N.plan }
    requires none { kept.now ≡ None → restart.now.stop ≡ None }
    requires kept { (s : Going) → HasPoint (texts_of inputs.now) restart.now.point.now s →
        IfSome kept.now (λ k. (k.seed ≡ s.seed) × (k.design ≡ s.design) × (k.grid ≡ s.grid)) }
    ensures placed { IfOk result (λ left.
        (s : Going) × HasPoint (texts_of inputs.now) restart.now.point.now s ×
        AreLeft (AskToGoOn (texts_of inputs.now) restart.now.point.now restart.now.batch
        restart.now.workers restart.now.stop) (texts_of inputs.now) s.seed (O.contents out.old)
        (O.contents out.new) left.place.items (option_map (λ bytes. bytes.items) left.point)) }
    ensures at_out { IfOk result (λ left.
        IfSome left.out (λ outlet. F.name_of outlet ≡ environment.now.names.out.now)) }
    ensures at_save { IfOk result (λ left.
        IfSome left.save (λ outlet.
        Some (F.name_of outlet) ≡ option_copied environment.now.names.save)) }
    ensures refused { IfErr result (λ status.
        IsRefused status →
        IsToldRefusal
        (IsGoingFault (texts_of inputs.now) restart.now.point.now restart.now.batch
        restart.now.workers) inputs.now.net.now status (λ line.
        IsSaid line (E.contents err.old) (E.contents err.new) (E.failed err.old)
        (E.failed err.new))) }
    ensures only { (s : Going) →
        IsGoing (texts_of inputs.now) restart.now.point.now restart.now.batch restart.now.workers
        s → IfErr result (λ status. (status ≡ Status.NoMemory) ⊎ (status ≡ Status.Device)) }
    ensures silent { IfErr result (λ status.
        IsRefused status → O.contents out.new ≡ O.contents out.old) }
    ensures cut { OnErr result ((O.contents out.new ≡ O.contents out.old) ⊎
        IsReportBegun
        (AskToGoOn (texts_of inputs.now) restart.now.point.now restart.now.batch
        restart.now.workers restart.now.stop) (O.contents out.old) (O.contents out.new)) }
    ensures device { IfErr result (λ status.
        status ≡ Status.Device → (s : Going) ×
        IsGoing (texts_of inputs.now) restart.now.point.now restart.now.batch restart.now.workers
        s ×
        (((O.failed out.new ≡ grown (O.failed out.old)) ×
        IsSaid report_line (E.contents err.old) (E.contents err.new) (E.failed err.old)
        (E.failed err.new)) ⊎
        ((role : OutRoleOf) × IsShutFor N.plan role ×
        IsSaid (unwritable_line role) (E.contents err.old) (E.contents err.new)
        (E.failed err.old) (E.failed err.new)))) }
    ensures memory { IfErr result (λ status.
        status ≡ Status.NoMemory →
        IsSaid no_memory_line (E.contents err.old) (E.contents err.new) (E.failed err.old)
        (E.failed err.new)) }
    ensures written { OnOk result (O.failed out.new ≡ O.failed out.old) }
    ensures quiet { OnOk result (E.contents err.new ≡ E.contents err.old) }
    ensures still { OnOk result (E.failed err.new ≡ E.failed err.old) }
    ensures said { OnErr result
        (IsFaultSaid (E.contents err.old) (E.contents err.new) (E.failed err.old)
        (E.failed err.new)) }
    ensures open { IfErr result (λ status. status ≢ Status.Done) }
{
    let alloc = environment.rt.alloc();
    let mut place: OutFile<'_, F, N> = OutFile::new(environment, forecast_by(kept));
    let told = run_on(environment.rt, inputs, restart, kept, out, &mut place);
    left_by(alloc, told, place, inputs.net, err)
}

/// Resumes a run whose texts have all been read, and writes the report. Returns what the run leaves, and the places that were reserved
/// before the first move at the names that it may need.
pub fn resume_texts<R: AllocGlobal + Threads + Wait + Sync, F: NamedFiles, O: Sink, E: Sink>(
    environment: &Environment<'_, R, F>,
    inputs: &Inputs,
    restart: &Restart,
    out: &mut O,
    err: &mut E,
) -> Result<Left<F::Outlet>, Status>
    // The report of annealing one move at a time from the point is written. What is left is the text of its placement, or the text of the
    // point where it stopped, with the seed of the checkpoint that it went on from.
    ensures placed { IfOk result (λ left.
        (s : Going) × HasPoint (texts_of inputs.now) restart.now.point.now s ×
        AreLeft (AskToGoOn (texts_of inputs.now) restart.now.point.now restart.now.batch
        restart.now.workers restart.now.stop) (texts_of inputs.now) s.seed (O.contents out.old)
        (O.contents out.new) left.place.items (option_map (λ bytes. bytes.items) left.point)) }
    // A reserved place is at the name of its file.
    ensures at_out { IfOk result (λ left.
        IfSome left.out (λ outlet. F.name_of outlet ≡ environment.now.names.out.now)) }
    ensures at_save { IfOk result (λ left.
        IfSome left.save (λ outlet.
        Some (F.name_of outlet) ≡ option_copied environment.now.names.save)) }
    // A refusal is that of the first check that fails, and its line is printed.
    ensures refused { IfErr result (λ status.
        IsRefused status →
        IsToldRefusal
        (IsGoingFault (texts_of inputs.now) restart.now.point.now restart.now.batch
        restart.now.workers) inputs.now.net.now status (λ line.
        IsSaid line (E.contents err.old) (E.contents err.new) (E.failed err.old)
        (E.failed err.new))) }
    // Texts and numbers that mean a run that goes on are never refused.
    ensures only { (s : Going) →
        IsGoing (texts_of inputs.now) restart.now.point.now restart.now.batch restart.now.workers
        s → IfErr result (λ status. (status ≡ Status.NoMemory) ⊎ (status ≡ Status.Device)) }
    ensures silent { IfErr result (λ status.
        IsRefused status → O.contents out.new ≡ O.contents out.old) }
    // Otherwise a beginning of the report may have been written.
    ensures cut { OnErr result ((O.contents out.new ≡ O.contents out.old) ⊎
        IsReportBegun
        (AskToGoOn (texts_of inputs.now) restart.now.point.now restart.now.batch
        restart.now.workers restart.now.stop) (O.contents out.old) (O.contents out.new)) }
    // The status is that of a device only if all checks passed, and the report's writer failed, or no bytes can be put at a name that the
    // run may need by its forecast.
    ensures device { IfErr result (λ status.
        status ≡ Status.Device → (s : Going) ×
        IsGoing (texts_of inputs.now) restart.now.point.now restart.now.batch restart.now.workers
        s ×
        (((O.failed out.new ≡ grown (O.failed out.old)) ×
        IsSaid report_line (E.contents err.old) (E.contents err.new) (E.failed err.old)
        (E.failed err.new)) ⊎
        IsTriedInVain (IsForecast s.point.schedule (done_at s.point) restart.now.stop)
        environment.now.names.out.now (option_copied environment.now.names.save)
        (F.shut environment.now.files.now)
        (λ line.
        IsSaid line (E.contents err.old) (E.contents err.new) (E.failed err.old)
        (E.failed err.new)))) }
    ensures memory { IfErr result (λ status.
        status ≡ Status.NoMemory →
        IsSaid no_memory_line (E.contents err.old) (E.contents err.new) (E.failed err.old)
        (E.failed err.new)) }
    ensures written { OnOk result (O.failed out.new ≡ O.failed out.old) }
    ensures quiet { OnOk result (E.contents err.new ≡ E.contents err.old) }
    ensures still { OnOk result (E.failed err.new ≡ E.failed err.old) }
    ensures said { OnErr result
        (IsFaultSaid (E.contents err.old) (E.contents err.new) (E.failed err.old)
        (E.failed err.new)) }
    ensures open { IfErr result (λ status. status ≢ Status.Done) }
{
    let alloc = environment.rt.alloc();
    match keep(alloc, inputs, restart) {
        Ok(kept) => resume_kept::<R, F, O, E, Brand>(environment, inputs, restart, &kept, out, err),
        Err(fault) => Err(messages::run_fault(alloc, err, &fault, inputs.net)),
    }
}

/// Resumes a run from a checkpoint file, by the numbers that the words give.
pub fn resume_files<R: AllocGlobal + Threads + Wait + Sync, F: NamedFiles, O: Sink, E: Sink>(
    rt: &R,
    words: &ResumeWords,
    files: &mut F,
    out: &mut O,
    err: &mut E,
) -> Status
    // The report of the piece that goes on from the named checkpoint, up to the requested stop or to the end, is written. The text of its
    // placement is put at the out name. If it stopped, the text of its point is put at the save name instead.
    ensures placed { result ≡ Status.Done →
        DidResume words.now (F.held files.old) (F.held files.new) (O.contents out.old)
        (O.contents out.new) }
    ensures kept { result ≢ Status.Done → F.held files.new ≡ F.held files.old }
    // Faults of the words come before the files.
    ensures first { (fault : WordFaultOf) → IsResumeFault words.now fault →
        (result ≡ Status.CommandLine) ⊎ (result ≡ Status.NoMemory) }
    // A refusal is that of the words, or of the first check of the named files that fails, and its line is printed.
    ensures refused { IsRefused result →
        ((fault : WordFaultOf) × IsResumeFault words.now fault ×
        IsSaid (word_fault_line fault) (E.contents err.old) (E.contents err.new)
        (E.failed err.old) (E.failed err.new)) ⊎
        ((t : Texts) × (point : List ℕ) × (stop : Option ℕ) ×
        AreNamedToResume (F.held files.old) words.now t point ×
        (stop_asked words.now.stop words.now.save ≡ Some stop) ×
        IsToldRefusal (IsGoingFault t point words.now.batch words.now.workers) t.net result
        (λ line.
        IsSaid line (E.contents err.old) (E.contents err.new) (E.failed err.old)
        (E.failed err.new))) }
    // Files in memory whose texts mean a run that goes on, with these numbers, are never refused.
    ensures only { (h : Held) (t : Texts) (point : List ℕ) (s : Going) (stop : Option ℕ) →
        F.held files.old ≡ Some h → AreNamedToResume (Some h) words.now t point →
        stop_asked words.now.stop words.now.save ≡ Some stop →
        IsGoing t point words.now.batch words.now.workers s → (result ≡ Status.Done) ⊎
        ((result ≡ Status.NoMemory) ⊎ (result ≡ Status.Device)) }
    // The status is that of a device only if a file is not there, or if all checks passed and then the report's writer failed, or no bytes
    // can be put at a name that the run may need by its forecast, or at the name of what it left.
    ensures device { result ≡ Status.Device →
        AreUnreadToResume (F.held files.old) words.now result (λ line.
        IsSaid line (E.contents err.old) (E.contents err.new) (E.failed err.old)
        (E.failed err.new)) ⊎
        ((t : Texts) × (point : List ℕ) × (stop : Option ℕ) × (s : Going) ×
        AreNamedToResume (F.held files.old) words.now t point ×
        (stop_asked words.now.stop words.now.save ≡ Some stop) ×
        IsGoing t point words.now.batch words.now.workers s ×
        IsDeviceTold (IsForecast s.point.schedule (done_at s.point) stop)
        (λ a place.
        IsPlaced (AskToGoOn t point words.now.batch words.now.workers stop) t a
        (O.contents out.old) (O.contents out.new) (Some []) (Some place))
        words.now.out.items (save_name words.now) (F.shut files.old) (O.failed out.old)
        (O.failed out.new)
        (λ line.
        IsSaid line (E.contents err.old) (E.contents err.new) (E.failed err.old)
        (E.failed err.new))) }
    ensures memory { result ≡ Status.NoMemory →
        IsSaid no_memory_line (E.contents err.old) (E.contents err.new) (E.failed err.old)
        (E.failed err.new) }
    ensures silent { IsRefused result → O.contents out.new ≡ O.contents out.old }
    // Otherwise a beginning of the report may have been written.
    ensures cut { result ≢ Status.Done → (O.contents out.new ≡ O.contents out.old) ⊎
        ((t : Texts) × (point : List ℕ) × (stop : Option ℕ) ×
        AreNamedToResume (F.held files.old) words.now t point ×
        (stop_asked words.now.stop words.now.save ≡ Some stop) ×
        IsReportBegun (AskToGoOn t point words.now.batch words.now.workers stop)
        (O.contents out.old) (O.contents out.new)) }
    ensures written { result ≡ Status.Done → O.failed out.new ≡ O.failed out.old }
    ensures quiet { result ≡ Status.Done → E.contents err.new ≡ E.contents err.old }
    // Otherwise something was printed about the fault.
    ensures said { result ≢ Status.Done →
        IsFaultSaid (E.contents err.old) (E.contents err.new) (E.failed err.old)
        (E.failed err.new) }
{
    let alloc = rt.alloc();
    let stop = match stop_of(words.stop, &words.save) {
        Ok(stop) => stop,
        Err(fault) => return messages::word_fault(alloc, err, fault),
    };
    let read = match read_texts(alloc, &*files, words, err) {
        Ok(read) => read,
        Err(status) => return status,
    };
    let names = OutNames {
        out: words.out.as_slice(),
        save: words.save.as_deref(),
    };
    let inputs = Inputs {
        labels: Labels {
            net: words.net.as_slice(),
            arch: words.arch.as_slice(),
        },
        arch: read.arch.as_slice(),
        net: read.net.as_slice(),
        pads: None,
    };
    let restart = Restart {
        point: read.point.as_slice(),
        batch: words.batch,
        workers: words.workers,
        stop,
    };
    let environment = Environment {
        rt,
        files: &*files,
        names,
    };
    match resume_texts(&environment, &inputs, &restart, out, err) {
        Ok(left) => leave(alloc, files, &names, left, err),
        Err(status) => status,
    }
}

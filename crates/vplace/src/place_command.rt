//! The subcommand `place`. It reads all files before it looks at the first text. After the run has answered, it writes the placement, or
//! the checkpoint of a run that stopped.

ghost use Rattle.std.specs.Prelude.{◌≡◌, ◌≢◌, ◌⊎◌, [], Some, None, OnOk, OnErr, IfOk, IfErr, IfSome, option_copied, option_map};
ghost use Rattle.fab_text.specs.Failures.{grown};
ghost use Rattle.fab_run.specs.Check.{IsTextFault, report_failed_with};
ghost use Rattle.fab_run.specs.Ends.{Answer};
ghost use Rattle.fab_run.specs.Placed.{AskFor, IsPlaced, IsReportBegun};
ghost use Rattle.fab_run.specs.Setting.{IsSetting, Setting, Texts, texts_of};
ghost use Rattle.fab_run.specs.RunChecks.{IsRefusal, IsRunFault};
ghost use Rattle.fab_run.specs.declared.inputs.Options.{Options as OptionsOf};
ghost use Rattle.fab_run.specs.declared.fault.RunFault.{RunFault as RunFaultOf};
ghost use Rattle.fab_run.specs.declared.fault.RunFault.TheVariants.{NoMemory};
ghost use Rattle.vplace.specs.Status.{IsRefused, status_of};
ghost use Rattle.vplace.specs.Asked.{AreAsked, IsWordFault};
ghost use Rattle.vplace.specs.Forecasts.{IsForecast, forecast_in};
ghost use Rattle.vplace.specs.Leaving.{AreLeft, IsCheckpoint, IsDeviceTold, IsShutFor, IsTriedInVain, plan_of};
ghost use Rattle.vplace.specs.Said.{IsFaultSaid, IsSaid, IsToldRefusal, no_memory_line, report_line, unwritable_line, word_fault_line};
ghost use Rattle.vplace.specs.Files.{Held};
ghost use Rattle.vplace.specs.Placing.{AreNamed, AreUnread, DidPlace, GivesPads, IsPadsUnread, name_of, save_name};
ghost use Rattle.vplace.specs.declared.requests.WordFault.{WordFault as WordFaultOf};
ghost use Rattle.vplace.specs.declared.messages.OutRole.{OutRole as OutRoleOf};

use crate::environment::Environment;
use crate::files::NamedFiles;
use crate::forecast::{Forecast, forecast_for, schedule_by};
use crate::kept::{Kept, forecast_by};
use crate::messages;
use crate::messages::Role;
use crate::out_file::{OutFile, Planned};
use crate::out_names::OutNames;
use crate::reading::{read_arch_and_net, read_role};
use crate::requests::{PlaceWords, options_of};
use crate::results::{Left, arch_and_design, leave, left_by};
use crate::status::Status;
use fab_file::Labels;
use fab_run::{CountedOutcome, Ending, Inputs, Options, RunFault, array_of, place_run_counted};
use fab_text::Sink;
use std::alloc::Global;
use std::marker::Brand;
use std::sync::Wait;
use std::thread::Threads;

/// The texts of the files that a run reads.
#[derive(Drop)]
struct Read {
    arch: Vec<u8>,
    net: Vec<u8>,
    pads: Option<Vec<u8>>,
}

/// Reads the location file, if one is named.
fn read_pads<F: NamedFiles, E: Sink>(
    alloc: Global,
    files: &F,
    words: &PlaceWords,
    err: &mut E,
) -> Result<Option<Vec<u8>>, Status>
    ensures gives { IfOk result (λ text.
        GivesPads (F.held files.now) (name_of words.now) (option_map (λ bytes. bytes.items) text)) }
    ensures unread { IfErr result (λ status.
        IsPadsUnread (F.held files.now) (name_of words.now) status (λ line.
        IsSaid line (E.contents err.old) (E.contents err.new) (E.failed err.old)
        (E.failed err.new))) }
    ensures quiet { OnOk result (E.contents err.new ≡ E.contents err.old) }
    ensures still { OnOk result (E.failed err.new ≡ E.failed err.old) }
    ensures said { OnErr result
        (IsFaultSaid (E.contents err.old) (E.contents err.new) (E.failed err.old)
        (E.failed err.new)) }
    ensures open { IfErr result (λ status. (status ≡ Status.Device) ⊎ (status ≡ Status.NoMemory)) }
{
    match &words.pads {
        Some(name) => Ok(Some(read_role(alloc, files, Role::Pads, name.as_slice(), err)?)),
        None => Ok(None),
    }
}

/// Reads all files of a run, in the order architecture, netlist, location file.
fn read_texts<F: NamedFiles, E: Sink>(
    alloc: Global,
    files: &F,
    words: &PlaceWords,
    err: &mut E,
) -> Result<Read, Status>
    ensures gives { IfOk result (λ read.
        AreNamed (F.held files.now) words.now
        (record {
          arch = read.arch.items;
          net = read.net.items;
          pads = option_map (λ bytes. bytes.items) read.pads;
          net_label = words.now.net.items;
          arch_label = words.now.arch.items;
        })) }
    ensures unread { IfErr result (λ status.
        AreUnread (F.held files.now) words.now status (λ line.
        IsSaid line (E.contents err.old) (E.contents err.new) (E.failed err.old)
        (E.failed err.new))) }
    ensures quiet { OnOk result (E.contents err.new ≡ E.contents err.old) }
    ensures still { OnOk result (E.failed err.new ≡ E.failed err.old) }
    ensures said { OnErr result
        (IsFaultSaid (E.contents err.old) (E.contents err.new) (E.failed err.old)
        (E.failed err.new)) }
    ensures open { IfErr result (λ status. (status ≡ Status.Device) ⊎ (status ≡ Status.NoMemory)) }
{
    let (arch, net) = read_arch_and_net(
        alloc,
        files,
        words.arch.as_slice(),
        words.net.as_slice(),
        err,
    )?;
    let pads = read_pads(alloc, files, words, err)?;
    Ok(Read { arch, net, pads })
}

/// Reads what a run with a stop keeps for its checkpoint; this makes the first three checks of the run. A run without a stop keeps nothing.
/// A schedule that is out of range is left to the run, which makes other checks before that one.
fn keep(alloc: Global, inputs: &Inputs, options: &Options) -> Result<Option<Kept>, RunFault>
    ensures none { IfOk result (λ kept. kept ≡ None → options.now.stop ≡ None) }
    ensures kept { IfOk result (λ kept.
        (s : Setting) → IsSetting (texts_of inputs.now) options.now s →
        IsForecast s.plan 0 options.now.stop (forecast_in kept) ×
        IfSome kept (λ k.
        (k.seed ≡ options.now.seed) × (k.design ≡ s.design) × (k.grid ≡ s.grid))) }
    ensures only { (s : Setting) → IsSetting (texts_of inputs.now) options.now s →
        IfErr result (λ e. e ≡ NoMemory) }
    ensures fault { IfErr result (IsRunFault (texts_of inputs.now) options.now) }
    ensures text { IfErr result IsTextFault }
{
    if options.stop.is_none() {
        return Ok(None);
    }
    let (arch, design) = arch_and_design(alloc, inputs)?;
    let grid = array_of(&design, options.size, arch.io_rat)?;
    let forecast = match schedule_by(options, design.blocks()) {
        Ok(schedule) => forecast_for(&schedule, 0, options.stop),
        Err(_) => Forecast::Either,
    };
    Ok(Some(Kept {
        seed: options.seed,
        design,
        grid,
        forecast,
    }))
}

/// Places the design of a run. Returns the text of the point where it stopped, if it did. If `kept` is `None`, the run has no stop, and
/// does not stop.
fn run_place<R: AllocGlobal + Threads + Wait + Sync, O: Sink, P: Sink>(
    rt: &R,
    inputs: &Inputs,
    options: &Options,
    kept: &Option<Kept>,
    out: &mut O,
    place: &mut P,
) -> Result<Option<Vec<u8>>, RunFault>
    requires none { kept.now ≡ None → options.now.stop ≡ None }
    requires kept { (s : Setting) → IsSetting (texts_of inputs.now) options.now s →
        IfSome kept.now (λ k.
        (k.seed ≡ options.now.seed) × (k.design ≡ s.design) × (k.grid ≡ s.grid)) }
    ensures placed { IfOk result (λ point.
        (a : Answer) ×
        IsPlaced (AskFor (texts_of inputs.now) options.now) (texts_of inputs.now) a
        (O.contents out.old) (O.contents out.new) (P.contents place.old)
        (P.contents place.new) ×
        IsCheckpoint (texts_of inputs.now) options.now.seed a.ending
        (option_map (λ bytes. bytes.items) point)) }
    ensures only { (s : Setting) → IsSetting (texts_of inputs.now) options.now s →
        IfErr result (λ e. ¬ IsRefusal e) }
    ensures fault { IfErr result (IsRunFault (texts_of inputs.now) options.now) }
    ensures silent { IfErr result (λ e. IsRefusal e → O.contents out.new ≡ O.contents out.old) }
    ensures cut { OnErr result ((O.contents out.new ≡ O.contents out.old) ⊎
        IsReportBegun (AskFor (texts_of inputs.now) options.now) (O.contents out.old)
        (O.contents out.new)) }
    ensures sound { OnOk result (O.failed out.new ≡ O.failed out.old) }
    ensures failed { IfErr result (λ e.
        O.failed out.new ≡ report_failed_with e (O.failed out.old)) }
{
    let CountedOutcome { ending, .. } = place_run_counted(rt, inputs, options, out, place)?;
    match ending {
        Ending::Finished => Ok(None),
        Ending::Stopped(point) => match kept {
            Some(kept) => Ok(Some(kept.text_of(rt.alloc(), &point)?)),
            None => Ok(None),
        },
    }
}

/// Places the design of a run that keeps `kept` for its checkpoint, and writes the report.
fn place_kept<R: AllocGlobal + Threads + Wait + Sync, F: NamedFiles, O: Sink, E: Sink, N: Planned>(
    environment: &Environment<'_, R, F>,
    inputs: &Inputs,
    options: &Options,
    kept: &Option<Kept>,
    out: &mut O,
    err: &mut E,
) -> Result<Left<F::Outlet>, Status>
    requires plan { plan_of environment.now.names (forecast_in kept.now)
        (F.shut environment.now.files.now) ≡ N.plan }
    requires none { kept.now ≡ None → options.now.stop ≡ None }
    requires kept { (s : Setting) → IsSetting (texts_of inputs.now) options.now s →
        IfSome kept.now (λ k.
        (k.seed ≡ options.now.seed) × (k.design ≡ s.design) × (k.grid ≡ s.grid)) }
    ensures placed { IfOk result (λ left.
        AreLeft (AskFor (texts_of inputs.now) options.now) (texts_of inputs.now) options.now.seed
        (O.contents out.old) (O.contents out.new) left.place.items
        (option_map (λ bytes. bytes.items) left.point)) }
    ensures at_out { IfOk result (λ left.
        IfSome left.out (λ outlet. F.name_of outlet ≡ environment.now.names.out.now)) }
    ensures at_save { IfOk result (λ left.
        IfSome left.save (λ outlet.
        Some (F.name_of outlet) ≡ option_copied environment.now.names.save)) }
    ensures refused { IfErr result (λ status.
        IsRefused status →
        IsToldRefusal (IsRunFault (texts_of inputs.now) options.now) inputs.now.net.now status
        (λ line.
        IsSaid line (E.contents err.old) (E.contents err.new) (E.failed err.old)
        (E.failed err.new))) }
    ensures only { (s : Setting) → IsSetting (texts_of inputs.now) options.now s →
        IfErr result (λ status. (status ≡ Status.NoMemory) ⊎ (status ≡ Status.Device)) }
    ensures silent { IfErr result (λ status.
        IsRefused status → O.contents out.new ≡ O.contents out.old) }
    ensures cut { OnErr result ((O.contents out.new ≡ O.contents out.old) ⊎
        IsReportBegun (AskFor (texts_of inputs.now) options.now) (O.contents out.old)
        (O.contents out.new)) }
    ensures device { IfErr result (λ status.
        status ≡ Status.Device → (s : Setting) × IsSetting (texts_of inputs.now) options.now s ×
        (((O.failed out.new ≡ grown (O.failed out.old)) ×
        IsSaid report_line (E.contents err.old) (E.contents err.new) (E.failed err.old)
        (E.failed err.new)) ⊎
        ((role : OutRoleOf) × IsShutFor N.plan role ×
        IsSaid (unwritable_line role) (E.contents err.old) (E.contents err.new)
        (E.failed err.old) (E.failed err.new)))) }
    ensures memory { IfErr result (λ status.
        status ≡ Status.NoMemory →
        IsSaid no_memory_line (E.contents err.old) (E.contents err.new) (E.failed err.old)
        (E.failed err.new)) }
    ensures written { OnOk result (O.failed out.new ≡ O.failed out.old) }
    ensures quiet { OnOk result (E.contents err.new ≡ E.contents err.old) }
    ensures still { OnOk result (E.failed err.new ≡ E.failed err.old) }
    ensures said { OnErr result
        (IsFaultSaid (E.contents err.old) (E.contents err.new) (E.failed err.old)
        (E.failed err.new)) }
    ensures open { IfErr result (λ status. status ≢ Status.Done) }
{
    let alloc = environment.rt.alloc();
    let mut place: OutFile<'_, F, N> = OutFile::new(environment, forecast_by(kept));
    let told = run_place(environment.rt, inputs, options, kept, out, &mut place);
    left_by(alloc, told, place, inputs.net, err)
}

/// Places the design of a run whose texts have all been read, and writes the report. Returns what the run leaves, and the places that were
/// reserved before the first move at the names that it may need.
pub fn place_texts<R: AllocGlobal + Threads + Wait + Sync, F: NamedFiles, O: Sink, E: Sink>(
    environment: &Environment<'_, R, F>,
    inputs: &Inputs,
    options: &Options,
    out: &mut O,
    err: &mut E,
) -> Result<Left<F::Outlet>, Status>
    // The report of annealing one move at a time is written, and what is left is the text of its placement, or of its point.
    ensures placed { IfOk result (λ left.
        AreLeft (AskFor (texts_of inputs.now) options.now) (texts_of inputs.now) options.now.seed
        (O.contents out.old) (O.contents out.new) left.place.items
        (option_map (λ bytes. bytes.items) left.point)) }
    // A reserved place is at the name of its file.
    ensures at_out { IfOk result (λ left.
        IfSome left.out (λ outlet. F.name_of outlet ≡ environment.now.names.out.now)) }
    ensures at_save { IfOk result (λ left.
        IfSome left.save (λ outlet.
        Some (F.name_of outlet) ≡ option_copied environment.now.names.save)) }
    // A refusal is that of the first check that fails, and its line is printed.
    ensures refused { IfErr result (λ status.
        IsRefused status →
        IsToldRefusal (IsRunFault (texts_of inputs.now) options.now) inputs.now.net.now status
        (λ line.
        IsSaid line (E.contents err.old) (E.contents err.new) (E.failed err.old)
        (E.failed err.new))) }
    // Texts and numbers that mean a run are never refused.
    ensures only { (s : Setting) → IsSetting (texts_of inputs.now) options.now s →
        IfErr result (λ status. (status ≡ Status.NoMemory) ⊎ (status ≡ Status.Device)) }
    ensures silent { IfErr result (λ status.
        IsRefused status → O.contents out.new ≡ O.contents out.old) }
    // Otherwise a beginning of the report may have been written.
    ensures cut { OnErr result ((O.contents out.new ≡ O.contents out.old) ⊎
        IsReportBegun (AskFor (texts_of inputs.now) options.now) (O.contents out.old)
        (O.contents out.new)) }
    // The status is that of a device only if all checks passed, and the report's writer failed, or no bytes can be put at a name that the
    // run may need by its forecast.
    ensures device { IfErr result (λ status.
        status ≡ Status.Device → (s : Setting) × IsSetting (texts_of inputs.now) options.now s ×
        (((O.failed out.new ≡ grown (O.failed out.old)) ×
        IsSaid report_line (E.contents err.old) (E.contents err.new) (E.failed err.old)
        (E.failed err.new)) ⊎
        IsTriedInVain (IsForecast s.plan 0 options.now.stop) environment.now.names.out.now
        (option_copied environment.now.names.save) (F.shut environment.now.files.now)
        (λ line.
        IsSaid line (E.contents err.old) (E.contents err.new) (E.failed err.old)
        (E.failed err.new)))) }
    ensures memory { IfErr result (λ status.
        status ≡ Status.NoMemory →
        IsSaid no_memory_line (E.contents err.old) (E.contents err.new) (E.failed err.old)
        (E.failed err.new)) }
    ensures written { OnOk result (O.failed out.new ≡ O.failed out.old) }
    ensures quiet { OnOk result (E.contents err.new ≡ E.contents err.old) }
    ensures still { OnOk result (E.failed err.new ≡ E.failed err.old) }
    ensures said { OnErr result
        (IsFaultSaid (E.contents err.old) (E.contents err.new) (E.failed err.old)
        (E.failed err.new)) }
    ensures open { IfErr result (λ status. status ≢ Status.Done) }
{
    let alloc = environment.rt.alloc();
    match keep(alloc, inputs, options) {
        Ok(kept) => place_kept::<R, F, O, E, Brand>(environment, inputs, options, &kept, out, err),
        Err(fault) => Err(messages::run_fault(alloc, err, &fault, inputs.net)),
    }
}

/// Places a design from files, by the numbers that the words give.
pub fn place_files<R: AllocGlobal + Threads + Wait + Sync, F: NamedFiles, O: Sink, E: Sink>(
    rt: &R,
    words: &PlaceWords,
    files: &mut F,
    out: &mut O,
    err: &mut E,
) -> Status
    // The report of a run of the named files, by the requested numbers, is written. The text of its placement is put at the out name. If it
    // stopped, the text of its point is put at the save name instead.
    ensures placed { result ≡ Status.Done →
        DidPlace words.now (F.held files.old) (F.held files.new) (O.contents out.old)
        (O.contents out.new) }
    ensures kept { result ≢ Status.Done → F.held files.new ≡ F.held files.old }
    // Faults of the words come before the files.
    ensures first { (fault : WordFaultOf) → IsWordFault words.now fault →
        (result ≡ Status.CommandLine) ⊎ (result ≡ Status.NoMemory) }
    // A refusal is that of the words, or of the first check of the named files that fails, and its line is printed.
    ensures refused { IsRefused result →
        ((fault : WordFaultOf) × IsWordFault words.now fault ×
        IsSaid (word_fault_line fault) (E.contents err.old) (E.contents err.new)
        (E.failed err.old) (E.failed err.new)) ⊎
        ((t : Texts) × (o : OptionsOf) × AreNamed (F.held files.old) words.now t ×
        AreAsked words.now o ×
        IsToldRefusal (IsRunFault t o) t.net result (λ line.
        IsSaid line (E.contents err.old) (E.contents err.new) (E.failed err.old)
        (E.failed err.new))) }
    // Files in memory whose texts mean a run by the requested numbers are never refused.
    ensures only { (h : Held) (t : Texts) (o : OptionsOf) (s : Setting) →
        F.held files.old ≡ Some h → AreNamed (Some h) words.now t → AreAsked words.now o →
        IsSetting t o s → (result ≡ Status.Done) ⊎
        ((result ≡ Status.NoMemory) ⊎ (result ≡ Status.Device)) }
    // The status is that of a device only if a file is not there, or if all checks passed and then the report's writer failed, or no bytes
    // can be put at a name that the run may need by its forecast, or at the name of what it left.
    ensures device { result ≡ Status.Device →
        AreUnread (F.held files.old) words.now result (λ line.
        IsSaid line (E.contents err.old) (E.contents err.new) (E.failed err.old)
        (E.failed err.new)) ⊎
        ((t : Texts) × (o : OptionsOf) × (s : Setting) × AreNamed (F.held files.old) words.now t ×
        AreAsked words.now o × IsSetting t o s ×
        IsDeviceTold (IsForecast s.plan 0 o.stop)
        (λ a place.
        IsPlaced (AskFor t o) t a (O.contents out.old) (O.contents out.new) (Some [])
        (Some place)) words.now.out.items (save_name words.now) (F.shut files.old)
        (O.failed out.old) (O.failed out.new)
        (λ line.
        IsSaid line (E.contents err.old) (E.contents err.new) (E.failed err.old)
        (E.failed err.new))) }
    ensures memory { result ≡ Status.NoMemory →
        IsSaid no_memory_line (E.contents err.old) (E.contents err.new) (E.failed err.old)
        (E.failed err.new) }
    ensures silent { IsRefused result → O.contents out.new ≡ O.contents out.old }
    // Otherwise a beginning of the report may have been written.
    ensures cut { result ≢ Status.Done → (O.contents out.new ≡ O.contents out.old) ⊎
        ((t : Texts) × (o : OptionsOf) × AreNamed (F.held files.old) words.now t ×
        AreAsked words.now o ×
        IsReportBegun (AskFor t o) (O.contents out.old) (O.contents out.new)) }
    ensures written { result ≡ Status.Done → O.failed out.new ≡ O.failed out.old }
    ensures quiet { result ≡ Status.Done → E.contents err.new ≡ E.contents err.old }
    // Otherwise something was printed about the fault.
    ensures said { result ≢ Status.Done →
        IsFaultSaid (E.contents err.old) (E.contents err.new) (E.failed err.old)
        (E.failed err.new) }
{
    let alloc = rt.alloc();
    let options = match options_of(words) {
        Ok(options) => options,
        Err(fault) => return messages::word_fault(alloc, err, fault),
    };
    let read = match read_texts(alloc, &*files, words, err) {
        Ok(read) => read,
        Err(status) => return status,
    };
    let names = OutNames {
        out: words.out.as_slice(),
        save: words.save.as_deref(),
    };
    let inputs = Inputs {
        labels: Labels {
            net: words.net.as_slice(),
            arch: words.arch.as_slice(),
        },
        arch: read.arch.as_slice(),
        net: read.net.as_slice(),
        pads: read.pads.as_deref(),
    };
    let environment = Environment {
        rt,
        files: &*files,
        names,
    };
    match place_texts(&environment, &inputs, &options, out, err) {
        Ok(left) => leave(alloc, files, &names, left, err),
        Err(status) => status,
    }
}

//! What a run leaves after its answer, and where it goes: the placement if it finished, or the checkpoint if it stopped.

ghost use Rattle.std.specs.Prelude.{◌≡◌, ◌≢◌, ◌≤◌, ◌⊎◌, ℕ, Ok, Some, OnOk, OnErr, IfOk, IfErr, IfSome, IsErrAnd, MatchOption, MatchResult, option_copied};
ghost use Rattle.fab_net.specs.Netlist.{Netlist};
ghost use Rattle.fab_run.specs.Check.{IsDesignFault, MeanDesign};
ghost use Rattle.fab_run.specs.declared.fault.RunFault.TheVariants.{NoMemory};
ghost use Rattle.vplace.specs.Files.{IsShut, Puts};
ghost use Rattle.vplace.specs.Leaving.{IsShutFor, point_name};
ghost use Rattle.vplace.specs.Said.{IsFaultSaid, IsFaultTold, IsSaid, no_memory_line, unwritable_line};
ghost use Rattle.vplace.specs.declared.files.WriteFault.TheVariants.{Unwritable};
ghost use Rattle.vplace.specs.declared.messages.OutRole.TheVariants.{Place as OutPlace, Point as OutPoint};
ghost use Rattle.vplace.specs.Status.{status_of};

use crate::files::{NamedFiles, WriteFault};
use crate::messages;
use crate::messages::OutRole;
use crate::out_file::{OutFile, Planned, Refusal};
use crate::out_names::OutNames;
use crate::status::Status;
use fab_arch::{Arch, read_arch};
use fab_file::PlaceFault;
use fab_net::{Design, read_net};
use fab_run::{Inputs, RunFault};
use fab_text::Sink;
use std::alloc::Global;

/// What a run left in memory.
#[derive(Drop)]
pub struct Left<O: Drop> {
    /// The text of its placement; empty if it stopped.
    pub place: Vec<u8>,
    /// The text of the point where it stopped, if it did.
    pub point: Option<Vec<u8>>,
    /// The place that was reserved at the out name, if one was.
    pub out: Option<O>,
    /// The place that was reserved at the save name, if one was.
    pub save: Option<O>,
}

/// Prints why a run gave no answer. `refusal` is why a name that was tried was refused, if one was.
fn tell_fault<E: Sink>(
    alloc: Global,
    err: &mut E,
    fault: &RunFault,
    refusal: Option<Refusal>,
    net: &[u8],
) -> Status
    ensures status { (result ≡ status_of fault.now) ⊎ (result ≡ Status.NoMemory) }
    ensures told { IsFaultTold fault.now refusal net.now result (λ line.
        IsSaid line (E.contents err.old) (E.contents err.new) (E.failed err.old)
        (E.failed err.new)) }
    ensures said { IsFaultSaid (E.contents err.old) (E.contents err.new) (E.failed err.old)
        (E.failed err.new) }
    ensures open { result ≢ Status.Done }
{
    match (fault, refusal) {
        (RunFault::Place(PlaceFault::Write), Some(refusal)) => match refusal.fault {
            WriteFault::Unwritable => messages::unwritable(err, refusal.role),
            WriteFault::NoMemory => messages::no_memory(err),
        },
        // The place text is in memory, so memory ran out for it.
        (RunFault::Place(PlaceFault::Write), None) => messages::no_memory(err),
        _ => messages::run_fault(alloc, err, fault, net),
    }
}

/// Releases a place, if there is one.
fn release<F: NamedFiles>(files: &F, outlet: Option<F::Outlet>) {
    if let Some(outlet) = outlet {
        files.release(outlet);
    }
}

/// What a run left in memory: its place text, and the text of the point where it stopped, if it did. `told` is this text, or the run's
/// fault. If the run failed, releases its reserved places, and prints the fault.
pub fn left_by<F: NamedFiles, N: Planned, E: Sink>(
    alloc: Global,
    told: Result<Option<Vec<u8>>, RunFault>,
    file: OutFile<'_, F, N>,
    net: &[u8],
    err: &mut E,
) -> Result<Left<F::Outlet>, Status>
    ensures point { IfOk result (λ left. told ≡ Ok left.point) }
    ensures place { IfOk result (λ left. left.place.items ≡ file.entry.text.items) }
    ensures at_out { IfOk result (λ left.
        IfSome left.out (λ outlet. F.name_of outlet ≡ N.plan.out)) }
    ensures at_save { IfOk result (λ left.
        IfSome left.save (λ outlet. Some (F.name_of outlet) ≡ N.plan.save)) }
    ensures fault { IfErr result (λ status.
        IsErrAnd told (λ fault. (status ≡ status_of fault) ⊎ (status ≡ Status.NoMemory))) }
    ensures told { IfErr result (λ status.
        IsErrAnd told (λ fault.
        IsFaultTold fault file.entry.refusal net.now status (λ line.
        IsSaid line (E.contents err.old) (E.contents err.new) (E.failed err.old)
        (E.failed err.new)))) }
    // A name that was refused is one that the run may need.
    ensures refused { IfSome file.entry.refusal (λ r.
        r.fault ≡ Unwritable → IsShutFor N.plan r.role) }
    ensures quiet { OnOk result (E.contents err.new ≡ E.contents err.old) }
    ensures still { OnOk result (E.failed err.new ≡ E.failed err.old) }
    ensures said { OnErr result
        (IsFaultSaid (E.contents err.old) (E.contents err.new) (E.failed err.old)
        (E.failed err.new)) }
    ensures open { IfErr result (λ status. status ≢ Status.Done) }
{
    let OutFile {
        files,
        text,
        out,
        save,
        refusal,
        ..
    } = file;
    let fault = match told {
        Ok(point) => {
            return Ok(Left {
                place: text,
                point,
                out,
                save,
            });
        }
        Err(fault) => fault,
    };
    release(files, out);
    release(files, save);
    Err(tell_fault(alloc, err, &fault, refusal, net))
}

/// The architecture and the design that the texts of a run mean.
pub fn arch_and_design(alloc: Global, inputs: &Inputs) -> Result<(Arch, Design), RunFault>
    ensures found { IfOk result (λ r.
        MeanDesign inputs.now.arch.now inputs.now.net.now r.0.io_rat r.1) }
    ensures ratio { IfOk result (λ r. (1 ≤ r.0.io_rat) × (r.0.io_rat ≤ 64)) }
    ensures only { (io_rat : ℕ) (d : Netlist) →
        MeanDesign inputs.now.arch.now inputs.now.net.now io_rat d →
        MatchResult result (λ r. (r.0.io_rat ≡ io_rat) × (r.1 ≡ d)) (λ e. e ≡ NoMemory) }
    ensures fault { IfErr result (IsDesignFault inputs.now.arch.now inputs.now.net.now) }
{
    let arch = read_arch(alloc, inputs.arch)?;
    let design = read_net(alloc, inputs.net, &arch)?;
    Ok((arch, design))
}

/// The file that a run leaves.
#[derive(Clone, Copy, Debug)]
struct LeftFile<'a> {
    role: OutRole,
    name: &'a [u8],
    text: &'a [u8],
}

/// Puts the text of a file at its name. `outlet` is the place that was reserved there, if one was.
fn put_text<F: NamedFiles, E: Sink>(
    alloc: Global,
    files: &mut F,
    file: &LeftFile,
    outlet: Option<F::Outlet>,
    err: &mut E,
) -> Status
    requires { IfSome outlet (λ outlet. F.name_of outlet ≡ file.now.name.now) }
    ensures put { result ≡ Status.Done →
        Puts (F.held files.old) (F.held files.new) file.now.name.now file.now.text.now }
    ensures kept { result ≢ Status.Done → F.held files.new ≡ F.held files.old }
    ensures device { result ≡ Status.Device → IsShut (F.shut files.old) file.now.name.now ×
        IsSaid (unwritable_line file.now.role) (E.contents err.old) (E.contents err.new)
        (E.failed err.old) (E.failed err.new) }
    ensures memory { result ≡ Status.NoMemory →
        IsSaid no_memory_line (E.contents err.old) (E.contents err.new) (E.failed err.old)
        (E.failed err.new) }
    ensures quiet { result ≡ Status.Done → E.contents err.new ≡ E.contents err.old }
    ensures said { result ≢ Status.Done →
        IsFaultSaid (E.contents err.old) (E.contents err.new) (E.failed err.old)
        (E.failed err.new) }
    ensures open { (result ≡ Status.Done) ⊎
        ((result ≡ Status.Device) ⊎ (result ≡ Status.NoMemory)) }
{
    let outlet = match outlet {
        Some(outlet) => Ok(outlet),
        None => files.reserve(alloc, file.name),
    };
    let put = match outlet {
        Ok(outlet) => files.put(outlet, file.text),
        Err(fault) => Err(fault),
    };
    match put {
        Ok(()) => Status::Done,
        Err(WriteFault::Unwritable) => messages::unwritable(err, file.role),
        Err(WriteFault::NoMemory) => messages::no_memory(err),
    }
}

/// Puts what a run left at its name: the checkpoint if it stopped, else the placement. The place at the other name is released.
pub fn leave<F: NamedFiles, E: Sink>(
    alloc: Global,
    files: &mut F,
    names: &OutNames,
    left: Left<F::Outlet>,
    err: &mut E,
) -> Status
    requires at_out { IfSome left.out (λ outlet. F.name_of outlet ≡ names.now.out.now) }
    requires at_save { IfSome left.save (λ outlet.
        Some (F.name_of outlet) ≡ option_copied names.now.save) }
    ensures put { result ≡ Status.Done →
        MatchOption left.point
        (Puts (F.held files.old) (F.held files.new) names.now.out.now left.place.items)
        (λ point.
        Puts (F.held files.old) (F.held files.new) (point_name names.now) point.items) }
    ensures kept { result ≢ Status.Done → F.held files.new ≡ F.held files.old }
    ensures device { result ≡ Status.Device →
        MatchOption left.point (IsShut (F.shut files.old) names.now.out.now ×
        IsSaid (unwritable_line OutPlace) (E.contents err.old) (E.contents err.new)
        (E.failed err.old) (E.failed err.new))
        (λ point.
        IsShut (F.shut files.old) (point_name names.now) ×
        IsSaid (unwritable_line OutPoint) (E.contents err.old) (E.contents err.new)
        (E.failed err.old) (E.failed err.new)) }
    ensures memory { result ≡ Status.NoMemory →
        IsSaid no_memory_line (E.contents err.old) (E.contents err.new) (E.failed err.old)
        (E.failed err.new) }
    ensures quiet { result ≡ Status.Done → E.contents err.new ≡ E.contents err.old }
    ensures said { result ≢ Status.Done →
        IsFaultSaid (E.contents err.old) (E.contents err.new) (E.failed err.old)
        (E.failed err.new) }
    ensures open { (result ≡ Status.Done) ⊎
        ((result ≡ Status.Device) ⊎ (result ≡ Status.NoMemory)) }
{
    let Left {
        place,
        point,
        out,
        save,
    } = left;
    match point {
        Some(point) => {
            release(&*files, out);
            let file = LeftFile {
                role: OutRole::Point,
                name: names.of_point(),
                text: point.as_slice(),
            };
            put_text(alloc, files, &file, save, err)
        }
        None => {
            release(&*files, save);
            let file = LeftFile {
                role: OutRole::Place,
                name: names.out,
                text: place.as_slice(),
            };
            put_text(alloc, files, &file, out, err)
        }
    }
}

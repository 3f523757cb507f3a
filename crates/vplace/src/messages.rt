//! The lines that are printed on standard error, one for each fault, and their statuses.

ghost use Rattle.std.specs.Prelude.{◌≡◌, ◌≢◌, ◌⊎◌, ◌++◌, IfOk, codes};
ghost use Rattle.std.specs.String.{string_bytes};
ghost use Rattle.fab_file.specs.declared.fault.PlaceFault.TheVariants.{Write};
ghost use Rattle.fab_run.specs.declared.fault.RunFault.TheVariants.{Place, Point, Report};
ghost use Rattle.fab_run.specs.declared.point_fault.PointFault.TheVariants.{Write as PointWrite};
ghost use Rattle.fab_run.specs.FaultLines.{fault_line as line_of_fault};
ghost use Rattle.vplace.specs.Said.{IsFaultSaid, IsSaid, no_memory_line, option_name as name_of_option, report_line, unreadable_line, unwritable_line, word_fault_line};
ghost use Rattle.vplace.specs.Status.{status_of};

use crate::requests::{Number, WordFault};
use crate::status::{Status, status_after};
use fab_run::{RunFault, fault_line};
use fab_text::{Sink, write_whole};
use std::alloc::{AllocError, Global};

/// Prints that memory ran out. If standard error fails too, nothing can be reported.
pub fn no_memory<E: Sink>(err: &mut E) -> Status
    ensures status { result ≡ Status.NoMemory }
    ensures said { IsSaid no_memory_line (E.contents err.old) (E.contents err.new)
        (E.failed err.old) (E.failed err.new) }
    ensures heard { IsFaultSaid (E.contents err.old) (E.contents err.new) (E.failed err.old)
        (E.failed err.new) }
{
    let _ = write_whole(err, b"vplace: no memory\n");
    Status::NoMemory
}

/// A file that a run reads.
#[derive(Clone, Copy, Debug, PartialEq, Eq)]
pub enum Role {
    Arch,
    Net,
    Pads,
    Place,
    Point,
}

fn unreadable_text(role: Role) -> &'static [u8]
    ensures { result.now ≡ unreadable_line role ++ codes "\n" }
{
    match role {
        Role::Arch => b"vplace: cannot read arch\n",
        Role::Net => b"vplace: cannot read net\n",
        Role::Pads => b"vplace: cannot read pads\n",
        Role::Place => b"vplace: cannot read place\n",
        Role::Point => b"vplace: cannot read point\n",
    }
}

/// Prints that the file of a role cannot be read.
pub fn unreadable<E: Sink>(err: &mut E, role: Role) -> Status
    ensures status { result ≡ Status.Device }
    ensures said { IsSaid (unreadable_line role) (E.contents err.old) (E.contents err.new)
        (E.failed err.old) (E.failed err.new) }
    ensures heard { IsFaultSaid (E.contents err.old) (E.contents err.new) (E.failed err.old)
        (E.failed err.new) }
{
    let _ = write_whole(err, unreadable_text(role));
    Status::Device
}

/// Prints that the report cannot be written.
pub fn unwritable_report<E: Sink>(err: &mut E) -> Status
    ensures status { result ≡ Status.Device }
    ensures said { IsSaid report_line (E.contents err.old) (E.contents err.new) (E.failed err.old)
        (E.failed err.new) }
    ensures heard { IsFaultSaid (E.contents err.old) (E.contents err.new) (E.failed err.old)
        (E.failed err.new) }
{
    let _ = write_whole(err, b"vplace: cannot write report\n");
    Status::Device
}

/// A file that a run writes.
#[derive(Clone, Copy, Debug, PartialEq, Eq)]
pub enum OutRole {
    /// The placement.
    Place,
    /// The checkpoint.
    Point,
}

/// Prints that the file of a role cannot be written.
pub fn unwritable<E: Sink>(err: &mut E, role: OutRole) -> Status
    ensures status { result ≡ Status.Device }
    ensures said { IsSaid (unwritable_line role) (E.contents err.old) (E.contents err.new)
        (E.failed err.old) (E.failed err.new) }
    ensures heard { IsFaultSaid (E.contents err.old) (E.contents err.new) (E.failed err.old)
        (E.failed err.new) }
{
    let line: &[u8] = match role {
        OutRole::Place => b"vplace: cannot write place\n",
        OutRole::Point => b"vplace: cannot write point\n",
    };
    let _ = write_whole(err, line);
    Status::Device
}

fn option_name(option: Number) -> &'static str
    ensures { result.now ≡ name_of_option option }
{
    match option {
        Number::InitT => "init-t",
        Number::ExitT => "exit-t",
        Number::AlphaT => "alpha-t",
    }
}

fn word_fault_text(alloc: Global, fault: WordFault) -> Result<String, AllocError>
    ensures { IfOk result (λ text. string_bytes text ≡ word_fault_line fault ++ codes "\n") }
{
    match fault {
        WordFault::SizeInPart => String::from_str(alloc, "vplace: --nx and --ny go together\n"),
        WordFault::StopInPart => String::from_str(alloc, "vplace: --stop and --save go together\n"),
        WordFault::BadNumber(option, fault) => {
            let name = option_name(option);
            format!(in alloc; "vplace: option {name}: {fault}\n")
        }
    }
}

/// Prints what is wrong with the words of `place` or of `resume`.
pub fn word_fault<E: Sink>(alloc: Global, err: &mut E, fault: WordFault) -> Status
    ensures status { (result ≡ Status.CommandLine) ⊎ (result ≡ Status.NoMemory) }
    ensures said { ((result ≡ Status.CommandLine) ×
        IsSaid (word_fault_line fault) (E.contents err.old) (E.contents err.new) (E.failed err.old)
        (E.failed err.new)) ⊎
        ((result ≡ Status.NoMemory) ×
        IsSaid no_memory_line (E.contents err.old) (E.contents err.new) (E.failed err.old)
        (E.failed err.new)) }
    ensures heard { IsFaultSaid (E.contents err.old) (E.contents err.new) (E.failed err.old)
        (E.failed err.new) }
{
    match word_fault_text(alloc, fault) {
        Ok(line) => {
            let _ = write_whole(err, line.as_bytes());
            Status::CommandLine
        }
        Err(_) => no_memory(err),
    }
}

/// Prints why a run gave no answer. `net` is the netlist text that the span of a fault refers to. Memory may run out for the fault's line.
pub fn run_fault<E: Sink>(alloc: Global, err: &mut E, fault: &RunFault, net: &[u8]) -> Status
    ensures status { (result ≡ status_of fault.now) ⊎ (result ≡ Status.NoMemory) }
    // The line of the fault was written, or the line that there was no memory.
    ensures said { ((status_of fault.now ≢ Status.NoMemory) × (result ≡ status_of fault.now) ×
        IsSaid (line_of_fault fault.now net.now) (E.contents err.old) (E.contents err.new)
        (E.failed err.old) (E.failed err.new)) ⊎
        ((result ≡ Status.NoMemory) ×
        IsSaid no_memory_line (E.contents err.old) (E.contents err.new) (E.failed err.old)
        (E.failed err.new)) }
    ensures heard { IsFaultSaid (E.contents err.old) (E.contents err.new) (E.failed err.old)
        (E.failed err.new) }
    ensures open { result ≢ Status.Done }
    ensures device { result ≡ Status.Device → (fault.now ≡ Report) ⊎
        ((fault.now ≡ Place Write) ⊎ (fault.now ≡ Point PointWrite)) }
{
    let status = status_after(fault);
    if status == Status::NoMemory {
        return no_memory(err);
    }
    match fault_line(alloc, fault, net) {
        Ok(mut line) => {
            if line.push(b'\n').is_err() {
                return no_memory(err);
            }
            let _ = write_whole(err, line.as_slice());
            status
        }
        Err(_) => no_memory(err),
    }
}

//! The subcommand `check`: reads all three files before it looks at the first text.

ghost use Rattle.std.specs.Prelude.{◌≡◌, ◌≢◌, ◌⊎◌, ℕ, List, Some};
ghost use Rattle.fab_arch.specs.declared.array.Site.{Site};
ghost use Rattle.fab_arch.specs.Grid.{GridShape};
ghost use Rattle.fab_net.specs.Netlist.{Netlist};
ghost use Rattle.fab_text.specs.Failures.{grown};
ghost use Rattle.fab_run.specs.Check.{AreChecked, FaultOf, IsCut, IsReported};
ghost use Rattle.fab_run.specs.declared.fault.RunFault.TheVariants.{Report};
ghost use Rattle.vplace.specs.Files.{Held};
ghost use Rattle.vplace.specs.Said.{IsFaultSaid, IsSaid, IsToldRefusal, no_memory_line, report_line};
ghost use Rattle.vplace.specs.Placing.{AreGiven, IsCheckUnread};

use crate::files::NamedFiles;
use crate::messages;
use crate::messages::Role;
use crate::reading::{read_arch_and_net, read_role};
use crate::status::Status;
use fab_run::check_run;
use fab_text::Sink;
use std::alloc::Global;

/// The names of the files of a check.
#[derive(Drop)]
pub struct CheckNames {
    pub arch: Vec<u8>,
    pub net: Vec<u8>,
    pub place: Vec<u8>,
}

/// Checks a placement from files.
pub fn check_files<F: NamedFiles, O: Sink, E: Sink>(
    alloc: Global,
    names: &CheckNames,
    files: &F,
    out: &mut O,
    err: &mut E,
) -> Status
    // The report of the named files is written.
    ensures done { result ≡ Status.Done → (arch net place : List ℕ) × (cost : ℕ) ×
        AreGiven (F.held files.now) names.now arch net place ×
        IsReported arch net place cost (O.contents out.old) (O.contents out.new) }
    // A refusal is that of the first check of the named files that fails, and its line is printed.
    ensures refused { result ≡ Status.Refused → (arch net place : List ℕ) ×
        AreGiven (F.held files.now) names.now arch net place ×
        IsToldRefusal (FaultOf arch net place) net result (λ line.
        IsSaid line (E.contents err.old) (E.contents err.new) (E.failed err.old)
        (E.failed err.new)) }
    // Files in memory that mean a legal placement are never refused.
    ensures only { (h : Held) (arch net place : List ℕ) (d : Netlist) (g : GridShape)
        (sites : List Site) → F.held files.now ≡ Some h →
        AreGiven (Some h) names.now arch net place → AreChecked arch net place d g sites →
        (result ≡ Status.Done) ⊎ ((result ≡ Status.NoMemory) ⊎ (result ≡ Status.Device)) }
    // The status is that of a device only if a file is not there, or if all checks passed and the report's writer failed.
    ensures device { result ≡ Status.Device →
        IsCheckUnread (F.held files.now) names.now result (λ line.
        IsSaid line (E.contents err.old) (E.contents err.new) (E.failed err.old)
        (E.failed err.new)) ⊎
        ((arch net place : List ℕ) × AreGiven (F.held files.now) names.now arch net place ×
        FaultOf arch net place Report × (O.failed out.new ≡ grown (O.failed out.old)) ×
        IsSaid report_line (E.contents err.old) (E.contents err.new) (E.failed err.old)
        (E.failed err.new)) }
    // If it is not done, nothing of the report was written, or a beginning that is not all of it.
    ensures cut { result ≢ Status.Done → (O.contents out.new ≡ O.contents out.old) ⊎
        ((arch net place : List ℕ) × AreGiven (F.held files.now) names.now arch net place ×
        IsCut arch net place (O.contents out.old) (O.contents out.new)) }
    ensures memory { result ≡ Status.NoMemory →
        IsSaid no_memory_line (E.contents err.old) (E.contents err.new) (E.failed err.old)
        (E.failed err.new) }
    ensures silent { result ≡ Status.Refused → O.contents out.new ≡ O.contents out.old }
    ensures written { result ≡ Status.Done → O.failed out.new ≡ O.failed out.old }
    ensures quiet { result ≡ Status.Done → E.contents err.new ≡ E.contents err.old }
    ensures said { result ≢ Status.Done →
        IsFaultSaid (E.contents err.old) (E.contents err.new) (E.failed err.old)
        (E.failed err.new) }
    ensures line { result ≢ Status.CommandLine }
{
    let texts = read_arch_and_net(
        alloc,
        files,
        names.arch.as_slice(),
        names.net.as_slice(),
        err,
    );
    let (arch, net) = match texts {
        Ok(texts) => texts,
        Err(status) => return status,
    };
    let place = match read_role(alloc, files, Role::Place, names.place.as_slice(), err) {
        Ok(text) => text,
        Err(status) => return status,
    };
    check_texts(
        alloc,
        arch.as_slice(),
        net.as_slice(),
        place.as_slice(),
        out,
        err,
    )
}

/// Checks a placement whose texts have all been read. If they mean a design, an array and a legal placement, writes the report. Otherwise
/// prints one line on standard error about the first check that fails.
pub fn check_texts<O: Sink, E: Sink>(
    alloc: Global,
    arch: &[u8],
    net: &[u8],
    place: &[u8],
    out: &mut O,
    err: &mut E,
) -> Status
    // The report of what the texts mean is written.
    ensures done { result ≡ Status.Done → (cost : ℕ) ×
        IsReported arch.now net.now place.now cost (O.contents out.old) (O.contents out.new) }
    // A refusal is that of the first check that fails, and its line is printed.
    ensures refused { result ≡ Status.Refused →
        IsToldRefusal (FaultOf arch.now net.now place.now) net.now result (λ line.
        IsSaid line (E.contents err.old) (E.contents err.new) (E.failed err.old)
        (E.failed err.new)) }
    // Texts that mean all this are never refused.
    ensures only { (d : Netlist) (g : GridShape) (sites : List Site) →
        AreChecked arch.now net.now place.now d g sites → (result ≡ Status.Done) ⊎
        ((result ≡ Status.NoMemory) ⊎ (result ≡ Status.Device)) }
    ensures silent { result ≡ Status.Refused → O.contents out.new ≡ O.contents out.old }
    // The status is that of a device only if all checks passed, and the report's writer failed.
    ensures device { result ≡ Status.Device → FaultOf arch.now net.now place.now Report ×
        (O.failed out.new ≡ grown (O.failed out.old)) ×
        IsSaid report_line (E.contents err.old) (E.contents err.new) (E.failed err.old)
        (E.failed err.new) }
    // If it is not done, nothing of the report was written, or a beginning that is not all of it.
    ensures cut { result ≢ Status.Done → (O.contents out.new ≡ O.contents out.old) ⊎
        IsCut arch.now net.now place.now (O.contents out.old) (O.contents out.new) }
    ensures memory { result ≡ Status.NoMemory →
        IsSaid no_memory_line (E.contents err.old) (E.contents err.new) (E.failed err.old)
        (E.failed err.new) }
    ensures written { result ≡ Status.Done → O.failed out.new ≡ O.failed out.old }
    ensures quiet { result ≡ Status.Done → E.contents err.new ≡ E.contents err.old }
    ensures said { result ≢ Status.Done →
        IsFaultSaid (E.contents err.old) (E.contents err.new) (E.failed err.old)
        (E.failed err.new) }
    ensures line { result ≢ Status.CommandLine }
{
    match check_run(alloc, arch, net, place, out) {
        Ok(_) => Status::Done,
        Err(fault) => messages::run_fault(alloc, err, &fault, net),
    }
}

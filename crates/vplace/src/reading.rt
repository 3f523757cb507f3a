//! Reads whole files of a run.

ghost use Rattle.std.specs.Prelude.{◌≡◌, ◌⊎◌, OnOk, OnErr, IfOk, IfErr};
ghost use Rattle.vplace.specs.Files.{Gives};
ghost use Rattle.vplace.specs.Said.{IsFaultSaid, IsSaid, IsUnread};
ghost use Rattle.vplace.specs.Placing.{AreTextsUnread};

use crate::files::{NamedFiles, ReadFault};
use crate::messages;
use crate::messages::Role;
use crate::status::Status;
use fab_text::Sink;
use std::alloc::Global;

/// Reads the file of a role, or prints on standard error why it could not.
pub fn read_role<F: NamedFiles, E: Sink>(
    alloc: Global,
    files: &F,
    role: Role,
    name: &[u8],
    err: &mut E,
) -> Result<Vec<u8>, Status>
    ensures gives { IfOk result (λ text. Gives (F.held files.now) name.now text.items) }
    ensures unread { IfErr result (λ status.
        IsUnread (F.held files.now) role name.now status (λ line.
        IsSaid line (E.contents err.old) (E.contents err.new) (E.failed err.old)
        (E.failed err.new))) }
    ensures read { OnOk result (E.contents err.new ≡ E.contents err.old) }
    ensures still { OnOk result (E.failed err.new ≡ E.failed err.old) }
    ensures said { OnErr result
        (IsFaultSaid (E.contents err.old) (E.contents err.new) (E.failed err.old)
        (E.failed err.new)) }
    ensures fault { IfErr result (λ status. (status ≡ Status.Device) ⊎ (status ≡ Status.NoMemory)) }
{
    match files.read(alloc, name) {
        Ok(text) => Ok(text),
        Err(ReadFault::Unreadable) => Err(messages::unreadable(err, role)),
        Err(ReadFault::NoMemory) => Err(messages::no_memory(err)),
    }
}

/// Reads the two files that mean a design: the architecture, then the netlist.
pub fn read_arch_and_net<F: NamedFiles, E: Sink>(
    alloc: Global,
    files: &F,
    arch_name: &[u8],
    net_name: &[u8],
    err: &mut E,
) -> Result<(Vec<u8>, Vec<u8>), Status>
    ensures arch { IfOk result (λ texts. Gives (F.held files.now) arch_name.now texts.0.items) }
    ensures net { IfOk result (λ texts. Gives (F.held files.now) net_name.now texts.1.items) }
    // The netlist is read only if the architecture was.
    ensures unread { IfErr result (λ status.
        AreTextsUnread (F.held files.now) arch_name.now net_name.now status (λ line.
        IsSaid line (E.contents err.old) (E.contents err.new) (E.failed err.old)
        (E.failed err.new))) }
    ensures read { OnOk result (E.contents err.new ≡ E.contents err.old) }
    ensures still { OnOk result (E.failed err.new ≡ E.failed err.old) }
    ensures said { OnErr result
        (IsFaultSaid (E.contents err.old) (E.contents err.new) (E.failed err.old)
        (E.failed err.new)) }
    ensures fault { IfErr result (λ status. (status ≡ Status.Device) ⊎ (status ≡ Status.NoMemory)) }
{
    let arch = read_role(alloc, files, Role::Arch, arch_name, err)?;
    let net = read_role(alloc, files, Role::Net, net_name, err)?;
    Ok((arch, net))
}

//! The output file of a run. Its text stays in memory until the run has answered. The names of the files that the run may leave are tried
//! before the first move.

ghost use Rattle.std.specs.Prelude.{◌≡◌, [], true, Some, OnOk, OnErr, IfErr};
ghost use Rattle.std.specs.Option.{ForSome};
ghost use Rattle.vplace.specs.Leaving.{IsShutFor, OutPlan, no_plan, plan_of};
ghost use Rattle.vplace.specs.declared.files.WriteFault.TheVariants.{Unwritable};

use crate::environment::Environment;
use crate::files::{NamedFiles, WriteFault};
use crate::forecast::Forecast;
use crate::messages::OutRole;
use crate::out_names::OutNames;
use std::alloc::Global;
use std::io::Write;
use std::marker::{Brand, PhantomData};

/// What is known of the files of a run before its first move, as part of a type. So code that borrows an out file of this type cannot put
/// one of another name or forecast in its place.
pub trait Planned {
    ghost plan: { OutPlan };
}

impl Planned for Brand {
    ghost plan = { no_plan };
}

/// Why no place was reserved for a file of this role.
#[derive(Clone, Copy, Debug, PartialEq, Eq)]
pub struct Refusal {
    pub role: OutRole,
    pub fault: WriteFault,
}

/// The bytes of a file that is not written yet, and the places that were reserved for the files that the run may leave.
#[derive(Drop)]
pub struct OutFile<'a, F: NamedFiles, N: Planned> {
    pub files: &'a F,
    pub alloc: Global,
    pub names: OutNames<'a>,
    pub forecast: Forecast,
    /// The text of the placement, as far as it is written.
    pub text: Vec<u8>,
    /// The place at the out name.
    pub out: Option<F::Outlet>,
    /// The place at the save name.
    pub save: Option<F::Outlet>,
    pub refusal: Option<Refusal>,
    pub failures: u64,
    pub of: PhantomData<N>,
    ghost planned: { plan_of names forecast (F.shut files.now) ≡ N.plan },
    // Each place was reserved for its name.
    ghost at_out: { ForSome out (λ place. F.name_of place ≡ N.plan.out) },
    ghost at_save: { ForSome save (λ place. Some (F.name_of place) ≡ N.plan.save) },
    // A name that the run may need was refused.
    ghost refused: { ForSome refusal (λ r. r.fault ≡ Unwritable → IsShutFor N.plan r.role) },
}

impl<'a, F: NamedFiles, N: Planned> OutFile<'a, F, N> {
    /// An out file with no bytes yet, and no place.
    pub fn new<R: AllocGlobal>(environment: &Environment<'a, R, F>, forecast: Forecast) -> Self
        requires { plan_of environment.now.names forecast (F.shut environment.now.files.now) ≡
            N.plan }
        ensures text { result.text.items ≡ [] }
        ensures failures { result.failures ≡ 0 }
    {
        let alloc = environment.rt.alloc();
        OutFile {
            files: environment.files,
            alloc,
            names: environment.names,
            forecast,
            text: Vec::new(alloc),
            out: None,
            save: None,
            refusal: None,
            failures: 0,
            of: PhantomData,
        }
    }

    // Reserves a place at the out name, if the run may leave its placement.
    fn reserve_out(&mut self) -> Result<(), Refusal>
        ensures text { self.new.text ≡ self.old.text }
        ensures failures { self.new.failures ≡ self.old.failures }
        ensures refused { IfErr result (λ r. r.fault ≡ Unwritable → IsShutFor N.plan r.role) }
    {
        let role = OutRole::Place;
        if self.forecast.may_leave(role) {
            match self.files.reserve(self.alloc, self.names.out) {
                Ok(place) => self.out = Some(place),
                Err(fault) => return Err(Refusal { role, fault }),
            }
        }
        Ok(())
    }

    // Reserves a place at the save name, if the run may leave a checkpoint.
    fn reserve_save(&mut self) -> Result<(), Refusal>
        ensures text { self.new.text ≡ self.old.text }
        ensures failures { self.new.failures ≡ self.old.failures }
        ensures refused { IfErr result (λ r. r.fault ≡ Unwritable → IsShutFor N.plan r.role) }
    {
        let role = OutRole::Point;
        let Some(name) = self.names.save else {
            return Ok(());
        };
        if self.forecast.may_leave(role) {
            match self.files.reserve(self.alloc, name) {
                Ok(place) => self.save = Some(place),
                Err(fault) => return Err(Refusal { role, fault }),
            }
        }
        Ok(())
    }

    // Reserves both places, first the one at the out name.
    fn reserve(&mut self) -> Result<(), Refusal>
        ensures text { self.new.text ≡ self.old.text }
        ensures failures { self.new.failures ≡ self.old.failures }
        ensures refused { IfErr result (λ r. r.fault ≡ Unwritable → IsShutFor N.plan r.role) }
    {
        self.reserve_out()?;
        self.reserve_save()
    }
}

impl<F: NamedFiles, N: Planned> fab_text::Sink for OutFile<'_, F, N> {
    ghost contents = { λ file. Some file.text.items };

    ghost failed = { λ file. file.failures };

    ghost may_be_unready = { true };

    fn write(&mut self, bytes: &[u8]) -> Result<usize, fab_text::WriteFault> {
        match self.text.write(bytes) {
            Ok(taken) => {
                if taken == 0 && !bytes.is_empty() {
                    self.failures = self.failures.saturating_add(1);
                }
                Ok(taken)
            }
            Err(_) => {
                self.failures = self.failures.saturating_add(1);
                Err(fab_text::WriteFault)
            }
        }
    }

    fn failures(&self) -> u64 {
        self.failures
    }

    fn is_ready(&mut self) -> bool {
        match self.reserve() {
            Ok(()) => true,
            Err(refusal) => {
                self.refusal = Some(refusal);
                self.failures = self.failures.saturating_add(1);
                false
            }
        }
    }
}

// The calls that are to fail, by their numbers.
ghost use Rattle.std.specs.Prelude.{◌≡◌, ◌≤◌, ◌<◌, OnOk, OnErr};
ghost use Rattle.dpmi_io.specs.FaultPlan.{new_plan, after_listing, after_success, after_fault, is_listed};

use std::alloc::{AllocError, Global};
use std::marker::Model;

/// The numbers of the calls that are to fail, how many calls there were, and how many failed.
/// Calls count from 1, and both counts stop at the greatest u64. Source: own.
#[derive(Drop)]
pub(crate) struct FaultPlan {
    listed: Vec<u64>,
    calls: u64,
    faults: u64,
}

impl Model for FaultPlan {
    ghost use Rattle.dpmi_io.specs.FaultPlan.{Plan};

    ghost Value = { Plan };

    ghost view = { λ p. record { listed = p.listed.items; calls = p.calls; faults = p.faults } };
}

impl FaultPlan {
    /// A plan with no call listed and none counted.
    pub(crate) fn new(alloc: Global) -> FaultPlan
        ensures { result ≡ new_plan }
    {
        FaultPlan {
            listed: Vec::new(alloc),
            calls: 0,
            faults: 0,
        }
    }

    /// Lists a call that isn't made yet.
    pub(crate) fn fail_at(&mut self, call: u64) -> Result<(), AllocError>
        requires { self.old.calls < call }
        ensures ok { OnOk result (self.new ≡ after_listing self.old call) }
        ensures err { OnErr result (self.new ≡ self.old) }
    {
        self.listed.push(call)?;
        Ok(())
    }

    /// Counts a call, and says whether it is to fail.
    pub(crate) fn count(&mut self) -> bool
        ensures listed { result ≡ is_listed self.old }
        ensures counted { self.new ≡ after_success self.old }
    {
        self.calls = self.calls.saturating_add(1);
        self.listed.contains(&self.calls)
    }

    /// Counts a failure.
    pub(crate) fn fail(&mut self)
        ensures counted { self.new ≡ after_fault self.old }
        ensures later { self.old.faults ≤ self.new.faults }
    {
        self.faults = self.faults.saturating_add(1);
    }
}

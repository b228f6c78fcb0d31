//! An operator's calls.
ghost use Rattle.std.specs.Prelude.{◌≡◌, true};
ghost use Rattle.{node_core.specs.Admin.{admin_call, changes_role}, vb_calls.specs.Flushes.{IsRoleCall}};

use vb_calls::VbCall;

/// What an operator asks of a vBucket.
#[derive(Clone, Copy, Debug, PartialEq, Eq)]
pub enum AdminCall {
    /// That it becomes active, on a new branch of this id.
    Promote(u64),
    /// That it becomes a replica.
    Follow,
    /// That it takes neither writes nor changes.
    Dead,
    /// That no change enters its open span any more.
    Seal,
    /// That it gives up the front of its sealed spans that nobody needs any more.
    Trim,
    /// Its numbers.
    Stat,
    /// What it holds.
    Show,
    /// Its failover log.
    Log,
}

impl AdminCall {
    /// Whether the call gives the vBucket a role.
    pub fn changes_role(self) -> bool
        ensures { result ≡ changes_role self }
    {
        matches!(
            self,
            AdminCall::Promote(_) | AdminCall::Follow | AdminCall::Dead
        )
    }

    /// The call of the vBucket.
    pub fn vb_call_of(self) -> VbCall
        ensures call { result ≡ admin_call self }
        ensures role { changes_role self ≡ true → IsRoleCall result }
    {
        match self {
            AdminCall::Promote(uuid) => VbCall::Promote { uuid },
            AdminCall::Follow => VbCall::Follow,
            AdminCall::Dead => VbCall::Dead,
            AdminCall::Seal => VbCall::Seal,
            AdminCall::Trim => VbCall::Trim,
            AdminCall::Stat => VbCall::Stat,
            AdminCall::Show => VbCall::Show,
            AdminCall::Log => VbCall::Log,
        }
    }
}

//! Which calls an operator's are, and what connections and dials refuse; each law as the contract of a
//! function that does nothing.
ghost use Rattle.std.specs.Prelude.{◌≡◌};
ghost use Rattle.node_core.specs.{Admin.{admin_call}, CallLaws.{RefusesNobody, RefusesOthers}};
ghost use Rattle.node_core.specs.declared.admin.AdminCall.TheVariants as admin;
ghost use Rattle.vb_calls.specs.declared.calls.VbCall.TheVariants as call;

use vb_calls::{Journals, VbAccess};

/// Each operator's call is the vBucket's call of its name, and a promotion hands its id on.
pub fn operators_call_by_name()
    ensures roles { (admin_call (admin.Promote 3) ≡ call.Promote 3) × (admin_call admin.Follow ≡ call.Follow) × (admin_call admin.Dead ≡ call.Dead) }
    ensures rest { (admin_call admin.Seal ≡ call.Seal) × (admin_call admin.Trim ≡ call.Trim) × (admin_call admin.Stat ≡ call.Stat) × (admin_call admin.Show ≡ call.Show) × (admin_call admin.Log ≡ call.Log) }
{}

/// A connection refuses what is for one of the other kind. Where there is no connection, or no dial, all
/// that is asked of it is refused, and nothing changes.
pub fn others_are_refused<A: VbAccess, J: Journals>()
    ensures kinds { RefusesOthers A.step }
    ensures nobody { RefusesNobody A J A.step J.asks }
{}

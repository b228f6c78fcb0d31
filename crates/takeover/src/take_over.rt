//! How a node takes a vBucket over.
ghost use Rattle.std.specs.Prelude.{◌≡◌};
ghost use Rattle.takeover.specs.TakingOver.{new_take_over, step_at, told};

use vb_types::Role;

/// What a state has a node do that takes a vBucket over.
#[derive(Clone, Copy, Debug, PartialEq, Eq)]
pub enum TakeStep {
    /// It is about to take the vBucket's branch over.
    Pend,
    /// It owns the branch, and goes on with it.
    Own,
}

/// How far a node is that takes a vBucket over: what a state had it do last.
#[derive(Clone, Copy, Debug, PartialEq, Eq)]
pub struct TakeOver {
    last: Option<TakeStep>,
}

impl TakeOver {
    /// No state has come.
    pub fn new() -> TakeOver
        ensures { result ≡ new_take_over }
    {
        TakeOver { last: None }
    }

    /// A state has come. One that is out of order has the node do nothing, and changes nothing.
    pub fn state(&mut self, role: Role) -> Option<TakeStep>
        ensures step { result ≡ step_at self.old.last role }
        ensures told { self.new ≡ told role self.old }
    {
        let step = match (self.last, role) {
            (None, Role::Pending) => TakeStep::Pend,
            (Some(TakeStep::Pend), Role::Active) => TakeStep::Own,
            _ => return None,
        };
        self.last = Some(step);
        self.last
    }
}

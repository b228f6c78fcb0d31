//! How a node gives a vBucket up.
ghost use Rattle.std.specs.Prelude.{◌≡◌};
ghost use Rattle.takeover.specs.GivingUp.{new_give_up, done, answered};

/// What a node that gives a vBucket up does, each step behind the one before it.
#[derive(Clone, Copy, Debug, PartialEq, Eq)]
pub enum GiveStep {
    /// Sends all changes that the vBucket has.
    SendAll,
    /// Sends the state pending.
    SendPending,
    /// Awaits the answer to it.
    AwaitPending,
    /// Takes no more writes, so that nothing comes behind what is still to be sent.
    Yield,
    /// Sends the changes that came meanwhile.
    SendRest,
    /// Sends the state active.
    SendActive,
    /// Awaits the answer to it.
    AwaitActive,
    /// Ends the stream: the vBucket is another node's.
    End,
}

/// How far a node is that gives a vBucket up.
#[derive(Clone, Copy, Debug, PartialEq, Eq)]
pub struct GiveUp {
    step: GiveStep,
}

impl GiveUp {
    /// At the first step.
    pub fn new() -> GiveUp
        ensures { result ≡ new_give_up }
    {
        GiveUp {
            step: GiveStep::SendAll,
        }
    }

    /// The step that is to be done now.
    pub fn next(&self) -> GiveStep
        ensures { result ≡ self.now.step }
    {
        self.step
    }

    /// The step was done. One that awaits an answer, and the last, stay.
    pub fn done(&mut self)
        ensures { self.new ≡ done self.old }
    {
        self.step = match self.step {
            GiveStep::SendAll => GiveStep::SendPending,
            GiveStep::SendPending => GiveStep::AwaitPending,
            GiveStep::Yield => GiveStep::SendRest,
            GiveStep::SendRest => GiveStep::SendActive,
            GiveStep::SendActive => GiveStep::AwaitActive,
            stays => stays,
        };
    }

    /// The other node answered. A step that awaits no answer stays.
    pub fn answered(&mut self)
        ensures { self.new ≡ answered self.old }
    {
        self.step = match self.step {
            GiveStep::AwaitPending => GiveStep::Yield,
            GiveStep::AwaitActive => GiveStep::End,
            stays => stays,
        };
    }
}

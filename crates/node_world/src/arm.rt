//! The arm of a script's node.
ghost use Rattle.std.specs.Prelude.{◌≡◌};
ghost use Rattle.node_world.specs.Arms.{fail_arm, fired_by, no_arm, stop_arm};

use vb_disk::{Fuse, Outcome};

/// What is to befall a device call of a node, and what a stop in it leaves of the node's disks.
#[derive(Clone, Copy)]
pub struct Arm {
    pub fuse: Fuse,
    pub out: Outcome,
}

/// Whether an arm fired.
#[derive(Clone, Copy, Debug, PartialEq, Eq)]
pub enum Fired {
    /// It did not.
    No,
    /// A device call failed.
    Failed,
    /// The node stopped inside a device call.
    Stopped,
}

impl Arm {
    /// No call is hit.
    pub fn off() -> Arm
        ensures { result ≡ no_arm }
    {
        Arm {
            fuse: Fuse::Off,
            out: Outcome::Old,
        }
    }

    /// The node stops inside that device call from now on, none for 0.
    pub fn stop(call: u64, out: Outcome) -> Arm
        ensures { result ≡ stop_arm call out }
    {
        if call == 0 {
            return Arm::off();
        }
        Arm {
            fuse: Fuse::Stop(call),
            out,
        }
    }

    /// That device call from now on fails, none for 0.
    pub fn fail(call: u64) -> Arm
        ensures { result ≡ fail_arm call }
    {
        if call == 0 {
            return Arm::off();
        }
        Arm {
            fuse: Fuse::Fail(call),
            out: Outcome::Old,
        }
    }

    /// Whether it fired, by what is left of it.
    pub fn fired(self, left: Fuse) -> Fired
        ensures { result ≡ fired_by self.fuse left }
    {
        match (self.fuse, left) {
            (Fuse::Stop(_), Fuse::Off) => Fired::Stopped,
            (Fuse::Fail(_), Fuse::Off) => Fired::Failed,
            _ => Fired::No,
        }
    }
}

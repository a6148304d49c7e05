ghost use Rattle.std.specs.Prelude.{◌≡◌};
ghost use Rattle.typing.specs.CallFaults.{when};
ghost use Rattle.typing.specs.Faults.{comes_before, fault_place, fault_rank, least_of, limited_rank};

use crate::error::{Limited, TypeError};

impl Limited {
    fn rank(self) -> u32
        ensures { result ≡ limited_rank self }
    {
        match self {
            Limited::Procedures => 5,
            Limited::Parameters => 6,
            Limited::Globals => 7,
            Limited::Slots => 8,
            Limited::Nodes => 9,
            Limited::Assertions => 10,
            Limited::Cases => 11,
        }
    }
}

impl TypeError {
    fn place(self) -> u32
        ensures { result ≡ fault_place self }
    {
        match self {
            TypeError::Unknown(at) => at,
            TypeError::Twice(at) => at,
            TypeError::Arity(at) => at,
            TypeError::VoidValue(at) => at,
            TypeError::CallPlace(at) => at,
            TypeError::Many(_, at) => at,
            TypeError::NoMain(at) => at,
            TypeError::Memory => 0,
        }
    }

    // at one place the order of the variants decides
    fn rank(self) -> u32
        ensures { result ≡ fault_rank self }
    {
        match self {
            TypeError::Unknown(_) => 0,
            TypeError::Twice(_) => 1,
            TypeError::Arity(_) => 2,
            TypeError::VoidValue(_) => 3,
            TypeError::CallPlace(_) => 4,
            TypeError::Many(what, _) => what.rank(),
            TypeError::NoMain(_) => 12,
            TypeError::Memory => 13,
        }
    }

    #[tactic(auto, unfolding(crate::specs::Faults::comes_before))]
    fn comes_before(self, other: TypeError) -> bool
        ensures { result ≡ comes_before self other }
    {
        self.place() < other.place() || self.place() == other.place() && self.rank() < other.rank()
    }
}

/// Keeps the lesser of two faults, where the test holds.
pub(crate) fn note_if(least: &mut Option<TypeError>, test: bool, fault: TypeError)
    ensures { least.new ≡ least_of least.old (when test fault) }
{
    if test {
        *least = match *least {
            Some(other) => {
                if fault.comes_before(other) {
                    Some(fault)
                } else {
                    Some(other)
                }
            }
            None => Some(fault),
        };
    }
}

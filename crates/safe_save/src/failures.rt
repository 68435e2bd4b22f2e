//! Which call of a folder over memory fails, and when each kind of call last failed.

ghost use Rattle.std.specs.Prelude.{◌≡◌, ◌+◌, ◌-◌, ◌^◌, ◌<◌, ◌==◌, ◌||◌, ◌&&◌, false, IfErr, is_err};
ghost use Rattle.safe_save.specs.Places.{place_of};

use crate::folder::{FolderCall, FolderFault};

/// Which calls of a folder over memory fail.
#[derive(Clone, Copy, Debug, PartialEq, Eq)]
pub struct Failing {
    /// The number of the call that fails, counted from 1, or 0 where none does.
    pub at: u64,
    /// Whether each call after that one fails too, as where the machine has stopped.
    pub stops: bool,
    /// Whether each rename is refused.
    pub refuses_rename: bool,
}

// The calls that are to fail, and when each kind of call last failed with each fault.
#[derive(Drop)]
pub(crate) struct FailedCalls {
    // the number of the call that fails, counted from 1, among those to come; 0: none
    pub(crate) fails_in: u64,
    pub(crate) stops: bool,
    pub(crate) stopped: bool,
    pub(crate) refuses_rename: bool,
    // when each kind of call last failed with each fault, at the place of both; counted from 1, 0: never
    pub(crate) last: [usize; 24],
}

impl FailedCalls {
    ghost use Rattle.safe_save.specs.FailedCalls.{last_failed_of, KeepsLast, to_come};

    pub(crate) fn new(failing: Failing) -> FailedCalls
        ensures to_come { to_come result ≡ failing }
        ensures works { result.stopped ≡ false }
    {
        FailedCalls {
            fails_in: failing.at,
            stops: failing.stops,
            stopped: false,
            refuses_rename: failing.refuses_rename,
            last: [0; 24],
        }
    }

    // Notes that a call of this kind has failed at this moment with this fault, and gives the fault back.
    pub(crate) fn fail(
        &mut self,
        call: FolderCall,
        fault: FolderFault,
        moment: usize,
    ) -> FolderFault
        requires { moment + 1 < 2 ^ 64 }
        ensures fault { result ≡ fault }
        ensures noted { moment < last_failed_of self.new call fault }
        ensures later { KeepsLast self.old self.new }
        ensures calls { self.new.fails_in ≡ self.old.fails_in }
        ensures stopped { self.new.stopped ≡ self.old.stopped }
        ensures stops { self.new.stops ≡ self.old.stops }
    {
        let place = place_of(call, fault);
        self.last[place] = self.last[place].max(moment + 1);
        fault
    }

    // Counts a call, and fails it where it is the one to fail, or comes after that one in a machine that has stopped.
    pub(crate) fn count_call(&mut self, call: FolderCall, moment: usize) -> Result<(), FolderFault>
        requires { moment + 1 < 2 ^ 64 }
        ensures fails { is_err result ≡ (self.old.stopped || self.old.fails_in == 1) }
        ensures stopped { self.new.stopped
            ≡ (self.old.stopped || (self.old.stops && self.old.fails_in == 1)) }
        ensures counts { self.new.fails_in ≡ self.old.fails_in - 1 }
        ensures stops { self.new.stops ≡ self.old.stops }
        ensures fault { IfErr result (λ fault. fault ≡ FolderFault.Failed) }
        ensures later { KeepsLast self.old self.new }
        ensures noted { IfErr result (λ fault. moment < last_failed_of self.new call fault) }
    {
        let fails = self.stopped || self.fails_in == 1;
        self.stopped = self.stopped || (self.stops && self.fails_in == 1);
        self.fails_in = self.fails_in.saturating_sub(1);
        if fails {
            return Err(self.fail(call, FolderFault::Failed, moment));
        }
        Ok(())
    }
}

// Where the last failure of a kind of call with a fault is kept: both are counted in the order in which they are declared.
fn place_of(call: FolderCall, fault: FolderFault) -> usize
    ensures place { result ≡ place_of call fault }
    ensures bound { result < 24 }
{
    3 * call as usize + fault as usize
}

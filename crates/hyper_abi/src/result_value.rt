// What a call answers.
ghost use Rattle.std.specs.Prelude.{◌≡◌, ◌<◌};
ghost use Rattle.vsm_core.specs.Calls.{result_value, status_in, done_in};

use vsm_base::HvStatus;

/// What a hypercall answers (TLFS, Hypercall Outputs).
#[derive(Clone, Copy, Debug, PartialEq, Eq)]
pub struct ResultValue {
    /// The call's status.
    pub status: HvStatus,
    /// How many elements of a rep call are done, counted from its first, below 4096.
    pub done: u16,
}

impl ResultValue {
    /// The value itself: the status in bits 15:0 and the elements done in bits 43:32, all other bits zero.
    pub fn bits(self) -> u64
        requires { self.done < 4096 }
        ensures value { result ≡ result_value self.status self.done }
        ensures status { status_in result ≡ self.status.0 }
        ensures done { done_in result ≡ self.done }
    {
        u64::from(self.status.0) + (u64::from(self.done) << 32)
    }
}

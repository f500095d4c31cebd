ghost use Rattle.std.specs.Prelude.{[]};
ghost use Rattle.histories.specs.Calls.{invoke};
ghost use Rattle.provider.specs.Answers.{invocation_answer};
ghost use Rattle.provider.specs.States.{state_of, event, Does};

use super::Provider;
use crate::answer::{InvocationRefusal, Performed};
use queue::interface::Queue;

impl<F: Queue, T: Queue> Provider<F, T> {
    // An invocation from the user, as any octets.
    pub fn invoke(&mut self, octets: &[u8]) -> Result<Performed, InvocationRefusal>
        ensures { Does F.Meaning T.Meaning self.old (event (invoke octets.now) (invocation_answer result) []) self.new }
    {
        self.session.invoke(octets)
    }
}

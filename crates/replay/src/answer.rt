use provider::answer::{
    CollectionRefusal, InvocationRefusal, MoveAnswer, Performed, ReceptionRefusal, TickAnswer,
};

// What a provider answered: to an acquisition or a note, a move, a tick, a collection (the octets of the PDU), an
// invocation.
#[derive(Drop)]
pub enum Answer {
    Received(Result<(), ReceptionRefusal>),
    Moved(MoveAnswer),
    Ticked(TickAnswer),
    Collected(Result<Vec<u8>, CollectionRefusal>),
    Invoked(Result<Performed, InvocationRefusal>),
}

// What happens at a server. The vector that a request carries and the message that an update brings stand beside the event.
use notes::index::{PhoneId, ServerId};
use notes::vector::Vector;

#[derive(Clone, Copy, PartialEq, Eq)]
pub enum Request {
    Read { cell: u16 },
    Write { cell: u16, value: u32, time: u32 },
}

#[derive(Clone, Copy, PartialEq, Eq)]
pub enum What {
    Request(PhoneId, Request),
    // The request is cut after so many of its stores.
    RequestCut(PhoneId, Request, u32),
    Cut,
    Update,
    Recovery,
}

#[derive(Clone, Copy, PartialEq, Eq)]
pub struct Event {
    pub server: ServerId,
    pub what: What,
}

// A phone's request as a server gets it, with the vector that it carries.
#[derive(Clone, Copy, PartialEq, Eq)]
pub struct Ask {
    pub server: ServerId,
    pub phone: PhoneId,
    pub request: Request,
    pub vector: Vector,
}

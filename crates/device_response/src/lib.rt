// What the answering call says, and what that means of all that is lent.
#![tactic(auto)]

ghost use Rattle.std.specs.Prelude.{◌≡◌};
ghost use Rattle.device_response.specs.Called.{number_of};

use protocol_connection::Connection;

// An answer: the lengths of the reply and of the input taken, and the connection after it.
#[derive(Drop)]
pub struct Answered {
    pub written: usize,
    pub taken: usize,
    pub connection: Connection,
}

// Why a call is not answered.
#[derive(Clone, Copy, Debug, PartialEq, Eq)]
pub enum Refusal {
    OutShort,
    StoreBad,
    DeviceBad,
    Closed,
    More,
    ReadingsBad,
}

impl Refusal {
    // Document 01's number of it.
    pub fn number(self) -> u32
        ensures { result ≡ number_of self }
    {
        match self {
            Refusal::OutShort => 1,
            Refusal::StoreBad => 2,
            Refusal::DeviceBad => 3,
            Refusal::Closed => 4,
            Refusal::More => 5,
            Refusal::ReadingsBad => 7,
        }
    }
}

// A connection, as the box keeps it from one message to the next.
#![tactic(auto)]

ghost use Rattle.std.specs.Prelude.{◌≡◌};
ghost use Rattle.base_integers.specs.Signed.{word_of};
ghost use Rattle.protocol.specs.State.{connected, with_sequence, with_closed};
ghost use Rattle.protocol_connection.specs.ConnectionOf.{connection_of};

// Its number, whether it is protected or closed, and the last accepted sequence, where one was seen.
#[derive(Clone, Copy)]
pub struct Connection {
    pub number: i64,
    pub protected: bool,
    pub closed: bool,
    pub seen: bool,
    pub last: i64,
}

// A new connection, on which no sequence was seen yet.
pub fn connect(number: i64, protected: bool) -> Connection
    ensures { connection_of result ≡ connected (word_of number) protected }
{
    Connection {
        number,
        protected,
        closed: false,
        seen: false,
        last: 0,
    }
}

// The connection with a sequence accepted.
pub fn accept(c: Connection, sequence: i64) -> Connection
    ensures { connection_of result ≡ with_sequence (connection_of c) (word_of sequence) }
{
    Connection {
        number: c.number,
        protected: c.protected,
        closed: c.closed,
        seen: true,
        last: sequence,
    }
}

// The connection closed.
pub fn close(c: Connection) -> Connection
    ensures { connection_of result ≡ with_closed (connection_of c) }
{
    Connection {
        number: c.number,
        protected: c.protected,
        closed: true,
        seen: c.seen,
        last: c.last,
    }
}

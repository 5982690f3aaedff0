use crate::context::Context;
use mem_atomics::Op;
use word_ops::{Box, Name, Pos, Ticket};

/// What one nodelet sends to another, with the stamp of the event that sent it (docs/machine.md,
/// "Contexts and packets").
#[derive(Debug, Drop)]
pub struct Packet {
    pub stamp: u64,
    pub body: Body,
}

/// What is in a packet (docs/machine.md, "Contexts and packets").
#[derive(Debug, Drop)]
pub enum Body {
    /// A strand that goes on there.
    Ctx(Box<Context>),
    /// An operation of the strand `name` on a word there, from the place `pos` in the text.
    Op {
        name: Name,
        op: Op,
        address: i64,
        word: i64,
        pos: Pos,
    },
    /// An operation or a grant of the strand `name` is done; `late` is the place in the text of an
    /// operation that was not granted.
    Ack {
        name: Name,
        late: Option<Pos>,
    },
    /// A child ended with `result`.
    Done {
        ticket: Ticket,
        result: i64,
    },
    /// An allocation of the strand `name` grants `count` words from the address `first` on.
    Grant {
        name: Name,
        first: i64,
        count: u64,
    },
}

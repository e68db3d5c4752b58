//! What a resource is told to do, and how.
ghost use Rattle.std.specs.Prelude.{◌≡◌, IfOk, OnOk, OnErr};
ghost use Rattle.std.specs.Io.KnownBytes.{Appends};
ghost use Rattle.qn_exchange.specs.Orders.{file_word};
ghost use Rattle.qn_exchange.specs.Writes.{SendsFront};

use crate::again::write_whole;
use std::io::{self, Write};
use std::marker::Model;

/// What a resource is told to do.
#[derive(Clone, Copy, PartialEq, Eq)]
pub enum Order {
    Start,
    Stop,
}

impl Order {
    ghost use Rattle.std.specs.Prelude.{◌≡◌};
    ghost use Rattle.qn_exchange.specs.Orders.{file_word, agent_line};

    /// What the file of a resource begins with after it.
    fn file_word(self) -> &'static [u8]
        ensures { result.now ≡ file_word self }
    {
        match self {
            Order::Start => b"held",
            Order::Stop => b"free",
        }
    }

    /// The line that an agent is sent.
    pub(crate) fn agent_line(self) -> &'static [u8]
        ensures { result.now ≡ agent_line self }
    {
        match self {
            Order::Start => b"start\n",
            Order::Stop => b"stop\n",
        }
    }
}

/// That an order was obeyed: a contract sees it as that order. Nothing but the exchange with an agent and the write to a file makes one.
#[derive(Drop)]
pub struct Obeyed {
    order: Order,
}

impl Model for Obeyed {
    ghost use Rattle.qn_exchange.specs.declared.order.Order.{Order};

    ghost Value = { Order };

    ghost view = { λ obeyed. obeyed.order };
}

impl Obeyed {
    ghost use Rattle.std.specs.Prelude.{◌≡◌};

    /// Of that order.
    pub(crate) fn of(order: Order) -> Obeyed
        ensures { result ≡ order }
    {
        Obeyed { order }
    }
}

/// Writes the word of an order to the file of a resource.
pub fn put_order<W: Write>(order: Order, writer: &mut W) -> io::Result<Obeyed>
    ensures put { OnOk result (Appends (W.contents writer.old) (W.contents writer.new) (file_word order)) }
    ensures unput { OnErr result
        (SendsFront (W.contents writer.old) (W.contents writer.new) (file_word order)) }
    ensures obeyed { IfOk result (λ obeyed. obeyed ≡ order) }
{
    write_whole(writer, order.file_word())?;
    Ok(Obeyed::of(order))
}

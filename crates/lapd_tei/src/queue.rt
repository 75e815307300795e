//! The messages that wait to be sent.

ghost use Rattle.std.specs.Prelude.{◌≡◌, ◌≤◌, [], length, drop, slice_get, IfOk};
ghost use Rattle.std.specs.List.{list_any};
ghost use Rattle.model_teis.specs.network.Words.{no_room, with_message, lost_after};
ghost use Rattle.model_teis.specs.network.Rows.{asks_for, assigns_for};

mod saved;

use crate::messages;
use circular_buffer::HeapCircularBuffer;
use model_teis::network::Message;
use std::alloc::{AllocError, Global};
use std::marker::Model;

// How many messages may wait (profile).
const LIMIT: usize = 4;

/// The messages that wait, the oldest first: at most four.
#[derive(Drop, Debug)]
pub(crate) struct Queue {
    messages: HeapCircularBuffer<Message>,
}

impl Model for Queue {
    ghost use Rattle.std.specs.Prelude.{◌≡◌, List};
    ghost use Rattle.model_teis.specs.declared.network.messages.Message.{Message};

    ghost Value = { List Message };

    ghost view = { λ q. q.messages.items };

    ghost invariant = { λ q. q.messages.capacity ≡ 4 };
}

impl Queue {
    /// No message, and room for four.
    pub fn start(alloc: Global) -> Result<Queue, AllocError>
        ensures { IfOk result (λ queue. queue ≡ []) }
    {
        let messages = HeapCircularBuffer::with_capacity(alloc, LIMIT)?;
        Ok(Queue { messages })
    }

    /// How many messages wait.
    pub fn len(&self) -> usize
        ensures len { result ≡ length self.now }
        ensures few { result ≤ 4 }
    {
        self.messages.len()
    }

    /// Whether there is no room for one more.
    pub fn is_full(&self) -> bool
        ensures { result ≡ no_room self.now }
    {
        self.messages.len() >= LIMIT
    }

    /// Sends a message: it waits, or it is lost if there is no room. Answers how many were lost.
    pub fn send(&mut self, message: Message) -> u8
        ensures lost { result ≡ lost_after self.old 0 }
        ensures waits { self.new ≡ with_message message self.old }
    {
        match self.messages.try_push_back(message) {
            Ok(()) => 0,
            Err(_) => 1,
        }
    }

    /// Whether a check request of this TEI waits.
    pub fn asks_for(&self, tei: u8) -> bool
        ensures { result ≡ list_any (asks_for tei) self.now }
    {
        self.messages
            .iter()
            .any(|message| messages::asks_for(*message, tei))
    }

    /// Whether an identity assigned for this Ri waits.
    pub fn assigns_for(&self, ri: u16) -> bool
        ensures { result ≡ list_any (assigns_for ri) self.now }
    {
        self.messages
            .iter()
            .any(|message| messages::assigns_for(*message, ri))
    }

    /// The message that has waited longest.
    pub fn first(&self) -> Option<Message>
        ensures { result ≡ slice_get self.now 0 }
    {
        self.messages.front().copied()
    }

    /// Gives up the messages that wait.
    pub fn clear(&mut self)
        ensures { self.new ≡ [] }
    {
        self.messages.clear();
    }

    /// Takes the message that has waited longest.
    pub fn take(&mut self) -> Option<Message>
        ensures oldest { result ≡ slice_get self.old 0 }
        ensures rest { self.new ≡ drop 1 self.old }
    {
        self.messages.pop_front()
    }
}

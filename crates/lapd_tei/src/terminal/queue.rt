//! The messages that wait to be sent.

ghost use Rattle.std.specs.Prelude.{◌≡◌, ◌≤◌, ◌<◌, ◌+◌, [], ◌∷◌, ◌++◌, length, drop, filter, set, slice_get, IfSome};
ghost use Rattle.std.specs.List.{list_any, position};
ghost use Rattle.model_teis.specs.declared.terminal.messages.Message.TheVariants.{IdentityCheckResponse};
ghost use Rattle.model_teis.specs.terminal.Words.{with_request, with_verify, is_request, is_verify, is_response, is_response_of, is_other};

mod saved;

use crate::terminal::messages;
use arrayvec::ArrayVec;
use model_teis::terminal::Message;
use std::marker::Model;

// A message of the procedure that runs, and a response for each of eight TEIs.
const MOST: usize = 9;

/// The messages that wait, the oldest first: at most nine.
#[derive(Drop, Debug)]
pub(crate) struct Queue {
    messages: ArrayVec<Message, MOST>,
}

impl Model for Queue {
    ghost use Rattle.std.specs.Prelude.{List};
    ghost use Rattle.model_teis.specs.declared.terminal.messages.Message.{Message};

    ghost Value = { List Message };

    ghost view = { λ q. q.messages.items };
}

impl Queue {
    /// No message.
    pub fn new() -> Queue
        ensures { result ≡ [] }
    {
        Queue {
            messages: ArrayVec::new(),
        }
    }

    /// How many messages wait.
    pub fn len(&self) -> usize
        ensures len { result ≡ length self.now }
        ensures few { result ≤ 9 }
    {
        self.messages.as_slice().len()
    }

    /// Sends an identity request: in the place of one that waits, otherwise after the others.
    pub fn send_request(&mut self, ri: u16)
        requires { length (with_request ri self.old) ≤ 9 }
        ensures { self.new ≡ with_request ri self.old }
    {
        let message = Message::IdentityRequest { ri };
        match self.place_of_request() {
            Some(place) => self.put(place, message),
            None => self.push(message),
        }
    }

    /// Sends a verify, unless one waits.
    pub fn send_verify(&mut self, tei: u8)
        requires { length (with_verify tei self.old) ≤ 9 }
        ensures { self.new ≡ with_verify tei self.old }
    {
        if self.has_verify() {
            return;
        }
        self.push(Message::IdentityVerify { tei });
    }

    /// Whether a check response for this TEI waits.
    pub fn has_response(&self, tei: u8) -> bool
        ensures { result ≡ list_any (is_response_of tei) self.now }
    {
        self.messages
            .as_slice()
            .iter()
            .any(|one| messages::is_response_of(*one, tei))
    }

    /// Sends a check response.
    pub fn send_response(&mut self, ri: u16, tei: u8)
        requires { length self.old + 1 ≤ 9 }
        ensures { self.new ≡ self.old ++ IdentityCheckResponse ri tei ∷ [] }
    {
        self.push(Message::IdentityCheckResponse { ri, tei });
    }

    /// Withdraws all but the check responses.
    pub fn withdraw_others(&mut self)
        ensures { self.new ≡ filter is_response self.old }
    {
        self.messages.retain(|one| messages::is_response(*one));
    }

    /// Withdraws the check response for this TEI.
    pub fn withdraw_response(&mut self, tei: u8)
        ensures { self.new ≡ filter (is_other tei) self.old }
    {
        self.messages
            .retain(|one| !messages::is_response_of(*one, tei));
    }

    /// Gives up the messages that wait.
    pub fn clear(&mut self)
        ensures { self.new ≡ [] }
    {
        self.messages.clear();
    }

    /// The message that has waited longest.
    pub fn first(&self) -> Option<Message>
        ensures { result ≡ slice_get self.now 0 }
    {
        self.messages.as_slice().first().copied()
    }

    /// Takes the message that has waited longest.
    pub fn take(&mut self) -> Option<Message>
        ensures oldest { result ≡ slice_get self.old 0 }
        ensures rest { self.new ≡ drop 1 self.old }
    {
        if self.messages.is_empty() {
            return None;
        }
        Some(self.messages.remove(0))
    }

    // The place of the identity request that waits.
    fn place_of_request(&self) -> Option<usize>
        ensures place { result ≡ position is_request self.now }
        ensures within { IfSome result (λ place. place < length self.now) }
    {
        self.messages
            .as_slice()
            .iter()
            .position(|one| messages::is_request(*one))
    }

    // Whether a verify waits.
    fn has_verify(&self) -> bool
        ensures { result ≡ list_any is_verify self.now }
    {
        self.messages
            .as_slice()
            .iter()
            .any(|one| messages::is_verify(*one))
    }

    // A message takes the place of another, or goes to the end.
    fn put(&mut self, place: usize, message: Message)
        requires { place < length self.old }
        ensures { self.new ≡ set self.old place message }
    {
        self.messages[place] = message;
    }

    fn push(&mut self, message: Message)
        requires { length self.old + 1 ≤ 9 }
        ensures { self.new ≡ self.old ++ message ∷ [] }
    {
        self.messages.push(message);
    }
}

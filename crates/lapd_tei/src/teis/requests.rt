//! Requests of terminals for a TEI (Q.921 clause 5.3.2).

ghost use Rattle.std.specs.Prelude.{◌≡◌, ◌≤◌};
ghost use Rattle.lapd_tei.specs.{action_of, begun, answer_request, request, request_anew, request_of, send, led_to, IsShort};

use super::Teis;
use crate::information::NO_TEI;
use crate::outcome::TeiOutcome;
use lapd_frame::{Note, Reading, ShortList};
use model_teis::Change;
use model_teis::network::Message;

impl Teis {
    // An identity request for any TEI.
    pub(super) fn request(&mut self, ri: u16) -> TeiOutcome
        ensures led { led_to self.new result ≡ request ri (begun self.old) }
        ensures short { IsShort result }
    {
        match self.reading {
            Reading::Profile => self.answer_request(ri),
            Reading::AnnexB => self.request_anew(ri),
        }
    }

    // A request for a TEI of the terminal's choice.
    pub(super) fn request_of(&mut self, ri: u16, tei: u8) -> TeiOutcome
        requires { tei ≤ 127 }
        ensures led { led_to self.new result ≡ request_of ri tei (begun self.old) }
        ensures short { IsShort result }
    {
        match self.reading {
            Reading::Profile => TeiOutcome::unserved(),
            Reading::AnnexB => self.answer(Message::IdentityDenied { ri, tei }),
        }
    }

    // By annex B: a request that comes again before its answer has gone is not served.
    fn request_anew(&mut self, ri: u16) -> TeiOutcome
        ensures led { led_to self.new result ≡ request_anew ri (begun self.old) }
        ensures short { IsShort result }
    {
        if self.queue.assigns_for(ri) {
            return TeiOutcome::unserved();
        }
        self.answer_request(ri)
    }

    // A request is answered, if there is room for an answer.
    fn answer_request(&mut self, ri: u16) -> TeiOutcome
        ensures led { led_to self.new result ≡ answer_request ri (begun self.old) }
        ensures short { IsShort result }
    {
        if self.queue.is_full() {
            return TeiOutcome {
                lost: 1,
                ..TeiOutcome::nothing()
            };
        }
        if let Some(tei) = self.memory.tei_for(ri) {
            self.queue.send(Message::IdentityAssigned { ri, tei });
            return TeiOutcome::nothing();
        }
        let (Some(place), Some(tei)) = (self.table.free_place(), self.table.free_tei()) else {
            self.queue.send(Message::IdentityDenied { ri, tei: NO_TEI });
            return TeiOutcome::nothing();
        };
        self.table.put(place, tei);
        self.memory.remember(self.reading, ri, tei);
        self.queue.send(Message::IdentityAssigned { ri, tei });
        TeiOutcome {
            notes: ShortList::one(Note::Assigned(tei)),
            change: Some(Change::Gained { tei, place }),
            ..TeiOutcome::nothing()
        }
    }

    // A message is all that comes of a request.
    fn answer(&mut self, message: Message) -> TeiOutcome
        requires { action_of message ≤ 127 }
        ensures led { led_to self.new result ≡ send message (begun self.old) }
        ensures short { IsShort result }
    {
        let lost = self.queue.send(message);
        TeiOutcome {
            lost,
            ..TeiOutcome::nothing()
        }
    }
}

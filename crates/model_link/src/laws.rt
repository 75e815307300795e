//! What holds of the machine itself. Each law is the contract of a call that does nothing.

ghost use Rattle.std.specs.Prelude.{◌≡◌, ℕ, ◌+◌, ◌*◌, ◌%◌, ◌≤◌, ◌⊎◌, true, List, length, None, is_some, IfSome};
ghost use Rattle.std.specs.List.{list_any};
ghost use Rattle.std.specs.Prelude.{Option};
ghost use Rattle.model_link.specs.declared.terms.Terms.{Terms};
ghost use Rattle.model_link.specs.Link.{Link, fresh, queue_of};
ghost use Rattle.model_link.specs.Events.{Received, Event, received, offer, cleared};
ghost use Rattle.model_link.specs.Machine.{after, after_all, told, given};
ghost use Rattle.model_link.specs.Notes.{is_data, is_unit};
ghost use Rattle.model_link.specs.Told.{orders_for, starts};
ghost use Rattle.model_link.specs.declared.timers.LinkTimer.{LinkTimer};
ghost use Rattle.model_link.specs.Deliveries.{Arrived, eligible};
ghost use Rattle.model_link.specs.Numbered.{History, nothing_yet, with_event, with_all, IsNumbered};
ghost use Rattle.model_link.specs.Rises.{RisesByEvent, may_send, grows, sent, sent_in_all, price_of_all};
ghost use Rattle.model_link.specs.Sound.{IsInRange, IsSound, IsGiven};
ghost use Rattle.model_link.specs.TwoEnds.{Ends, StepAt, doing_all, Begins, StayUp, Agree};

/// A link is sound as it begins, and every event keeps it sound. Its numbers are in order and within the window (Q.921
/// clause 5.6.1). Nothing is queued where it must not be. No acknowledgement is owed while its own receiver is busy.
/// Its contents and its control frames keep within their capacities.
pub fn stays_sound()
    ensures begins { (t : Terms) → IsInRange t → IsSound t fresh }
    ensures each { (t : Terms) (e : Event) (l : Link) → IsInRange t → IsSound t l → IsSound t (after t e l) }
    ensures always { (t : Terms) (es : List Event) → IsInRange t → IsSound t (after_all t es fresh) }
    // What an offer gives is a frame.
    ensures given { (t : Terms) (l : Link) → IsInRange t → IsSound t l → IfSome (given t l) (λ g. IsGiven t g.frame g.contents) }
    // The queue grows only by contents that are not refused, each time by one.
    ensures queue { (t : Terms) (e : Event) (l : Link) → IsInRange t → IsSound t l →
        length (queue_of (after t e l)) ≤ length (queue_of l) + grows t e l }
{}

/// What a link may still send without anything else happening rises by no more than an event's price, what the event
/// sends included. The price is 2 for a frame, and k more for an REJ with a valid N(R) in state 7 or 8; k + 1 for the
/// expiry of the running timer; 1 for an accepted request; otherwise 0. So no terminal can make a link a source of
/// frames.
pub fn rises()
    ensures event { (t : Terms) (e : Event) (l : Link) → IsInRange t → IsSound t l → RisesByEvent t e l }
    // A frame that goes was waiting, with at most one other that it makes needless.
    ensures offer { (t : Terms) (l : Link) → IsInRange t → IsSound t l →
        may_send t l ≤ may_send t (after t offer l) + 2 * sent t offer l }
    // For a list of events it is the sum of their prices.
    ensures list { (t : Terms) (es : List Event) (l : Link) → IsInRange t → IsSound t l →
        sent_in_all t es l + may_send t (after_all t es l) ≤ may_send t l + price_of_all t es l }
{}

/// What a link delivers since an establishment are, in order, the contents of the first eligible I-frame with N(S) 0,
/// of the first after it with N(S) 1, and so on modulo 128. After the last one, no eligible frame has the next number.
/// V(R) counts them (Q.921 clauses 3.5.2.4 to 3.5.2.6). An I-frame is eligible if it has at most N201 octets and meets
/// state 7 or 8 with own busy off. An establishment is an event in which the numbers are set to zero, or the link is
/// cleared.
pub fn numbered()
    ensures begins { IsNumbered nothing_yet fresh }
    ensures each { (t : Terms) (e : Event) (l : Link) (h : History) → IsNumbered h l → IsNumbered (with_event t e l h) (after t e l) }
    // Contents are delivered in the event that brings their frame.
    ensures at_once { (t : Terms) (e : Event) (l : Link) (contents : List ℕ) → (told t e l).delivered ≡ Some contents →
        (i : Arrived) × (eligible t e l ≡ Some i) × (i.contents ≡ contents) × (i.ns.value ≡ l.r % 128) }
    ensures always { (t : Terms) (es : List Event) → IsNumbered (with_all t es fresh nothing_yet) (after_all t es fresh) }
{}

/// An event tells at most two notes and gives at most two orders, of which at most one starts a timer. The clearing of
/// a link gives at most one note and one order. There is a note of data exactly if contents are delivered, and one of
/// unit data exactly if that is told. No event delivers both contents and unit data.
pub fn tells_little()
    ensures notes { (t : Terms) (e : Event) (l : Link) → length (told t e l).notes ≤ 2 }
    ensures data { (t : Terms) (e : Event) (l : Link) → list_any is_data (told t e l).notes ≡ is_some (told t e l).delivered }
    ensures unit_data { (t : Terms) (e : Event) (l : Link) → list_any is_unit (told t e l).notes ≡ is_some (told t e l).unit }
    ensures unit { (t : Terms) (e : Event) (l : Link) → ((told t e l).delivered ≡ None) ⊎ ((told t e l).unit ≡ None) }
    ensures orders { (t : Terms) (before started after : Option LinkTimer) → length (orders_for t before started after) ≤ 2 }
    ensures starts { (t : Terms) (before started after : Option LinkTimer) → starts (orders_for t before started after) ≤ 1 }
    ensures clearing { (t : Terms) (l : Link) → (length (told t cleared l).notes ≤ 1) × (length (told t cleared l).orders ≤ 1) }
{}

/// What comes from the terminal and is not served changes nothing.
pub fn unserved_stays()
    ensures { (t : Terms) (what : Received) (l : Link) → (told t (received what) l).unserved ≡ true → after t (received what) l ≡ l }
{}

/// Two links face each other, each in state 7 with its numbers zero and its flags off, and with nothing in transit
/// between them. Layer 3 may ask for anything on either side, and any timers may expire. Frames may be lost, if those
/// that are not keep their order. While both links stay in states 7 and 8, each has delivered exactly the first
/// contents that the other accepted, in order, as many as its V(R) counts. The other takes no more of them for
/// acknowledged (Q.921 clauses 5.6 and 5.8.1). The ends may have different terms.
pub fn two_ends()
    ensures near { (ds : List StepAt) (e : Ends) → Begins e.near → Begins e.far → StayUp ds e →
        Agree (doing_all ds e).near (doing_all ds e).far }
    ensures far { (ds : List StepAt) (e : Ends) → Begins e.near → Begins e.far → StayUp ds e →
        Agree (doing_all ds e).far (doing_all ds e).near }
{}

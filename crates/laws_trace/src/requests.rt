//! Laws of requests: when each is refused, what a granted one does, and how much is kept. Each is the contract of a call
//! that does nothing.

ghost use Rattle.laws_trace.specs.Trace.{Always};
ghost use Rattle.laws_trace.specs.AnswersSuit.{AnswersSuit};
ghost use Rattle.laws_trace.specs.NoSlotIsLost.{NoSlotIsLost};
ghost use Rattle.laws_trace.specs.RequestsTakeEffect.{RequestsTakeEffect};
ghost use Rattle.laws_trace.specs.RoomsAreTold.{NoRoomIsTold, RoomsAreTold};

/// Answers suit events. A call for the next frame is answered by a frame or by none. What is heard, and an expiry, are
/// answered by what is told alone. A request is refused exactly if one of its reasons holds, for the first that does.
/// Otherwise it is granted, so that what is told answers it. An observer knows the reasons (`Reasons` of specs/).
///
/// **Of a link** they are, in this order:
///
/// - the TEI is over 126, or it is not on the line;
/// - the state does not serve the request. State 4 serves the establishment, and 4, 7 and 8 the release. By annex B state
///   5 serves the establishment, and the release while none is owed, as [`links_move`] has this. States 7 and 8 serve
///   data, and that layer 3 is busy, or is so no more. Every state serves a deactivation;
/// - the data has more than N201 octets;
/// - the link keeps as many contents as it may, as [`what_is_given_is_due`] has these;
/// - the pool has no slot that is free, as [`no_slot_is_lost`] has these.
///
/// **Of unit data** they are those of a link, except the state. From the network's side its TEI may be the group's, 127.
/// Its queue is what waits, as [`units_go_out`] has it.
///
/// **Of management** they are, in this order:
///
/// - the side. A trunk's end removes no TEI. The network's side alone checks and disowns one. A terminal alone asks for
///   one, or has one verified;
/// - the TEI. It is over 126, or to be disowned over 127. It is not on the line; or it is, if it is to be assigned, or is
///   to be disowned. All TEIs are on the line while any is;
/// - to assign a TEI, or to ask for one, that no place is left; to check one, that a check runs; to ask for one, or to
///   have one verified, that a procedure of the terminal runs;
/// - to remove, check or disown a TEI, that the network's side owes four messages, as [`teis_are_managed`] has all this.
///
/// That the line is down is never refused (Q.921 clauses 5.2.2, 5.3.1 to 5.3.6, 5.5.1.1, 5.5.3.1, 5.5.3.2, 5.6.1, 5.6.6
/// and 5.9.3, annex B and profile).
pub fn answers_suit_events()
    ensures { Always AnswersSuit }
{}

/// Granted requests take effect. Each request of a link, by layer 3 or to deactivate it, is answered by how the link
/// stands, as an observer of it has this (`effect` of specs/ has the rows). It is refused as [`answers_suit_events`] has
/// it. Otherwise it is granted, and takes effect at once:
///
/// - `Card::state` tells 5 of a link that is to be established, and 6 of one that is to be released. SABME or DISC waits
///   then, and layer 3 is told of the answer, or that none comes, as [`news_is_told`] has it. The release of a link in
///   state 4 is confirmed in the answer.
/// - By annex B a link in state 5 stays there, whichever of the two is granted. It keeps no contents then, and no frame
///   waits that did not.
/// - Data comes after what the link keeps.
/// - RNR or RR waits as layer 3 comes to be busy, or is so no more.
/// - A link that is deactivated is in state 4, has nothing to send, and its end is told in the answer.
///
/// What waits, and what is kept, goes as [`what_is_given_is_due`] has it. A frame comes after those that wait, and is
/// lost if these are as many as may wait. As far as reading shows, all this follows from [`answers_suit_events`],
/// [`links_move`], [`news_is_told`] and [`nothing_is_lost_in_vain`], since what an observer knows changes as a request is
/// granted. Here it stands request by request (Q.921 clauses 5.5.1.1, 5.5.3.1, 5.5.3.2, 5.6.1 and 5.6.6, annex B and
/// profile).
pub fn granted_requests_take_effect()
    ensures { Always RequestsTakeEffect }
{}

/// Rooms are told as they are. Let a link's TEI be on the line. Some places of its queue `FrameCard::room` tells as
/// left; all others have the contents that the link keeps, as [`what_is_given_is_due`] has them. So contents take a
/// place until they are acknowledged, or layer 3 learns that they are lost. The slots of the pool are those left and
/// those taken, as [`no_slot_is_lost`] has them. If the TEI is not on the line, it tells that there is no link (`off`).
///
/// Of a link in state 7 or 8 V(A) is told, which is the N(R) that was heard of it last, and 0 if none was since its
/// numbers began. By what is left, of the queue and of the pool, the next request for data is refused, as
/// [`answers_suit_events`] has it; in the other states for the state (Q.921 clauses 3.5.2.3, 5.5.1.1, 5.5.1.2,
/// 5.5.3.1, 5.5.3.2 and 5.7, and profile).
pub fn rooms_are_told()
    ensures rooms { Always RoomsAreTold }
    ensures off { Always NoRoomIsTold }
{}

/// No slot of the pool is lost. The lines of a card together take no more slots than it has. A request finds the pool
/// full only if they take all of them, to an observer of the lines. These are one for each unit data that waits, as
/// [`units_go_out`] has it, and one for each contents that a link keeps, as [`what_is_given_is_due`] has it. So a slot
/// is free again as soon as its unit data begins, or its contents are acknowledged, or either is given up (profile).
pub fn no_slot_is_lost()
    ensures { Always NoSlotIsLost }
{}

//! What is delivered is in order, up to a release. Each law is the contract of a call that does nothing.

ghost use Rattle.laws_order.specs.InTheEnd.{BothAreTold, ReleasesAreTold};
ghost use Rattle.laws_order.specs.Order.{DeliveredInOrder};
ghost use Rattle.laws_order.specs.Release.{ReleasedIsOver, ReleasesEnd};

/// What is delivered is in order, whatever else happens. A line of a card of one side faces a line of a card of the
/// other, with the same SAPI of the second service; all else of their configurations may differ. Each card has
/// come about by events from its start, as every card has. At both `Card::state` tells 7 or 8 of the link of the same
/// service and TEI. They are in step to an observer of their lines (`Observer` and `Outgoing` of `laws_trace`):
///
/// - Each was told of at least as many contents since its numbers began as the other has heard acknowledged since its
///   own. It may be more, of those that the other keeps and within its window.
/// - Except unit data, what waits at an end or is in transit from it is a supervisory frame, or an I-frame. The
///   contents of the I-frame are kept and not acknowledged, and are of the number that N(S) means.
/// - What its N(R) mean rises, from what the other has heard acknowledged to what was told.
///
/// An establishment leaves them so, with V(S) and V(R) zero, even if UA is received as I-frames are in transit after
/// it, or if RNR waits. So are they at rest, mostly in the midst of data, and with an end in state 8. An I-frame that
/// is sent again, and is acknowledged by now, is not in step. Nor is a SABME that is still in transit, which breaks
/// what follows (`specs/WorkedBroken`).
///
/// Then anything happens at both: requests of any kind, of any link and TEI, expiries of any timer, and any events at
/// the other lines. On the wire frames that the two cards send, of all links, of TEI management and unit data, are
/// sent, received or lost. Whatever else is heard is no frame of the link. It may be faults, more octets than a frame
/// has, and frames of other terminals on the line, of TEI management and unit data.
///
/// Each end is told a prefix of what the other's link kept at first, without what was told, and of what the other's
/// layer 3 was granted to send since. It is told this in order, each content once, and no other (Q.921 clauses 5.6 and
/// 5.8.1). This holds as long as layer 3 of this end is not granted the release of the link, and this end tells no note
/// that ends the establishment or renews it. It holds whatever happens to the establishment at the other end. If its
/// release is granted there, with contents waiting and frames in transit, this end is told so up to its own indication.
/// It would be told of a frame in transit from an earlier establishment, too (`specs/WorkedBroken`). After the end of
/// an establishment [`releases_end`] says what is told.
pub fn delivered_in_order()
    ensures { DeliveredInOrder }
{}

/// A release ends it. At an end of the wire `Card::state` tells 6 of the link. So it does after layer 3 is granted the
/// release of a link in state 7 or 8, whatever it kept, and whatever is in transit (Q.921 clause 5.5.3.2). By annex B
/// it does so, too, as UA with F=1 is heard in state 5 while a release is owed that was granted there. Then anything
/// happens at both ends, as in [`delivered_in_order`]; the other releases, too, or does anything else. Layer 3 of this
/// end is told of the link that the release is confirmed, once, and no data. This ends when it is granted an
/// establishment or another release, or is told of an establishment. Error H comes before it if N200 repeats of DISC
/// had no answer (`released`).
///
/// An end is told nothing of the link and no data (`over`) if the link is in state 4, as after any note that it is
/// released. The same holds if it has no state, as its TEI is not on the line.
///
/// Left out are errors C and D, by which each UA is told that answers nothing: D in state 6, C and D in state 4 (clause
/// 5.8.7). They come, for example, if both release and DISC is sent twice (`specs/WorkedRelease`). Unit data and XID
/// are told in every state. By annex B errors L, N and O are left out too, of malformed frames (clause 5.8.5). And by
/// annex B the law ends as DM with F=0 is heard in state 4, by which the other side asks for an establishment (clause
/// 5.5.4). The reading is that of this end.
pub fn releases_end()
    ensures released { ReleasesEnd }
    ensures over { ReleasedIsOver }
{}

/// A release is told in the end, at both ends. At an end of the wire the link is in state 6, as after layer 3 was
/// granted the release of a link in state 7 or 8, whatever waits and whatever is in transit. (A release that is granted
/// in state 4 leaves the link in state 4. It is confirmed at once, no DISC is sent, and the other end is not told. Of
/// it this law says nothing. By annex B one that is granted in state 5 is owed there. This law says nothing of it until
/// UA leads the link to state 6. If no UA comes, that is after up to N200 + 1 expiries in state 5, by error G and the
/// confirm: `links_move` and `news_is_told` of `laws_trace`.) Then anything happens at both, as in
/// [`delivered_in_order`], and frames are lost, too.
///
/// Once T200 has expired there more than N200 times, if not before, this end was told that the release is confirmed, by
/// itself or after error H. The exception is that something else began, as in [`releases_end`] (`here`; Q.921 clauses
/// 5.5.3.2 and 5.5.3.3).
///
/// If it is told the confirm alone, the other end was told (`there`). The two faced each other in step before the
/// release, as in [`delivered_in_order`], and the other's establishment lasted until then. Then its layer 3 was told
/// after the release that this is over or renewed, or it was granted a release itself. The note is one that ends it in
/// [`delivered_in_order`], so maybe error B alone.
///
/// Both hold while the TEI stays on the line of the end that releases, and its link is not deactivated. Either confirms
/// the release there, and the other end knows nothing of it. If error H is told, each DISC may have been lost, and then
/// the other end is told nothing (`specs/WorkedEnding` of `laws_wire`).
pub fn releases_are_told()
    ensures here { ReleasesAreTold }
    ensures there { BothAreTold }
{}

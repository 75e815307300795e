//! The laws. Each is the contract of a call that does nothing.

ghost use Rattle.laws_trace.specs.Sapis.{ServicesHaveTheirSapis};
ghost use Rattle.laws_trace.specs.Trace.{Always};
ghost use Rattle.laws_trace.specs.AskingEnds.{AskingEnds};
ghost use Rattle.laws_trace.specs.AnswersAreGiven.{AnswersAreSent, QueueIsSent};
ghost use Rattle.laws_trace.specs.Configurations.{FirstFaultsAreNamed, RangesAreServed};
ghost use Rattle.laws_trace.specs.CausesAreTold.{CausesAreTold};
ghost use Rattle.laws_trace.specs.CountersCount.{CountersCount};
ghost use Rattle.laws_trace.specs.OtherSide.{TheOtherSideIsHeard};
ghost use Rattle.laws_trace.specs.FramesAreRead.{FramesAreRead, FramesAreOctets};
ghost use Rattle.laws_trace.specs.FramesAreDue.{GivenIsDue, DueIsGiven};
ghost use Rattle.laws_trace.specs.Deliveries.{WhatIsToldWasHeard};
ghost use Rattle.laws_trace.specs.LinksMove.{LinksMove};
ghost use Rattle.laws_trace.specs.LinkCountersCount.{LinkCountersCount};
ghost use Rattle.laws_trace.specs.News.{NewsIsTold};
ghost use Rattle.laws_trace.specs.NoLossInVain.{NoLossInVain};
ghost use Rattle.laws_trace.specs.GivenUpIsTold.{GivenUpIsTold};
ghost use Rattle.laws_trace.specs.TeisAreManaged.{TeisAreManaged};
ghost use Rattle.laws_trace.specs.TimersAreTimely.{TimersAreTimely, TimersRun};
ghost use Rattle.laws_trace.specs.TurnsMeanwhile.{LinksTakeTurnsMeanwhile};
ghost use Rattle.laws_trace.specs.UnitsGoOut.{UnitsGoOut, AllUnitsGoOut};

/// The check of a configuration names the first of its fields that is out of range, and finds no fault exactly if none is.
/// Every law here speaks of each configuration without a fault. With any other no card starts (profile).
pub fn ranges_are_served()
    ensures { FirstFaultsAreNamed }
{}

/// The same in inequalities: no fault is found exactly if each value of the configuration is within its range.
pub fn values_are_in_range()
    ensures { RangesAreServed }
{}

/// The other side is heard. As frames are read, C/R bit 0 makes a command of one that a card of the network's side
/// hears. Bit 1 makes a command of one that a card of the user's side hears. Of what begins on its lines it is the other
/// way round (Q.921 clause 3.3.2). This is of the words by which the other laws read frames: `heard_side` of a
/// configuration, and its own side.
pub fn the_other_side_is_heard()
    ensures { TheOtherSideIsHeard }
{}

/// Services have their SAPIs. As the other laws read frames, a frame is one of call control, of the second service, or of
/// layer 2 management, exactly if its first octet has SAPI 0, the SAPI of the configuration, or 63 (Q.921 clause 3.3.3, and
/// profile). This holds of what begins on a card's lines, and of what it hears, also if that is malformed or too long.
pub fn services_have_their_sapis()
    ensures { ServicesHaveTheirSapis }
{}

/// Unit data goes out. A call for the next frame gives a UI frame, except those of TEI management, only of the unit data
/// that has waited longest (`front`). It is spelled as a UI command with P=0, with its service, its TEI and its
/// contents, whole. Unit data waits from when it is granted until it begins, so it goes in order and once; or until the
/// line is down, when what waits is given up.
///
/// A call gives none, or a frame of a link, only if no unit data waits. So unit data goes before frames of links, and as
/// calls come to an end (`calls_come_to_an_end` of the promises), all of it goes (`all`).
///
/// [`answers_suit_events`] says when unit data is granted (Q.921 clauses 3.6.5 and 5.2.2, annex B, and profile).
pub fn units_go_out()
    ensures front { Always UnitsGoOut }
    ensures all { Always AllUnitsGoOut }
{}

/// What begins on a line are frames. Each is one that the grammar has, as that of the card's side, with the SAPI of a
/// service or of TEI management (Q.921 clauses 2 and 3). So it is a frame of a link, as [`what_is_given_is_due`] has
/// these, unit data, as [`units_go_out`] has it, or a message of TEI management, as [`teis_are_managed`] has these.
/// Nothing else begins.
pub fn frames_are_read()
    ensures { Always FramesAreRead }
{}

/// What begins on a line are octets. If the contents that were granted and the frames that were heard are octets, each 0
/// to 255, each frame that begins consists of octets (Q.921 clauses 2 and 3).
pub fn frames_are_octets()
    ensures { Always FramesAreOctets }
{}

/// Links take turns, whatever else happens at the line meanwhile. Let two frames begin for one link whose TEI stays on
/// the line. Between them one begins of every other link that offers one all the while, as an observer of it has this
/// ([`what_is_given_is_due`]; profile).
pub fn links_take_turns_meanwhile()
    ensures { Always LinksTakeTurnsMeanwhile }
{}

/// What layer 3 is told was heard. At each event of a line data of a link is told exactly if an I-frame for it comes
/// that it takes. It takes one in states 7 and 8, while layer 3 is not busy, of at most N201 octets. Its N(S) has to be,
/// modulo 128, the number of contents told of the link since its numbers began. All this is as an observer of the link
/// has it (`Observer` of specs/).
///
/// Unit data is told exactly if a UI command of at most N201 octets comes to a TEI on the line, whatever the state of
/// its link. On the user's side one to the group, TEI 127, is told, too. The contents that are told are the information
/// of that frame, and are noted as one or the other, once (Q.921 clauses 3.3.4, 3.5.2.4 to 3.5.2.6, 5.2.2, 5.2.3,
/// 5.5.1.2, 5.6.2, 5.6.6, 5.7 and 5.9.3).
pub fn what_is_told_was_heard()
    ensures { Always WhatIsToldWasHeard }
{}

/// What is given of a link is due. A call for the next frame gives a frame of a link, except UI, only as the link offers
/// it, whole (`due`). What it offers an observer knows (`Outgoing` of specs/). First is the control frame that has
/// waited longest. If none waits, it is an I-frame, if one may go and contents are kept that have not gone, or are to go
/// again. Otherwise it is RR with F=0, if an acknowledgement is owed. And a call gives no frame only if no link of a TEI
/// on the line offers any (`none`). As calls come to an end (`calls_come_to_an_end` of the promises), all goes that
/// waits, is owed or may go.
///
/// **I-frames.** One may go in state 7, so that no recovery runs, while the terminal is not busy by the last RR, RNR or
/// REJ, and fewer than k are outstanding. It has P=0. Its N(S) is the number that goes next, V(S). So I-frames go again
/// in order, from the number to which REJ or the end of a recovery set V(S) back, and none is passed over. It has the
/// contents that the link keeps at V(S), counted from V(A) on.
///
/// **What is kept.** A link keeps data from when it is granted, in order, each once, until V(A) passes it, in states 7
/// and 8 by the N(R) that is heard. It keeps it no longer if its TEI leaves, or layer 3 learns that all is lost. Layer 3
/// learns it by an establishment, a release or a deactivation that is granted, an indication of the establishment, or an
/// indication or a confirm of the release, which are told as [`news_is_told`] has them. So contents stay when the numbers
/// begin and none of these is told.
///
/// **Control frames** wait from when they are due until they begin, the link is deactivated, or its TEI leaves the line.
/// The last of a moment do not, as many as its answer counts as lost. These are due, by the state of the link before:
///
/// - UA to SABME and to DISC, with F = P; but DM to SABME in state 6, and to DISC in states 4 and 5.
/// - In states 7 and 8 REJ, with F = P, to an I-frame of at most N201 octets of which nothing is told though layer 3 is
///   not busy. It is due to the first such frame since data was told or the numbers began.
/// - In states 7 and 8 RNR or RR with F=1 to each other such I-frame with P=1, and to RR, RNR and REJ that are commands
///   with P=1.
/// - In states 7 and 8 RNR or RR with F=0 as layer 3 comes to be busy, or is so no more.
/// - With P=1, SABME, DISC or an enquiry as the link comes to state 5, 6 or 8, and again as T200 expires and leaves it
///   there.
///
/// An acknowledgement, and an enquiry, is RNR while layer 3 is busy and RR while it is not.
///
/// **N(R)** is the number of contents told of the link since its numbers began, modulo 128. An I-frame, and an RR that
/// goes by itself, has it as it begins; another frame as it was due.
///
/// **An acknowledgement is owed** for data that is told. It is owed no more once a frame of the link is due, or one
/// begins that did not wait, or the link leaves states 7 and 8, or comes there. So the last N(R) that goes acknowledges
/// all that is told. It may not if, before that went, a frame was told as lost, the link left states 7 and 8, or its
/// numbers began anew (Q.921 clauses 3.5.1, 3.5.2.1 to 3.5.2.6, 5.3.4, 5.5, 5.6, 5.7, 5.8.1 and 5.10.3).
pub fn what_is_given_is_due()
    ensures due { Always GivenIsDue }
    ensures none { Always DueIsGiven }
{}

/// What answers a poll, SABME or DISC is given within a number of calls for the next frame. It waits in the queue of its
/// link, as [`what_is_given_is_due`] has it, unless it is told as lost. And all that is in the queue of a link is given,
/// in order, by the calls for the next frame of the line among the events that follow. Each frame, of two alike, too,
/// has a call of its own. This holds once there are enough calls, whatever else happens and whatever was lost. The TEI
/// stays on the line, to an observer, and the link is not deactivated.
///
/// There have to be more calls than frames that the configuration lets go before. First are all messages of TEI
/// management that may wait: four, and at a terminal one more than its line may have TEIs. (At a trunk's end none does.)
/// Then there are all unit data that may wait, one frame of every link for each other control frame that the link has
/// room for, and one of each other link. Each message of TEI management and each unit data that comes meanwhile counts,
/// too. So with eight terminals, 4 unit data and 4 control frames 72 calls are enough on the network's side, if none of
/// these comes (Q.921 clauses 5.5.1.2, 5.5.3.2, 5.6.2 to 5.6.7, 5.7 and 5.8.1, and profile).
pub fn answers_are_given()
    ensures { Always QueueIsSent }
{}

/// What is due joins the queue. Something happens at a line, and the answer to it tells no frame as lost. Then each
/// control frame of a link that is due by it, as [`what_is_given_is_due`] has these, joins the end of the link's queue.
/// This is of the observer's words alone, and so of every card.
pub fn what_is_due_joins_the_queue()
    ensures { Always AnswersAreSent }
{}

/// Nothing is lost without need. Let control frames of a link become due by an event, as [`what_is_given_is_due`] has
/// them, while its TEI stays on the line. Then an answer tells as many as lost as find no place beside those of the link
/// that wait. At most as many wait as the configuration says. If none of any link becomes due, it tells as many as
/// messages of TEI management are lost, by [`teis_are_managed`]. On the network's side these are those for which no place
/// is left, as four are owed. A terminal loses none (profile).
pub fn nothing_is_lost_in_vain()
    ensures { Always NoLossInVain }
{}

/// What is given up is told. An event gives up all that the link of a TEI keeps, or nothing. It gives it up if layer 3
/// learns that the link keeps nothing, or if the TEI leaves the line. The observer of [`what_is_given_is_due`] defines
/// what it keeps: what it is granted, and is neither acknowledged nor given up. All links that give up contents by one
/// event are of one TEI, and this TEI is told. It is the one that the request names, if the event is a request of a link,
/// or removes a TEI. If not, it is the one that the first note of the answer names. Of each service the answer tells as
/// many as one link gives up. It tells none only if no link gives up any (profile).
pub fn given_up_is_told()
    ensures { Always GivenUpIsTold }
{}

/// TEIs are managed as the procedures say. Whatever happened to a card, the answer to an event of a line shows exactly
/// what is due of TEI management by that event. An observer of the line knows what is due (`Managing` of specs/). It is
/// the notes of TEIs, the orders of T201 and T202, and the frames with SAPI 63 that begin. First the network's side.
///
/// **Requests of terminals.** A terminal that asks for a TEI by an Ri is owed the one that is held for this Ri.
/// Otherwise it is owed the lowest from 64 on that is not on the line, which is told, while that has fewer than the
/// configuration has terminals; or a denial. If there is no room for the answer, it is owed nothing. By annex B none is
/// held. Then a request whose answer is owed is not served, and one for a TEI of 64 to 126 is denied.
///
/// **Checks.** A check of a TEI on the line begins by a granted request, and by a verify while none runs. Its terminals
/// are asked, if fewer than four messages are owed, and T201 is started; both once more as it expires. As it expires
/// again the check is over, and a TEI of which no terminal answered is told as removed. If a second one answers in one
/// of the periods, it is told that two have it, they are owed a removal, and the TEI leaves. As a check is over, T201 is
/// stopped.
///
/// By annex B the terminals of a TEI of which none answered are owed a removal, too. One response may name up to 64 TEIs.
/// Octets that follow these, or the five of another message, are not looked at, here and at a terminal.
/// If a TEI is verified while another is checked, its terminal is asked at once, unless that is owed, and the TEI is
/// checked later: as a check is over, that at the lowest place is, and T201 is started, not stopped.
///
/// **Removals** are owed by a granted request, too, and the TEI leaves. The terminals of a TEI that is disowned are owed
/// one.
///
/// **Messages** begin as the line is called for its next frame, before all other frames, the oldest first, whole, each
/// once, in the octets of clause 5.3.6. At most four are owed. As the line is down none is owed any more, a check that
/// runs is over, and T201 is stopped.
///
/// **Granted** is exactly this. A TEI of at most 126 is put on a line that does not have it and has room. On the
/// network's side more is granted, while fewer than four messages are owed. One that is on the line is removed, or
/// checked while no check runs. One that is not on the line is disowned, or all TEIs while none is. A trunk's end serves
/// no message.
///
/// **A terminal** is a user's side with a seed (`ManagingTerminal` of specs/).
///
/// - *It asks* for a TEI by a granted request, if it has room for one and has no other procedure. It asks three times at
///   most, with a new reference number each time, as T202 expires; then it tells that none was assigned. A TEI of 64 to
///   126, by annex B of 0 to 126, that is assigned by the number of the latest request comes to the line, and is told. A
///   denial by that number is told, and ends nothing.
/// - *It verifies* a TEI on its line by a granted request, and if that is assigned to another terminal. It asks the
///   network for a check twice. If no check comes until T202 expires again, the TEI leaves, which is told.
/// - *It answers* a check of its TEI, and of each of its TEIs if all are checked. *It gives up* a TEI that the network
///   removes, which is told. If all are removed and it has more than one, it tells so alone. By a granted request a TEI
///   leaves untold.
/// - T202 is started with each request and each verify, and stopped as a procedure ends.
/// - *No message is owed twice, and none is lost.* A newer request takes the place of an older one that is owed. A verify
///   or a response that is owed is enough, for the one procedure and for each TEI. What is owed is withdrawn as its
///   procedure ends, or its TEI leaves. Nothing is refused for want of room for a message (Q.921 clauses 4.1.1.5,
///   5.3.1 to 5.3.6, 5.9.4 and 5.9.7, annex B and profile).
pub fn teis_are_managed()
    ensures { Always TeisAreManaged }
{}

/// Asking for a TEI ends. From a granted request of a terminal's management on, whatever its line hears, one result is
/// told: that a TEI is assigned, or that none is, after the third expiry of T202 at the latest. No other is granted before,
/// unless the line is down, which ends asking without a result (Q.921 clauses 5.3.2, 5.3.2.1, 5.9.4, annex B, profile).
pub fn asking_ends()
    ensures { Always AskingEnds }
{}

/// Timers are timely. Whatever happened to a card, the answer to an event of a line orders for the timers of a link
/// exactly what is due, for T200 first. One is started if it runs then and did not run before, or is started anew. It is
/// stopped if it ran, up to its expiry, and runs no more.
///
/// - **T200 runs** while an answer is awaited: in states 5, 6 and 8, and in state 7 if an I-frame is outstanding, or the
///   terminal is busy. Outstanding are those that went and are not acknowledged, except those that are to go again,
///   since REJ or the end of a recovery.
/// - **T203 runs** in state 7 if T200 does not. Neither runs in state 4, nor if the TEI is not on the line.
/// - **Started anew** is one as the link moves to another state, or as T200 expires and leaves it in its own. In state 7
///   frames start it anew. For T200 this is RNR, and RR, or I while the terminal is not busy, whose N(R) acknowledges an
///   I-frame. For T203 it is RR, REJ, I or SABME.
///
/// So T200 runs on from an earlier I-frame or enquiry as further I-frames go (clause 5.6.1), as a frame acknowledges
/// nothing, and in state 8 until the enquiry is answered (clause 5.6.7). And no UI, XID, UA, request for data or call
/// for a frame starts a timer anew that runs (Q.921 clauses 5.5.1, 5.5.3, 5.6.1 to 5.6.7, 5.9.1, 5.9.8 and 5.10.3).
pub fn timers_are_timely()
    ensures { Always TimersAreTimely }
{}

/// Timers run while they are due. At a caller's that obeys the orders T200 and T203 of a link run exactly while
/// [`timers_are_timely`] has it so, after every list of events (Q.921 clauses 5.9.1, 5.9.8 and 5.10.3).
pub fn timers_run()
    ensures { Always TimersRun }
{}

/// Links move as the procedures lead them. After every list of events `Card::state` tells of a link the state in which
/// an observer of the line has it (`Observer` of specs/), and none if its TEI is not on the line. As the TEI comes, that
/// is 4. Then it is
///
/// - 7 by SABME in states 4, 7 and 8, and by UA with F=1 in state 5, unless a release is owed;
/// - 7 in state 8 by RR, RNR or REJ as a response with F=1 whose N(R) is valid;
/// - 4 by DISC in states 7 and 8, and by a deactivation in any state;
/// - 4 by DM with F=1 in states 5 and 6, and by UA with F=1 in state 6;
/// - 5 by a request to establish it in state 4, and by DM with F=0 in state 7, by annex B also in state 4;
/// - 5 in states 7 and 8 by FRMR, an invalid N(R), a malformed frame, and an I-frame that is too long, by annex B also a
///   UI, and in state 8 by any DM;
/// - 6 by a request to release it in states 7 and 8, and by UA with F=1 in state 5 if a release is owed;
/// - 8 by the expiry of the timer that runs in state 7.
///
/// A release is owed, by annex B alone, from when one is granted in state 5, until the link leaves that state or layer 3 is
/// granted its establishment there.
///
/// As T200 expires in states 5, 6 and 8, the link leaves them, for 4, 4 and 5, if it has expired N200 times before since
/// the link came there. By annex B the expiry that leads from state 7 to 8 is one of these, unless N200 is 0. Nothing else
/// moves a link. So a link awaits an answer through N200 expiries, and no more (Q.921
/// clauses 3.5.2.3, 5.3, 5.5.1 to 5.5.5, 5.6.7, 5.7, 5.8, 5.9.2 and 5.10.3, and annex B).
pub fn links_move()
    ensures { Always LinksMove }
{}

/// The counters of a link count what its events show. `Card::link_counts` tells them of a link whose TEI is on the line, and
/// nothing of any other. Its events are what an observer of the line has of it, in order, since its TEI came: what it hears,
/// expiries of its timers, requests of it that are granted, and its frames that begin. What they show is counted as
/// `counts_are_true` of `laws_link` has it, and begins anew as the link is deactivated. It is how many I-frames began whose
/// number had begun before in the same establishment, how often T200 expired while it ran, how many REJ began, how many came in
/// states 7 and 8, and how often the link was established. UA that leads to state 6 does not establish it. No number is over
/// 65535 (Q.921 clauses 5.5.1.2, 5.6.1, 5.6.4, 5.7, 5.8.1 and 5.9.1, annex B, and profile).
pub fn link_counters_count()
    ensures { Always LinkCountersCount }
{}

/// News of links is told, and errors. In the answer to an event the notes of a link, except data and unit data, are
/// exactly what is due, errors first. There is none if its TEI was not on the line. A link whose TEI leaves ends. News
/// is:
///
/// - an establish indication as the link comes from state 4 to state 7;
/// - as it comes to state 7 from state 5, a confirm if layer 3 asked for that establishment, by annex B also in state 5;
/// - an establish indication, too, if this side began it, or the terminal establishes a link anew by SABME. It is told
///   exactly if an I-frame is outstanding, as [`timers_are_timely`] has it; in state 5 as it was when the link came
///   there;
/// - a release confirm as it comes from state 6 to its end or to state 4, or from state 5 while a release is owed, as
///   [`links_move`] has it, or is released in state 4;
/// - a release indication as it comes there from another state;
/// - XID that is heard of it.
///
/// So no confirm is told that layer 3 did not ask for, but by annex B as if it did after DM with F=0 in state 4; none twice,
/// and no end of a link goes untold. Errors are, by letter,
///
/// - in states 7 and 8: B and E, DM with F=1 and F=0; F, SABME; J, an invalid N(R); K, FRMR;
/// - there, too: A, RR, RNR or REJ with F=1 in state 7; L, N and O, what is malformed, of wrong size or too long, by annex
///   B in any state, and UI as an I-frame;
/// - in any state: C and D, UA with F=1 that no command asked for, and any with F=0;
/// - G, H and I, as T200 gives up states 5, 6 and 8 (Q.921 clauses 4.1.1.1, 4.1.1.2, 4.1.1.7, 5.5.1, 5.5.3, 5.6.7, 5.7,
///   5.8 and appendix II).
pub fn news_is_told()
    ensures { Always NewsIsTold }
{}

/// The cause of each drop is told. The answer to an event of a line names a cause exactly if one is due by that event.
/// It is the one that is due, and the answer says nothing else. No cause is due by a request, an expiry or a call for
/// the next frame. Of what is heard one is due in these cases, whatever happened to the card before.
///
/// A stretch that is no frame has its own cause: `Abort`, `Ragged`, `Short` or `Fcs`. A frame has `Extension` if its
/// extension bits are not those of two octets. It has `Sapi` if its SAPI is not 0, 63 or that of the second service
/// ([`services_have_their_sapis`]). It has `Tei` if it is of a service and its TEI is not on the line, or if its SAPI is
/// 63 and its TEI is not 127. On the user's side a UI of a service with TEI 127 and at most N201 octets has none.
///
/// A frame for a link whose TEI is on the line has `Unserved` if the link does not serve it in the state that
/// [`links_move`] tells. In states 7 and 8 a link serves each frame, also one that is malformed. In states 4, 5 and 6 it
/// serves SABME, DISC, UA, XID and UI, and in states 5 and 6 DM with F=1. In no state it serves a UI of more than N201
/// octets, nor a UI or XID that was too long to keep. By annex B it serves in each state also what is malformed, and an
/// I-frame or a UI that is too long, and in state 4 DM with F=0.
///
/// A frame for TEI management has `Unserved`, too. On the network's side a UI has none if its information is one of
/// three messages. It asks for a TEI with Ai 127. Or it answers the check that runs. Or it asks for a check of a TEI on
/// the line, and none runs; by annex B these are more and fewer, as [`teis_are_managed`] has it. At a terminal a UI command
/// has none if its information is one of five messages. By the Ri of the request that is outstanding it assigns a TEI that
/// may come to the line, or denies one. Or it assigns a TEI on the line, and no procedure runs. Or it checks or removes
/// TEIs on the line. [`teis_are_managed`] has the TEIs on the line, the check and the procedure (Q.921 clauses 2.6, 2.7,
/// 2.9, 2.10, 3.3.1 to 3.3.4, 5.3.1 to 5.3.6 and 5.8.5, annex B, and profile).
pub fn causes_are_told()
    ensures { Always CausesAreTold }
{}

/// Counters count what is seen, and what is dropped. The moments of a run at a line show to its counters what is seen
/// there, name by name, whatever happened before:
///
/// - of a frame that is heard or begins its kind, its octets, whether it is a poll, and the message of TEI management in
///   it;
/// - each note;
/// - for each answer that names a cause one drop of that cause, as [`causes_are_told`] has these;
/// - the frames that were lost.
///
/// They show nothing else. So by `counters` and `counters_add_up` of `Card::drive` the counters of a line are numbers of
/// these (profile).
pub fn counters_count()
    ensures { CountersCount }
{}

//! What holds of images. Each law is the contract of a call that does nothing.

ghost use Rattle.model_image.specs.Laws.{CardsBeginSaved, CardsGoOn, ImagesAreOctets, ImagesAreRead, ImagesFit, ImagesTellNoMore, LinksGoOn};
ghost use Rattle.model_image.specs.Restored.{ARestoredCardGoesOn, RestoredCardsAreReached};

/// An image is of one card. If two cards that are saved have the same image, they are the same as far as a card can tell. They
/// have one configuration, and line by line the same TEI management, unit data and turn, the same counters, and the same links
/// that wait for room. Each two links have the same state, flags, queue, control frames and RC, and the same V(A), V(S) and
/// V(R) by 128. As many of their contents go again, and the same was counted of them. Their timers fall due at the same
/// moments, and their states changed last at the same.
///
/// And it tells no more: two cards that are the same in all this have the same image.
pub fn images_are_read()
    ensures read { ImagesAreRead }
    ensures no_more { ImagesTellNoMore }
{}

/// Two links that are the same go on the same. To each event they answer the same, and after it they are the same again. So a
/// link that is read from an image goes on as the saved one would.
pub fn links_go_on()
    ensures { LinksGoOn }
{}

/// Two cards of frames whose lines are the same go on the same: to every list of events they give the same replies, and then
/// their lines are the same again. So a card that is read from an image answers as the saved one would.
pub fn cards_go_on()
    ensures { CardsGoOn }
{}

/// A restored card goes on. It is reached, so all that is promised of cards that are reached holds of it, whatever image it was
/// restored from (`reached`). And it answers as the saved one would: a card of frames to every list of events, and one of
/// octets as one whose ports begin anew. If it keeps its own timers, the same timers fall due, at the same steps. Let what is
/// noted of a link be what was saved of it: its state, and the moment of its last change. Then after these steps both note the
/// same of the link (`goes_on`).
pub fn a_restored_card_goes_on()
    ensures reached { RestoredCardsAreReached }
    ensures goes_on { ARestoredCardGoesOn }
{}

/// What is said of cards that are saved is so of each card as it begins.
pub fn cards_begin_saved()
    ensures { CardsBeginSaved }
{}

/// An image is a list of octets, of which its configuration and its kind give the most.
pub fn images_fit()
    ensures octets { ImagesAreOctets }
    ensures few { ImagesFit }
{}

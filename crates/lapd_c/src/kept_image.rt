//! A card as C holds it, in an image.

ghost use Rattle.std.specs.Prelude.{◌≡◌, ℕ, List, IfOk, IfErr, IfSome};
ghost use Rattle.lapd_card.specs.Kinds.{config_of, line_count};
ghost use Rattle.lapd_timed.specs.Called.{keeps_timers};
ghost use Rattle.lapd_timed.specs.Stands.{AreOfLines};
ghost use Rattle.lapd_image.specs.Puts.{Puts};
ghost use Rattle.lapd_timed.specs.Image.{IsRestoredFrom};
ghost use Rattle.model_image.specs.Images.{image_of, Saved};
ghost use Rattle.model_line.specs.Most.{most_octets};
ghost use Rattle.model_image.specs.Sound.{IsSaved};
ghost use Rattle.lapd_c.specs.Saves.{IsFault, IsHeldAs, IsNoImage, IsRead};
ghost use Rattle.lapd_c.specs.Statuses as status;

use crate::kept::KeptCard;
use crate::plain::{BAD_IMAGE, NO_MEMORY};
use crate::refused::Refused;
use crate::waiting::{mark, waits_of};
use lapd_timed::{ImageFault, Restored, TimedCard, restore};
use std::alloc::Global;

impl KeptCard {
    /// How many octets an image of it takes at most.
    pub(crate) fn image_octets(&self) -> usize
        ensures { result ≡ most_octets (config_of self.now.timed.card) (keeps_timers self.now.timed) }
    {
        self.timed.card().image_octets(self.timed.is_timed())
    }

    /// Writes its image in front of a room, and answers how many octets it has. What does not fit is left out.
    pub(crate) fn save(&self, out: &mut [u8]) -> usize
        ensures puts { (s : Saved) → IsHeldAs self.now s → Puts (image_of s) 0 out.old result out.new }
        ensures saved { (s : Saved) → IsHeldAs self.now s → IsSaved s }
    {
        let waits = waits_of(self.timed.card().frames(), &self.refused);
        self.timed.save(&waits, out)
    }

    /// The card of an image.
    ///
    /// # Errors
    ///
    /// The status of a restore: `BAD_IMAGE` if these octets are none, or `NO_MEMORY`.
    pub(crate) fn restore(alloc: Global, image: &[u8]) -> Result<Box<KeptCard>, u32>
        ensures read { IfOk result (λ kept. IsRead image.now kept.value) }
        ensures fault { IfErr result (λ fault. fault ≡ status.bad_image → IsNoImage image.now) }
        ensures faults { IfErr result IsFault }
    {
        match restore(alloc, image) {
            Ok(restored) => KeptCard::resume(alloc, restored).ok_or(NO_MEMORY),
            Err(ImageFault::BadImage) => Err(BAD_IMAGE),
            Err(ImageFault::OutOfMemory) => Err(NO_MEMORY),
        }
    }

    // A card that was restored, with the marks of the links that wait.
    fn resume(alloc: Global, restored: Restored) -> Option<Box<KeptCard>>
        requires { AreOfLines (line_count restored.card) restored.timers }
        ensures { IfSome result (λ kept. (image : List ℕ) → IsRestoredFrom image restored.card restored.waits restored.timers → IsRead image kept.value) }
    {
        let Restored {
            card,
            waits,
            timers,
        } = restored;
        let lines = usize::from(card.frames().config().lines);
        let mut refused = Refused::start(alloc, lines).ok()?;
        mark(&mut refused, card.frames(), &waits);
        let timed = TimedCard::of(card, timers);
        Box::new(alloc, KeptCard { timed, refused }).ok()
    }
}

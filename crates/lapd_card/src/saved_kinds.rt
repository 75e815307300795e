//! A card of either kind in an image.

ghost use Rattle.std.specs.Prelude.{◌≡◌, ◌≤◌, true, false, length, IfOk, IfErr};
ghost use Rattle.lapd_card.specs.Image.{image, lines_of, AnyRestores, IsSavedOf};
ghost use Rattle.lapd_card.specs.Kinds.{Machine, AnyStands, config_of, kind_of};
ghost use Rattle.lapd_card.specs.Start.{is_too_small};
ghost use Rattle.lapd_card.specs.declared.saved.RestoreFault.TheVariants as faults;
ghost use Rattle.lapd_image.specs.Puts.{Puts};
ghost use Rattle.lapd_image.specs.Reads.{HasNone};
ghost use Rattle.model_line.specs.Sound.{IsInRange};

use crate::card::Card;
use crate::frame_card::FrameCard;
use crate::kinds::AnyCard;
use crate::saved::RestoreFault;
use crate::start::ports;
use lapd_image::Reader;
use lapd_line::Config;
use lapd_store::RawShelf;
use model_card::CardKind;
use std::alloc::Global;

impl AnyCard {
    /// Writes its lines, and the counters of all lines, into a room, from a place on, and answers the place after. What does not
    /// fit is left out. What stands half received or half sent in its ports, if it has any, is not in it.
    pub fn save(&self, out: &mut [u8], at: usize) -> usize
        requires { at ≤ length out.old }
        ensures within { result ≤ length out.new }
        ensures puts { (m : Machine) → AnyStands self.now m → Puts (image (lines_of self.now m)) at out.old result out.new }
        ensures saved { (m : Machine) → AnyStands self.now m → IsSavedOf (config_of self.now) (lines_of self.now m) }
    {
        self.frames().save(out, at)
    }

    /// Starts a card of this kind, and reads its lines and their counters, as [`FrameCard::restore`] does. The ports of a card of
    /// octets begin anew.
    ///
    /// # Errors
    ///
    /// Those of [`FrameCard::restore`].
    pub fn restore(
        alloc: Global,
        kind: CardKind,
        config: Config,
        shelf: RawShelf,
        reader: &mut Reader<'_>,
    ) -> Result<AnyCard, RestoreFault>
        requires { IsInRange config }
        ensures read { IfOk result (λ card. AnyRestores kind config reader.old reader.new card) }
        ensures kind { IfOk result (λ card. kind_of card ≡ kind) }
        ensures config { IfOk result (λ card. config_of card ≡ config) }
        ensures shelf { IfErr result (λ fault. fault ≡ faults.ShelfTooSmall → is_too_small config shelf ≡ true) }
        ensures room { IfOk result (λ card. is_too_small config shelf ≡ false) }
        ensures none { IfErr result (λ fault. fault ≡ faults.BadImage → HasNone image (IsSavedOf config) reader.old) }
    {
        let frames = FrameCard::restore(alloc, config, shelf, reader)?;
        match kind {
            CardKind::Octets => {
                let ports = ports(alloc, &config)?;
                Ok(AnyCard::Octets(Card { frames, ports }))
            }
            CardKind::Frames => Ok(AnyCard::Frames(frames)),
        }
    }
}

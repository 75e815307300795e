//! The image of the card that a script is played on.

ghost use Rattle.std.specs.Prelude.{◌≡◌, ◌<◌, ◌≤◌, ◌^◌, take, true, vec_len, IfOk};
ghost use Rattle.lapd_script.specs.Meaning as meaning;
ghost use Rattle.lapd_sim.specs.{on};
ghost use Rattle.lapd_sim.specs.machine.Setup as machine;
ghost use Rattle.model_line.specs.Most.{most_octets};
ghost use Rattle.model_line.specs.Sound.{IsInRange};

use crate::exchange::written;
use crate::setup::{Obeyed, Setup};
use lapd_bits::fcs;
use lapd_card::{Config, image_octets};
use lapd_script::LineFault;
use lapd_timed::{ImageFault, MOST_LINES, Restored, TimedCard, restore};
use lapd_transcript::{Page, Target};
use std::alloc::{AllocError, Global};

/// No link waits for room, as nobody is told of it.
const NO_WAITS: [u16; MOST_LINES] = [0; MOST_LINES];

/// Room for each image of a card with this configuration that keeps its own timers, and an octet more.
pub(crate) fn room_for_images(alloc: Global, config: &Config) -> Result<Vec<u8>, AllocError>
    requires { IsInRange config.now }
    ensures room { IfOk result (λ room. most_octets config.now true < vec_len room) }
    ensures few { IfOk result (λ room. vec_len room < 2 ^ 32) }
{
    vec![in alloc; 0; room_of_image(config)]
}

fn room_of_image(config: &Config) -> usize
    requires { IsInRange config.now }
    ensures room { most_octets config.now true < result }
    ensures few { result < 2 ^ 32 }
{
    image_octets(config, true) + 1
}

impl Setup {
    ghost use Rattle.lapd_sim.specs.{Answers, AnswersLine, IsImageOf, Output};
    ghost use Rattle.lapd_sim.specs.Stands.{SetupStands};

    /// Shows how long the image of the card is, and its sum.
    pub(crate) fn show_image<T: Target>(&mut self, page: &mut Page<T>) -> Obeyed
        ensures { Answers result self.old self.new (on T.taken page.old) (on T.taken page.new) meaning.save }
    {
        let length = self.save();
        let sum = fcs(&self.image.as_slice()[..length]);
        written(page.put_image(length as u32, sum))
    }

    /// The card is started anew, from its own image.
    pub(crate) fn restore(&mut self) -> Obeyed
        requires stands { (m : machine.Setup) × SetupStands self.old m }
        ensures { (before : Output) → AnswersLine result self.old self.new before before meaning.restore }
    {
        self.for_frames()?;
        let length = self.save();
        match restore(self.alloc, &self.image.as_slice()[..length]) {
            Ok(restored) => {
                let Restored { card, timers, .. } = restored;
                self.timed = TimedCard::of(card, timers);
                Ok(())
            }
            Err(ImageFault::OutOfMemory) => Err(LineFault::OutOfMemory),
            Err(ImageFault::BadImage) => unreachable!(),
        }
    }

    /// Writes the image of the card into the room for it, and answers how long it is.
    fn save(&mut self) -> usize
        ensures within { result ≤ vec_len self.new.image }
        ensures config { self.new.config ≡ self.old.config }
        ensures timed { self.new.timed ≡ self.old.timed }
        ensures after { (m : machine.Setup) → SetupStands self.old m → SetupStands self.new m }
        ensures image { (m : machine.Setup) → SetupStands self.old m → IsImageOf m (take result self.new.image.items) }
    {
        self.timed.save(&NO_WAITS, self.image.as_mut_slice())
    }
}

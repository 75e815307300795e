//! `lapdsim image FILE` puts the image of a card into words: what it is asked for, how the file is read, and why it is not
//! told.

ghost use Rattle.std.specs.Prelude.{◌≡◌, ◌≢◌, ◌≤◌, length, IfOk, None};
ghost use Rattle.lapd_script.specs.Job.{job};
ghost use Rattle.lapd_script.specs.Words.{texts};

use crate::restored::in_words;
use crate::tell;
use lapd_sim::{PlayFault, ReadFailed, ReadFrom, Source, Target, refuse};
use lapd_timed::ImageFault;
use std::alloc::{AllocError, Global};
use std::fs;
use std::io::ErrorKind;
use std::rt::Files;

/// The exit status after a fault.
const FAILED: u8 = 1;

/// No image has as many octets: `lapd_image_octets` in C, and `image_octets` in Rattle, tell how many one may have.
const TOO_MANY: usize = 4 << 20;

/// The file whose image these words ask for; nothing for words that ask for work of another kind.
pub(crate) fn asked<'a>(words: &[&'a str]) -> Option<&'a str>
    ensures no_work { job (texts words.now) ≢ None → result ≡ None }
{
    match words {
        [word, file] => { if *word == "image" { Some(*file) } else { None } }
        _ => None,
    }
}

/// Writes what the image in a file tells, or that which `input` gives where the file is `-`, and answers the exit status: 0, or 1
/// after a fault, which one line on `faults` tells.
pub(crate) fn show<R: Files + AllocGlobal, S: Source, T: Target, F: Target>(
    rt: &R,
    file: &str,
    input: &mut S,
    target: &mut T,
    faults: &mut F,
) -> u8 {
    let image = if file == "-" {
        octets_of(rt.alloc(), input)
    } else {
        octets_in(rt, file)
    };
    match image {
        Ok(image) => show_octets(rt.alloc(), image.as_slice(), target, faults),
        Err(fault) => refuse(fault, faults),
    }
}

fn show_octets<T: Target, F: Target>(
    alloc: Global,
    image: &[u8],
    target: &mut T,
    faults: &mut F,
) -> u8 {
    match in_words(alloc, image) {
        Ok(text) => tell(text.as_slice(), target, faults),
        Err(ImageFault::BadImage) => {
            let _ = faults.write(b"not an image\n");
            FAILED
        }
        Err(ImageFault::OutOfMemory) => refuse(PlayFault::OutOfMemory, faults),
    }
}

/// The octets of a file.
fn octets_in<R: Files + AllocGlobal>(rt: &R, file: &str) -> Result<Vec<u8>, PlayFault> {
    match fs::open(rt, file) {
        Ok(file) => octets_of(rt.alloc(), &mut ReadFrom::new(file)),
        Err(error) if error.kind() == ErrorKind::OutOfMemory => Err(PlayFault::OutOfMemory),
        Err(_) => Err(PlayFault::Read),
    }
}

/// The octets that a source gives. It reads no more of them than too many: then they are none.
fn octets_of<S: Source>(alloc: Global, source: &mut S) -> Result<Vec<u8>, PlayFault> {
    let mut octets = vec![in alloc; 0; TOO_MANY]?;
    match fill(source, octets.as_mut_slice()) {
        Ok(length) => {
            octets.truncate(length);
            Ok(octets)
        }
        Err(ReadFailed) => Err(PlayFault::Read),
    }
}

/// Fills a room, from its front on, as far as the source gives octets, and answers how many these are.
fn fill<S: Source>(source: &mut S, room: &mut [u8]) -> Result<usize, ReadFailed>
    ensures within { IfOk result (λ count. count ≤ length room.new) }
{
    let mut filled = 0;
    for _ in 0..room.len() {
        let count = source.read(&mut room[filled..])?;
        if count == 0 {
            break;
        }
        filled += count;
    }
    Ok(filled)
}

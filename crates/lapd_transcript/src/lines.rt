//! Puts the lines of a transcript onto a page, and writes what tells of a faulty line.

ghost use Rattle.std.specs.Prelude.{◌≡◌, ◌++◌};
ghost use Rattle.lapd_transcript.specs.{Puts, Writes, on, line_text, octets_text, refusal_name, refused_text, sent_text, frame_text, nothing_text, faulty_text, image_text, stored_text};

use crate::output::Page;
use crate::streams::{Put, Target};
use lapd_frame::Refusal;
use lapd_text::decimal;

impl<T: Target> Page<'_, T> {
    /// Why a request on a line was refused.
    pub fn put_refused(&mut self, line: u16, refusal: Refusal) -> Put
        ensures { Puts result (on T.taken self.old) (on T.taken self.new) (refused_text line refusal) }
    {
        self.put_line(line, &[b"refused ".as_slice(), refusal_name(refusal)])
    }

    /// The octets that a line took in one pull.
    pub fn put_sent(&mut self, line: u16, octets: &[u8]) -> Put
        ensures { Puts result (on T.taken self.old) (on T.taken self.new) (sent_text line octets.now) }
    {
        self.put_named_octets(line, b"tx ", octets)
    }

    /// A frame, without its frame check, that was found complete in what a line took, or that it called for.
    pub fn put_frame(&mut self, line: u16, octets: &[u8]) -> Put
        ensures { Puts result (on T.taken self.old) (on T.taken self.new) (frame_text line octets.now) }
    {
        self.put_named_octets(line, b"frame ", octets)
    }

    /// No frame, where a line called for the next one and none waits.
    pub fn put_nothing(&mut self, line: u16) -> Put
        ensures { Puts result (on T.taken self.old) (on T.taken self.new) (nothing_text line) }
    {
        self.put_line(line, &[b"nothing".as_slice()])
    }

    fn put_named_octets(&mut self, line: u16, name: &'static [u8], octets: &[u8]) -> Put
        ensures { Puts result (on T.taken self.old) (on T.taken self.new) (line_text line (name.now ++ octets_text octets.now)) }
    {
        let line = decimal(u64::from(line));
        self.put_octets_line(&[line.as_slice(), b" ", name], octets)
    }

    /// What the card holds, in octets, and the bound of it.
    pub fn put_stored(&mut self, stored: u32, limit: u32) -> Put
        ensures { Puts result (on T.taken self.old) (on T.taken self.new) (stored_text stored limit) }
    {
        let stored = decimal(u64::from(stored));
        let limit = decimal(u64::from(limit));
        let pieces = [
            b"stored ".as_slice(),
            stored.as_slice(),
            b" limit ",
            limit.as_slice(),
            b"\n",
        ];
        self.put_all(&pieces)
    }

    /// How many octets the image of the card has, and their check.
    pub fn put_image(&mut self, length: u32, sum: u16) -> Put
        ensures { Puts result (on T.taken self.old) (on T.taken self.new) (image_text length sum) }
    {
        let length = decimal(u64::from(length));
        let [high, low] = sum.to_be_bytes();
        let head = [b"image ".as_slice(), length.as_slice(), b" sum "];
        self.put_octets_line(&head, &[high, low])
    }
}

/// A faulty line of a script, by its number, and what is wrong with it, in words.
pub fn write_faulty<T: Target>(target: &mut T, line: u64, words: &[u8]) -> Put
    ensures { Writes result (T.taken target.old) (T.taken target.new) (faulty_text line words.now) }
{
    let mut page = Page::new(target);
    let line = decimal(line);
    let pieces = [b"line ".as_slice(), line.as_slice(), b": ", words, b"\n"];
    let put = page.put_all(&pieces);
    page.finish(put)
}

fn refusal_name(refusal: Refusal) -> &'static [u8]
    ensures { result.now ≡ refusal_name refusal }
{
    match refusal {
        Refusal::BadTei => b"bad-tei",
        Refusal::NoLink => b"no-link",
        Refusal::WrongState => b"wrong-state",
        Refusal::TooLong => b"too-long",
        Refusal::QueueFull => b"queue-full",
        Refusal::PoolFull => b"pool-full",
        Refusal::TeiTaken => b"tei-taken",
        Refusal::TableFull => b"table-full",
        Refusal::CheckRunning => b"check-running",
        Refusal::ControlFull => b"control-full",
        Refusal::WrongSide => b"wrong-side",
    }
}

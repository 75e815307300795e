//! Lines of words and numbers.

use lapd_frame::Service;
use std::alloc::{AllocError, Global};
use std::io::Write;

/// A link, as words name it: by its TEI, after `-16` if it is one of the second service.
#[derive(Clone, Copy)]
pub(crate) struct Link {
    pub(crate) service: Service,
    pub(crate) tei: u8,
}

/// Lines, with a space between two words of one. If memory is refused, that is kept, and told at the end. The functions stand
/// apart, so that their many calls stay short.
#[derive(Drop)]
pub(crate) struct Text {
    octets: Vec<u8>,
    is_cut: bool,
}

impl Text {
    /// No line.
    pub(crate) fn new(alloc: Global) -> Text {
        Text {
            octets: Vec::new(alloc),
            is_cut: false,
        }
    }

    /// Begins a line with a number, that of a line of the card, and a word.
    #[inline(never)]
    pub(crate) fn begin(&mut self, line: usize, word: &str) {
        self.number(line as u64);
        self.word(word);
    }

    /// Begins a line with a number and a word about a link.
    #[inline(never)]
    pub(crate) fn begin_of(&mut self, line: usize, word: &str, link: Link) {
        self.begin(line, word);
        if link.service == Service::Packet {
            self.put(b"-16");
        }
        self.number(u64::from(link.tei));
    }

    /// Puts a word and a number.
    #[inline(never)]
    pub(crate) fn pair(&mut self, word: &str, number: u64) {
        self.word(word);
        self.number(number);
    }

    /// Puts a word, after a space unless it begins a line.
    #[inline(never)]
    pub(crate) fn word(&mut self, word: &str) {
        self.space();
        self.put(word.as_bytes());
    }

    /// Puts a number, after a space unless it begins a line.
    #[inline(never)]
    pub(crate) fn number(&mut self, number: u64) {
        self.space();
        self.is_cut |= write!(self.octets, "{number}").is_err();
    }

    /// Ends a line.
    #[inline(never)]
    pub(crate) fn end(&mut self) {
        self.put(b"\n");
    }

    /// The octets so far, after which another writer puts whole lines.
    pub(crate) fn lines(&mut self) -> &mut Vec<u8> {
        &mut self.octets
    }

    /// Notes that a line was not put whole.
    pub(crate) fn cut(&mut self) {
        self.is_cut = true;
    }

    /// The whole text.
    ///
    /// # Errors
    ///
    /// Memory was refused for a part of it.
    pub(crate) fn whole(self) -> Result<Vec<u8>, AllocError> {
        if self.is_cut {
            Err(AllocError)
        } else {
            Ok(self.octets)
        }
    }

    // Puts a space, except at a line's beginning.
    fn space(&mut self) {
        match self.octets.last() {
            None | Some(b'\n') => {}
            Some(_) => self.put(b" "),
        }
    }

    #[inline(never)]
    fn put(&mut self, octets: &[u8]) {
        self.is_cut |= self.octets.extend_from_slice(octets).is_err();
    }
}

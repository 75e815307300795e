//! Puts what an event brought onto a page.

ghost use Rattle.std.specs.Prelude.{◌++◌, [], ◌∷◌, codes, flat_map, option_copied, ◌≡◌};
ghost use Rattle.lapd_transcript.specs.{cause_name, letter_of, suffix, Puts, on, octets_text, line_text, link_words, tei_words, note_text, report_text, dropped_text, given_up_text, losses_text, lost_text, tei_noted, tei_of};

use crate::output::Page;
use crate::streams::{Put, Target};
use lapd_frame::{ErrorCode, GROUP, Note, Service};
use lapd_text::decimal;
use model_bits::Cause;

impl<T: Target> Page<'_, T> {
    /// What an event on a line brought: its notes, then why it dropped a frame, then how many frames it lost. `contents`
    /// are those that were delivered, which a note of data tells.
    pub fn put_report(
        &mut self,
        line: u16,
        notes: &[Note],
        contents: Option<&[u8]>,
        cause: Option<Cause>,
        lost: u8,
    ) -> Put
        ensures { Puts result (on T.taken self.old) (on T.taken self.new) (report_text line notes.now (option_copied contents.entry) cause lost) }
    {
        let contents = contents.unwrap_or(&[]);
        self.put_notes(line, notes, contents)?;
        self.put_dropped(line, cause)?;
        self.put_lost(line, lost)
    }

    fn put_notes(&mut self, line: u16, notes: &[Note], contents: &[u8]) -> Put
        ensures { Puts result (on T.taken self.old) (on T.taken self.new) (flat_map (note_text line contents.now) notes.now) }
    {
        for note in notes {
            self.put_note(line, *note, contents)?;
        }
        Ok(())
    }

    fn put_dropped(&mut self, line: u16, cause: Option<Cause>) -> Put
        ensures { Puts result (on T.taken self.old) (on T.taken self.new) (dropped_text line cause) }
    {
        let Some(cause) = cause else {
            return Ok(());
        };
        self.put_line(line, &[b"dropped ".as_slice(), cause_name(cause)])
    }

    fn put_lost(&mut self, line: u16, lost: u8) -> Put
        ensures { Puts result (on T.taken self.old) (on T.taken self.new) (lost_text line lost) }
    {
        if lost == 0 {
            return Ok(());
        }
        let lost = decimal(u64::from(lost));
        self.put_line(line, &[b"lost ".as_slice(), lost.as_slice()])
    }

    /// How many contents that were granted on the links of a TEI were given up: on that of call control, and on that of the
    /// second service.
    pub fn put_losses(&mut self, line: u16, tei: u8, call: u8, packet: u8) -> Put
        ensures { Puts result (on T.taken self.old) (on T.taken self.new) (losses_text line tei call packet) }
    {
        self.put_given_up(line, Service::Call, tei, call)?;
        self.put_given_up(line, Service::Packet, tei, packet)
    }

    fn put_given_up(&mut self, line: u16, service: Service, tei: u8, count: u8) -> Put
        ensures { Puts result (on T.taken self.old) (on T.taken self.new) (given_up_text line service tei count) }
    {
        if count == 0 {
            return Ok(());
        }
        let tei = decimal(u64::from(tei));
        let count = decimal(u64::from(count));
        let name = b"given-up".as_slice();
        self.put_line(
            line,
            &[
                name,
                suffix(service),
                b" ",
                tei.as_slice(),
                b" ",
                count.as_slice(),
            ],
        )
    }

    fn put_note(&mut self, line: u16, note: Note, contents: &[u8]) -> Put
        ensures { Puts result (on T.taken self.old) (on T.taken self.new) (note_text line contents.now note) }
    {
        match note {
            Note::EstablishIndication(service, tei) => {
                self.put_of_link(line, b"establish-indication", service, tei)
            }
            Note::EstablishConfirm(service, tei) => {
                self.put_of_link(line, b"establish-confirm", service, tei)
            }
            Note::ReleaseIndication(service, tei) => {
                self.put_of_link(line, b"release-indication", service, tei)
            }
            Note::ReleaseConfirm(service, tei) => {
                self.put_of_link(line, b"release-confirm", service, tei)
            }
            Note::Data(service, tei) => self.put_contents(line, b"data", service, tei, contents),
            Note::Unit(service, tei) => self.put_contents(line, b"unit", service, tei, contents),
            Note::Error(service, tei, code) => self.put_error(line, service, tei, code),
            Note::Assigned(tei) => self.put_of_tei(line, b"assigned", tei),
            Note::Removed(tei) => self.put_of_tei(line, b"removed", tei),
            Note::Doubled(tei) => self.put_of_tei(line, b"doubled", tei),
            Note::Denied => self.put_of_tei(line, b"denied", GROUP),
            Note::Unassigned => self.put_of_tei(line, b"unassigned", GROUP),
            Note::RemoveAll => self.put_of_tei(line, b"remove-all", GROUP),
            Note::Xid(service, tei) => self.put_of_link(line, b"xid", service, tei),
        }
    }

    /// A note about a link.
    fn put_of_link(&mut self, line: u16, name: &'static [u8], service: Service, tei: u8) -> Put
        ensures { Puts result (on T.taken self.old) (on T.taken self.new) (line_text line (link_words name.now service tei)) }
    {
        let tei = decimal(u64::from(tei));
        self.put_line(line, &[name, suffix(service), b" ", tei.as_slice()])
    }

    /// A note of an error.
    fn put_error(&mut self, line: u16, service: Service, tei: u8, code: ErrorCode) -> Put
        ensures { Puts result (on T.taken self.old) (on T.taken self.new) (line_text line (link_words (codes "error") service tei ++ codes " " ++ letter_of code ∷ [])) }
    {
        let tei = decimal(u64::from(tei));
        let letter = [b' ', code.letter() as u8];
        let error = b"error".as_slice();
        self.put_line(
            line,
            &[error, suffix(service), b" ", tei.as_slice(), &letter],
        )
    }

    /// A note about a link, and the contents that were delivered.
    fn put_contents(
        &mut self,
        line: u16,
        name: &'static [u8],
        service: Service,
        tei: u8,
        contents: &[u8],
    ) -> Put
        ensures { Puts result (on T.taken self.old) (on T.taken self.new) (line_text line (link_words name.now service tei ++ codes " " ++ octets_text contents.now)) }
    {
        let line = decimal(u64::from(line));
        let tei = decimal(u64::from(tei));
        let head = [
            line.as_slice(),
            b" ",
            name,
            suffix(service),
            b" ",
            tei.as_slice(),
            b" ",
        ];
        self.put_octets_line(&head, contents)
    }

    /// A note about a TEI.
    fn put_of_tei(&mut self, line: u16, name: &[u8], tei: u8) -> Put
        ensures { Puts result (on T.taken self.old) (on T.taken self.new) (line_text line (tei_words name.now tei)) }
    {
        let tei = decimal(u64::from(tei));
        self.put_line(line, &[name, b" ", tei.as_slice()])
    }
}

/// The TEI of the first note, or 127 if none names one.
pub fn tei_noted(notes: &[Note]) -> u8
    ensures { result ≡ tei_noted notes.now }
{
    match notes {
        [] => GROUP,
        [note, ..] => tei_of(*note),
    }
}

fn tei_of(note: Note) -> u8
    ensures { result ≡ tei_of note }
{
    match note {
        Note::EstablishIndication(_, tei)
        | Note::EstablishConfirm(_, tei)
        | Note::ReleaseIndication(_, tei)
        | Note::ReleaseConfirm(_, tei)
        | Note::Data(_, tei)
        | Note::Unit(_, tei)
        | Note::Error(_, tei, _)
        | Note::Assigned(tei)
        | Note::Removed(tei)
        | Note::Doubled(tei)
        | Note::Xid(_, tei) => tei,
        Note::Denied | Note::Unassigned | Note::RemoveAll => GROUP,
    }
}

fn cause_name(cause: Cause) -> &'static [u8]
    ensures { result.now ≡ cause_name cause }
{
    match cause {
        Cause::Abort => b"abort",
        Cause::Ragged => b"ragged",
        Cause::Short => b"short",
        Cause::Fcs => b"fcs",
        Cause::Extension => b"extension",
        Cause::Sapi => b"sapi",
        Cause::Tei => b"tei",
        Cause::Unserved => b"unserved",
    }
}

/// What stands after the name of a note about a link.
fn suffix(service: Service) -> &'static [u8]
    ensures { result.now ≡ suffix service }
{
    match service {
        Service::Call => b"",
        Service::Packet => b"-16",
    }
}

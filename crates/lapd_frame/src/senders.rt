//! Whose octets are read and written: a side of a line, on which the second service has a SAPI of its own.

ghost use Rattle.std.specs.Prelude.{◌≡◌, ◌+◌, ◌<◌, ◌≤◌, ◌++◌, take, drop, length, IfOk};
ghost use Rattle.lapd_frame.specs.{parts_of, outcome_of, start_of, IsFrame};
ghost use Rattle.lapd_frame.specs.Senders.{packet_sapi, exchanged, renamed, fault_named, reading, long_reading, spelling, Spells};

use crate::addresses::{Address, Side};
use crate::faults::ReadFault;
use crate::frames::Frame;
use crate::overlong::{Long, read_long};
use crate::reading::read;
use crate::services::Service;
use crate::writing::write;

/// A side of a line, and the SAPI that the second service, [`Service::Packet`], has there.
///
/// What it reads and writes is named by its service: in a frame's address 16 stands for the second service, whatever
/// SAPI it has on the line, and that SAPI stands for 16.
#[derive(Clone, Copy, PartialEq, Eq, Debug)]
pub struct Sender {
    /// Who sent the octets.
    pub side: Side,
    /// The SAPI of the second service, 1 to 62. Every other number stands for 16.
    pub sapi: u16,
}

// The SAPI of the second service on a line.
#[inline(always)]
fn packet_sapi(sapi: u16) -> u8
    ensures value { result ≡ packet_sapi sapi }
    ensures bound { result < 64 }
{
    if 1 <= sapi && sapi <= 62 {
        sapi as u8
    } else {
        Service::Packet.usual_sapi()
    }
}

// What stands in an address for a SAPI on the line, or on the line for what stands in an address.
#[tactic(auto, unfolding(crate::specs::Senders::exchanged))]
#[inline(always)]
fn exchanged(own: u16, sapi: u8) -> u8
    ensures value { result ≡ exchanged own sapi }
    ensures small { sapi < 64 → result < 64 }
{
    // That of call control, which most frames have, stands for itself.
    if sapi == Service::Call.usual_sapi() {
        return sapi;
    }
    exchanged_other(own, sapi)
}

// The same of a SAPI that is not that of call control. It stands apart, so that one that is has no part of it in its way.
#[tactic(auto, unfolding(crate::specs::Senders::exchanged))]
#[inline(never)]
fn exchanged_other(own: u16, sapi: u8) -> u8
    ensures value { result ≡ exchanged own sapi }
    ensures small { sapi < 64 → result < 64 }
{
    let packet = packet_sapi(own);
    if sapi == packet {
        Service::Packet.usual_sapi()
    } else if sapi == Service::Packet.usual_sapi() {
        packet
    } else {
        sapi
    }
}

#[inline(always)]
fn renamed(own: u16, address: Address) -> Address
    ensures value { result ≡ renamed own address }
    ensures small { address.sapi < 64 → result.sapi < 64 }
{
    Address {
        sapi: exchanged(own, address.sapi),
        command: address.command,
        tei: address.tei,
    }
}

fn fault_named(own: u16, fault: ReadFault) -> ReadFault
    ensures { result ≡ fault_named own fault }
{
    match fault {
        ReadFault::BadExtension => ReadFault::BadExtension,
        ReadFault::Undefined(address) => ReadFault::Undefined(renamed(own, address)),
        ReadFault::WrongSize(address) => ReadFault::WrongSize(renamed(own, address)),
        ReadFault::Short => ReadFault::Short,
    }
}

impl Sender {
    /// Reads a frame that it sent, without its frame check, as [`read`] does.
    #[tactic(auto, unfolding(crate::specs::Senders::reading))]
    #[inline(always)]
    pub fn read(self, octets: &[u8]) -> Result<Frame<'_>, ReadFault>
        ensures tail { IfOk result (λ frame. frame.info.now ≡ drop (start_of frame.control) octets.now) }
        ensures whole { IfOk result (λ frame. start_of frame.control + length frame.info.now ≡ length octets.now) }
        ensures reading { outcome_of result ≡ reading self octets.now }
    {
        match read(self.side, octets) {
            Ok(frame) => Ok(Frame {
                address: renamed(self.sapi, frame.address),
                control: frame.control,
                info: frame.info,
            }),
            Err(fault) => Err(fault_named(self.sapi, fault)),
        }
    }

    /// Reads the first four octets of a frame that it sent and that is too long to keep, as [`read_long`] does.
    pub fn read_long(self, octets: &[u8; 4]) -> Result<Long, ReadFault>
        ensures { result ≡ long_reading self octets.now }
    {
        match read_long(self.side, octets) {
            Ok(Long::Information(address)) => Ok(Long::Information(renamed(self.sapi, address))),
            Ok(Long::Unnumbered(address)) => Ok(Long::Unnumbered(renamed(self.sapi, address))),
            Err(fault) => Err(fault_named(self.sapi, fault)),
        }
    }

    /// Writes a frame that it sends, as [`write`] does: the frame has to be one, and to fit.
    #[inline(always)]
    pub fn write(self, frame: &Frame<'_>, out: &mut [u8]) -> usize
        requires frame { IsFrame (parts_of frame.now) }
        requires room { length (spelling self (parts_of frame.now)) ≤ length out.old }
        ensures len { result ≡ length (spelling self (parts_of frame.now)) }
        ensures spelled { Spells self (parts_of frame.now) (take result out.new) }
        ensures rest { drop result out.new ≡ drop result out.old }
        ensures whole { out.new ≡ spelling self (parts_of frame.now) ++ drop result out.old }
    {
        let on_line = Frame {
            address: renamed(self.sapi, frame.address),
            control: frame.control,
            info: frame.info,
        };
        write(self.side, &on_line, out)
    }
}

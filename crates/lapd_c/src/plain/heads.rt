//! How a frame begins.

ghost use Rattle.std.specs.Prelude.{◌≡◌};
ghost use Rattle.lapd_c.specs.Heads.{plain_head};

use model_bits::Head;

/// How a frame begins, and how long it is: [`Head`] in C.
#[repr(C)]
#[derive(Clone, Copy)]
pub struct PlainHead {
    /// 3 or more; 0 if there is no frame.
    pub length: u16,
    /// 0 after the frame's end.
    pub octets: [u8; 4],
    /// For a later version: 0.
    pub reserved: [u8; 2],
}

impl PlainHead {
    /// The same for C.
    pub fn of(head: Option<Head>) -> PlainHead
        ensures { result ≡ plain_head head }
    {
        match head {
            Some(head) => {
                let octets = head.octets;
                PlainHead {
                    length: head.length,
                    octets,
                    reserved: [0; 2],
                }
            }
            None => {
                let octets = [0; 4];
                PlainHead {
                    length: 0,
                    octets,
                    reserved: [0; 2],
                }
            }
        }
    }
}

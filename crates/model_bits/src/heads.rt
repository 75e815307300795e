//! How the latest frame of a line begins.

/// How a frame begins, and how long it is.
#[derive(Clone, Copy, PartialEq, Eq, Debug)]
pub struct Head {
    /// Its first four octets: the address, the control field, and if that has one octet, the first octet of the
    /// information (Q.921 clause 2.1). 0 after the end of a frame of three.
    pub octets: [u8; 4],
    /// How many octets it has, from its address to its information, without its check: 3 or more.
    pub length: u16,
}

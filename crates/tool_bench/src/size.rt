//! How long contents are.

ghost use Rattle.std.specs.Prelude.{◌≤◌};

/// How long contents are that are kept.
#[derive(Clone, Copy)]
pub enum Size {
    /// 8 octets, the narrowest width of a slot.
    Narrow,
    /// 20 octets, about a short message of layer 3.
    Short,
    /// 64 octets.
    Middle,
    /// 128 octets.
    Long,
    /// 260 octets, the widest.
    Wide,
}

impl Size {
    /// How many octets they are.
    pub fn octets(self) -> usize
        ensures { result ≤ 260 }
    {
        match self {
            Size::Narrow => 8,
            Size::Short => 20,
            Size::Middle => 64,
            Size::Long => 128,
            Size::Wide => 260,
        }
    }
}

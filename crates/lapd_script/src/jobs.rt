//! What the program can be asked for.

ghost use Rattle.std.specs.Prelude.{◌≡◌, ◌≤◌};
ghost use Rattle.lapd_script.specs.Bound.{bound};

/// The numbers of `limits`, in the ranges that a card line has for them.
#[derive(Clone, Copy)]
pub struct Limits {
    /// The lines of the card.
    pub lines: u32,
    /// TEIs on each line.
    pub terminals: u32,
    /// Control frames that wait on each link.
    pub control: u32,
    /// Contents that wait on the whole card.
    pub slots: u32,
    /// Octets of an information field at most.
    pub n201: u32,
    ghost few_lines: { lines ≤ 64 },
    ghost few_terminals: { terminals ≤ 8 },
    ghost short_rings: { control ≤ 16 },
    ghost few_slots: { slots ≤ 8192 },
    ghost short: { n201 ≤ 260 },
}

/// What the program is to do.
#[derive(Clone, Copy)]
pub enum Job<'a> {
    /// `run`: play a script.
    Run,
    /// `frame HEX [--network]`: show the frame of these digits, which the user sent, or the network.
    Frame { hex: &'a str, network: bool },
    /// `limits LINES TERMINALS CONTROL SLOTS N201`: show the bound of what a card stores.
    Limits(Limits),
}

impl Limits {
    /// How many octets a card with these numbers stores at most.
    pub fn bound(&self) -> u32
        ensures { result ≡ bound self.now.lines self.now.terminals self.now.control self.now.slots self.now.n201 }
    {
        let of_line = 2 * self.n201 + 10 + 8 * self.control * self.terminals + 32 + 12;
        self.lines * of_line + self.slots * self.n201
    }
}

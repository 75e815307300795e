//! What the program says of itself.

ghost use Rattle.std.specs.Prelude.{◌≡◌, ◌≢◌, None};
ghost use Rattle.lapd_script.specs.Job.{job};
ghost use Rattle.lapd_script.specs.Words.{texts};

/// What `--help` writes.
const HELP: &[u8] = b"\
lapdsim plays LAPD (ITU-T Q.921, modulo 128) on a simulated line card, which is
the network's side of its lines or the user's.

  lapdsim run                     plays the script on standard input, and writes
                                  its transcript
  lapdsim frame HEX [--network]   says what a frame is, given without its check,
                                  and what it is on a line; the terminal sent
                                  it, or with --network the exchange
  lapdsim limits LINES TERMINALS CONTROL SLOTS N201
                                  says how many octets a card with these numbers
                                  stores at most
  lapdsim image FILE              says what a card tells of itself that starts
                                  from this image, or from that on standard
                                  input if FILE is -; the repository's
                                  tools/image says what else is in an image
  lapdsim --help                  writes this
  lapdsim --version               writes what program this is

A terminal that establishes its link, and is answered:

  $ printf 'card 1 8 7 8 4 4 64 260 3\\nassign 0 64\\nin 0 00817F\\npull 0 7\\n' |
      lapdsim run
  0 establish-indication 64
  0 tx 7E008173C4127E
  0 frame 008173

The exit status is 0, 1 after a fault, which one line on standard error tells,
and 2 for other words. In the repository, docs/FORMAT.md describes scripts and
transcripts, docs/MACHINE.md what the card does, README.md where to begin.
";

/// What `--version` writes.
const VERSION: &[u8] =
    b"lapdsim 1.0 (Vithrynel), LAPD for line cards, ITU-T Q.921 (09/97), modulo 128\n";

/// What is written for these words, where they ask what the program is; nothing for words that ask for work.
pub fn help(words: &[&str]) -> Option<&'static [u8]>
    ensures no_work { job (texts words.now) ≢ None → result ≡ None }
{
    match words {
        [word] => {
            if *word == "--help" {
                Some(HELP)
            } else if *word == "--version" {
                Some(VERSION)
            } else {
                None
            }
        }
        _ => None,
    }
}

//! What the words after the program's name ask for.

ghost use Rattle.std.specs.Prelude.{◌≡◌};
ghost use Rattle.lapd_script.specs.{job, seen, limits_of, job_or_none, texts};

use crate::jobs::{Job, Limits};
use crate::values::number;
use lapd_frame::MOST_N201;

/// What these words ask for, and `None` if they ask for nothing that there is.
pub fn job<'a>(words: &[&'a str]) -> Option<Job<'a>>
    ensures { seen result ≡ job (texts words.now) }
{
    match words {
        [name] => (*name == "run").then_some(Job::Run),
        [name, hex] => (*name == "frame").then_some(Job::Frame {
            hex: *hex,
            network: false,
        }),
        [name, hex, flag] => (*name == "frame" && *flag == "--network").then_some(Job::Frame {
            hex: *hex,
            network: true,
        }),
        [name, lines, terminals, control, slots, n201] => {
            if *name == "limits" {
                limits(lines, terminals, control, slots, n201)
            } else {
                None
            }
        }
        _ => None,
    }
}

fn limits<'a>(
    lines: &str,
    terminals: &str,
    control: &str,
    slots: &str,
    n201: &str,
) -> Option<Job<'a>>
    ensures { seen result ≡ job_or_none (limits_of lines.now terminals.now control.now slots.now n201.now) }
{
    Some(Job::Limits(Limits {
        lines: number(1, 64, lines.as_bytes()).ok()?,
        terminals: number(1, 8, terminals.as_bytes()).ok()?,
        control: number(2, 16, control.as_bytes()).ok()?,
        slots: number(1, 8192, slots.as_bytes()).ok()?,
        n201: number(8, u32::from(MOST_N201), n201.as_bytes()).ok()?,
    }))
}

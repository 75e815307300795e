//! The procedure that runs in an image of its card.

ghost use Rattle.std.specs.Prelude.{◌≤◌, Some, [], ◌∷◌, length, IfOk, OnErr};
ghost use Rattle.lapd_image.specs.Puts.{Puts};
ghost use Rattle.lapd_image.specs.Reads.{HasNone, IsReadAs};
ghost use Rattle.model_teis.specs.terminal.Image.{procedure};
ghost use Rattle.lapd_tei.specs.terminal.Saved.{details, AreAttempts, MayRun, MayRunAs};

use crate::table::Table;
use lapd_image::{BadImage, Reader, put_number, put_octet, put_octets};
use model_teis::terminal::Procedure;

// What stands in front of a procedure: none runs, it asks for a TEI, or it verifies one.
const NONE: u8 = 0;

const ASKING: u8 = 1;

const VERIFYING: u8 = 2;

/// Writes the procedure that runs, if one does.
pub(crate) fn save(own: Option<Procedure>, out: &mut [u8], at: usize) -> usize
    requires { at ≤ length out.old }
    ensures { Puts (procedure own) at out.old result out.new }
{
    match own {
        None => put_octet(out, at, NONE),
        Some(own) => save_running(own, out, at),
    }
}

// Writes one that runs.
fn save_running(own: Procedure, out: &mut [u8], at: usize) -> usize
    requires { at ≤ length out.old }
    ensures { Puts (procedure (Some own)) at out.old result out.new }
{
    match own {
        Procedure::Asking { ri, attempts } => {
            let end = put_octets(out, at, &[ASKING, attempts]);
            put_number(out, end, 2, u64::from(ri))
        }
        Procedure::Verifying { tei, attempts } => put_octets(out, at, &[VERIFYING, attempts, tei]),
    }
}

/// Reads a procedure that may run on a line with the TEIs of this table, or that none runs.
pub(crate) fn restore(table: &Table, reader: &mut Reader<'_>) -> Result<Option<Procedure>, BadImage>
    ensures read { IfOk result (λ own. IsReadAs procedure (MayRun table.now) own reader.old reader.new) }
    ensures none { OnErr result (HasNone procedure (MayRun table.now) reader.old) }
{
    match reader.octet()? {
        NONE => Ok(None),
        ASKING => Ok(Some(asking(table, reader)?)),
        VERIFYING => Ok(Some(verifying(table, reader)?)),
        _ => Err(BadImage),
    }
}

// One that asks for a TEI.
fn asking(table: &Table, reader: &mut Reader<'_>) -> Result<Procedure, BadImage>
    ensures read { IfOk result (λ own. IsReadAs details (MayRunAs 1 table.now) own reader.old reader.new) }
    ensures none { OnErr result (HasNone details (MayRunAs 1 table.now) reader.old) }
{
    let attempts = attempts(3, reader)?;
    let ri = reader.number(2)? as u16;
    Ok(Procedure::Asking { ri, attempts })
}

// One that verifies a TEI on the line.
fn verifying(table: &Table, reader: &mut Reader<'_>) -> Result<Procedure, BadImage>
    ensures read { IfOk result (λ own. IsReadAs details (MayRunAs 2 table.now) own reader.old reader.new) }
    ensures none { OnErr result (HasNone details (MayRunAs 2 table.now) reader.old) }
{
    let attempts = attempts(2, reader)?;
    let tei = reader.octet()?;
    if table.is_on(tei) {
        Ok(Procedure::Verifying { tei, attempts })
    } else {
        Err(BadImage)
    }
}

// How many attempts were made.
fn attempts(most: u8, reader: &mut Reader<'_>) -> Result<u8, BadImage>
    ensures read { IfOk result (λ made. IsReadAs (λ made. made ∷ []) (AreAttempts most) made reader.old reader.new) }
    ensures none { OnErr result (HasNone (λ made. made ∷ []) (AreAttempts most) reader.old) }
{
    let made = reader.octet()?;
    if made >= 1 && made <= most {
        Ok(made)
    } else {
        Err(BadImage)
    }
}

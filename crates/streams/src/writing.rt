// The output.
ghost use Rattle.std.specs.Prelude.{OnOk};
ghost use Rattle.std.specs.Io.KnownBytes.{Appends};

use super::failure::Failure;
use std::io::Write;

// Writes the text that waits.
pub fn write_out<W: Write>(writer: &mut W, waits: &[u8]) -> Result<(), Failure>
    ensures { OnOk result (Appends (W.contents writer.old) (W.contents writer.new) waits.now) }
{
    match writer.write_all(waits) {
        Ok(()) => Ok(()),
        Err(error) => Err(Failure::Unwritable(error)),
    }
}

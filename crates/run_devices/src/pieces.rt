//! A line, put piece by piece.
ghost use Rattle.outside.specs.Outside.{HasCause};
ghost use Rattle.run_devices.specs.Put.{joined, PutLine};

use outside::{Failed, Sink, put_all};

/// Puts the pieces one after another.
pub fn put_pieces<O: Sink>(sink: &mut O, pieces: &[&[u8]]) -> Result<(), Failed>
    ensures put { PutLine (O.held sink.old) (O.held sink.new) (joined pieces.now) result }
    ensures cause { HasCause (O.faults sink.old) (O.faults sink.new) result }
{
    for piece in pieces {
        put_all(sink, piece)?;
    }
    Ok(())
}

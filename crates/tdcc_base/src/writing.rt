//! Writing all bytes.
ghost use Rattle.std.specs.Prelude.{OnOk, OnErr, length};
ghost use Rattle.std.specs.Io.KnownBytes.{Appends};
ghost use Rattle.tdcc_base.specs.Causes.{HasCause};
ghost use Rattle.tdcc_base.specs.Promises.{TakesAllWithin};
ghost use Rattle.tdcc_base.specs.Written.{AppendsProperPrefix};

use crate::outside::{Failed, Sink};

/// Writes all bytes, in as many writes as the sink needs.
///
/// # Errors
/// `Failed` where a write failed, and then no other write is made: some of the bytes, and not all, may have
/// been written before it.
pub fn write_all<K: Sink>(sink: &mut K, bytes: &[u8]) -> Result<(), Failed>
    ensures ok { OnOk result (Appends (K.written sink.old) (K.written sink.new) bytes.now) }
    ensures part { OnErr result (AppendsProperPrefix (K.written sink.old) (K.written sink.new) bytes.now) }
    ensures cause { HasCause (K.faults sink.old) (K.faults sink.new) result }
    ensures roomy { TakesAllWithin (K.room sink.old) (K.room sink.new) (length bytes.now) result }
{
    let mut done = 0;
    while done < bytes.len() {
        done += sink.write(&bytes[done..])?;
    }
    Ok(())
}

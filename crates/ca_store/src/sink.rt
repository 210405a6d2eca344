//! A sink of bytes.
ghost use Rattle.std.specs.Prelude.{◌≡◌, ◌<◌, ◌^◌, ℕ, List, [], Option, IsOk, IfOk, OnOk, OnErr};
ghost use Rattle.ca_store.specs.Store.{Rose, KeepsCount, appended, AppendsPart, TakesFirst};

use crate::store::Failed;

/// What takes bytes, in order.
pub trait Sink {
    /// The bytes that it holds, where they are known.
    ghost bytes: { Self → Option (List ℕ) };

    /// How often a write failed, up to 2^64 - 1.
    ghost faults: { Self → ℕ };

    /// Appends some of the first bytes, at least one of a piece that is not empty, and answers how many.
    fn write(&mut self, from: &[u8]) -> Result<usize, Failed>
        ensures ok { IfOk result (λ n. TakesFirst n from.now (bytes self.old) (bytes self.new)) }
        ensures err { OnErr result (bytes self.new ≡ bytes self.old) }
        ensures cause { OnErr result (Rose (faults self.old) (faults self.new)) }
        ensures count { KeepsCount result (faults self.old) (faults self.new) };

    /// The count fits 64 bits.
    ghost bounded: { (sink : Self) → faults sink < 2 ^ 64 };
}

/// Appends all the bytes, in as many writes as the sink asks for, and in none where there are no bytes. After
/// `Failed` some of the first bytes were appended.
pub fn write_all<W: Sink>(sink: &mut W, bytes: &[u8]) -> Result<(), Failed>
    ensures ok { OnOk result (W.bytes sink.new ≡ appended bytes.now (W.bytes sink.old)) }
    ensures err { OnErr result (AppendsPart bytes.now (W.bytes sink.old) (W.bytes sink.new)) }
    ensures nothing { bytes.now ≡ [] → IsOk result × (sink.new ≡ sink.old) }
    ensures cause { OnErr result (Rose (W.faults sink.old) (W.faults sink.new)) }
    ensures count { KeepsCount result (W.faults sink.old) (W.faults sink.new) }
{
    let mut done = 0;
    'pieces: while done < bytes.len() {
        done += sink.write(&bytes[done..])?;
    }
    Ok(())
}

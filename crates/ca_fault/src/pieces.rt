//! Writing several pieces of bytes.
ghost use Rattle.std.specs.Prelude.{◌≡◌, map, OnOk, OnErr};
ghost use Rattle.std.specs.List.{concat};
ghost use Rattle.ca_store.specs.Store.{Rose, KeepsCount, appended, AppendsPart};

use ca_store::{Failed, Sink, write_all};

/// Appends the pieces in order. After `Failed` some of their first bytes were appended.
pub(crate) fn write_pieces<W: Sink>(sink: &mut W, pieces: &[&[u8]]) -> Result<(), Failed>
    ensures ok { OnOk result (W.bytes sink.new
        ≡ appended (concat (map (λ piece. piece.now) pieces.now)) (W.bytes sink.old)) }
    ensures err { OnErr result (AppendsPart (concat (map (λ piece. piece.now) pieces.now))
        (W.bytes sink.old) (W.bytes sink.new)) }
    ensures cause { OnErr result (Rose (W.faults sink.old) (W.faults sink.new)) }
    ensures count { KeepsCount result (W.faults sink.old) (W.faults sink.new) }
{
    for piece in pieces {
        write_all(sink, piece)?;
    }
    Ok(())
}

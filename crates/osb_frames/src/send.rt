//! Writes all of a piece, by as many writes as it takes.

ghost use Rattle.std.specs.Prelude.{◌≡◌, ◌≤◌, ◌<◌, ◌+◌, ◌++◌, length, take, OnOk, OnErr, IfErr};

use crate::sink::Sink;

/// Writes all of a piece, in as many writes as it takes. The error is how many of its bytes went
/// out before a write failed or took nothing. A piece of no bytes is not written.
pub fn send_all<W: Sink>(sink: &mut W, piece: &[u8]) -> Result<(), usize>
    ensures sent { OnOk result (W.taken sink.new ≡ W.taken sink.old ++ piece.now) }
    ensures quiet { OnOk result (W.failed_or_empty sink.new ≡ W.failed_or_empty sink.old) }
    ensures inside { IfErr result (λ done. done ≤ length piece.now) }
    ensures cut { IfErr result (λ done.
        W.taken sink.new ≡ W.taken sink.old ++ take done piece.now) }
    ensures cause { OnErr result (W.failed_or_empty sink.old < W.failed_or_empty sink.new) }
    ensures short { OnErr result (W.room sink.old < length piece.now) }
    ensures room_left { OnOk result (W.room sink.old ≤ W.room sink.new + length piece.now) }
    ensures once { 0 < length piece.now → length piece.now ≤ W.room sink.old →
        W.writes sink.new ≡ W.writes sink.old + 1 }
    ensures silent { length piece.now ≡ 0 → W.writes sink.new ≡ W.writes sink.old }
{
    let mut done = 0;
    while done < piece.len() {
        match sink.write(&piece[done..]) {
            Ok(count) => {
                if count == 0 {
                    return Err(done);
                }
                done += count;
            }
            Err(_) => return Err(done),
        }
    }
    Ok(())
}

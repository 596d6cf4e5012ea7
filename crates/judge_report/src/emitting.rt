//! Writes a text to a sink, whole or up to a failure: msc_cmd calls it once, at the end.

ghost use Rattle.std.specs.Prelude.{◌≡◌, ◌≤◌, ◌<◌, OnOk, OnErr};
ghost use Rattle.std.specs.Io.KnownBytes.{Appends};
ghost use Rattle.outside.specs.Causes.{HasCause};
ghost use Rattle.judge_report.specs.Writing.{AppendsPart};

use msc_base::Text;
use outside::{Failed, Sink};

#[tactic(auto, using(crate::proofs::TextParts::appends_more, crate::proofs::TextParts::appends_kept, crate::proofs::TextParts::appends_none, crate::proofs::TextParts::appends_all))]
/// Writes a text.
pub fn emit<O: Sink>(out: &mut O, text: &Text) -> Result<(), Failed>
    ensures ok { OnOk result (Appends (O.written out.old) (O.written out.new) text.now) }
    ensures err { OnErr result (AppendsPart (O.written out.old) (O.written out.new) text.now) }
    ensures cause { HasCause (O.faults out.old) (O.faults out.new) result }
{
    let bytes = text.bytes();
    let mut at = 0;
    while at < bytes.len() {
        let (_, rest) = bytes.split_at(at);
        let count = out.write(rest)?;
        at += count;
    }
    Ok(())
}

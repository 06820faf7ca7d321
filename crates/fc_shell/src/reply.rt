// Replies that are made as a whole before they are written.
ghost use Rattle.std.specs.Prelude.{List, ℕ, IfOk};
ghost use Rattle.fc_script.specs.Texts.{refusal_line};
ghost use Rattle.fc_shell.specs.Answered.{Answered, IsReply, OnlyTells};

use crate::answer::LineFault;
use crate::sink::write_all;
use fc_device::{NoMemory, Sink};
use fc_names::Refusal;
use fc_script::error_text;
use std::alloc::Global;

/// The reply to a line: its text, and whether that is an error line.
#[derive(Drop)]
pub struct Reply {
    pub text: Vec<u8>,
    pub is_error: bool,
}

/// The reply to a line that is refused.
pub fn refusal(alloc: Global, refusal: Refusal) -> Result<Reply, NoMemory>
    ensures { IfOk result (λ reply. IsReply reply (refusal_line refusal)) }
{
    let mut text = Vec::new(alloc);
    error_text(refusal.number(), refusal.word(), &mut text)?;
    Ok(Reply {
        text,
        is_error: true,
    })
}

/// Writes a reply, if memory was found for it. Answers whether it is an error line.
pub fn tell<K: Sink>(out: &mut K, reply: Result<Reply, NoMemory>) -> Result<bool, LineFault>
    ensures answered { (text : List ℕ) → IfOk reply (λ reply. IsReply reply text) → Answered text (K.taken out.old) (K.taken out.new) result }
    ensures only { OnlyTells K.Sink out.old out.new result }
{
    let reply = reply?;
    write_all(out, &reply.text)?;
    Ok(reply.is_error)
}

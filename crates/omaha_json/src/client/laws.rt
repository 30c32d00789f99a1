//! What is written and then read, as laws of the definitions.
//!
//! Each function does nothing when it runs: its contract is the law.

ghost use Rattle.std.specs.Prelude.{◌≡◌};
ghost use Rattle.omaha_json.specs.declared.reply.Reply.{Reply};
ghost use Rattle.omaha_json.specs.ReplyWriting.{reply_bytes};
ghost use Rattle.omaha_json.specs.ReplyReading.{reply_of_bytes};
ghost use Rattle.omaha_json.specs.Soundness.{IsSound};

/// Shows that each reply that a server writes is read back as the same record.
pub fn replies_are_read_back()
    ensures { (reply : Reply) → IsSound reply → reply_of_bytes (reply_bytes reply) ≡ Ok reply }
{}

//! Refusals as replies: the one place where they are written.
ghost use Rattle.std.specs.Prelude.{◌≡◌};
ghost use Rattle.reply_rows.specs.Written.{IsOpen};
ghost use Rattle.ql_answers.specs.Replies.{Fails, replied};

use ql_refusals::Refusal;
use reply_rows::Replies;

/// Replies with a refusal. It takes no memory, and no reply follows it.
pub fn put_refusal(refusal: &Refusal, replies: &mut Replies)
    requires { IsOpen replies.old }
    ensures { replies.new ≡ replied replies.old 0 (Fails refusal.now) }
{
    replies.put_error(refusal.code(), refusal.state(), refusal.text());
}

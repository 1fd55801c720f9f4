//! What comes of a command.
ghost use Rattle.std.specs.Prelude.{◌≡◌, ◌∷◌, [], IfOk};
ghost use Rattle.master_model.specs.State.{answers, says};
ghost use Rattle.master_work.specs.Answers.{answered};

use crate::WorkState;
use tm_base::{GroupList, Mem, Message, MessageList, Reply};

/// The reply to a command, the groups that it logged, and what is sent besides these.
#[derive(Drop)]
pub struct Answer {
    pub reply: Reply,
    pub groups: GroupList,
    pub messages: MessageList,
}

impl WorkState {
    /// An answer that logs and sends nothing.
    pub fn says(&self, reply: Reply) -> Answer
        ensures { answered self.now result ≡ says self.now reply }
    {
        Answer {
            reply,
            groups: GroupList::new(self.alloc),
            messages: MessageList::new(self.alloc),
        }
    }

    /// An answer that logs nothing and sends one message.
    pub fn answers(&self, reply: Reply, message: Message) -> Mem<Answer>
        ensures { IfOk result (λ a. answered self.now a ≡ answers self.now reply (message ∷ [])) }
    {
        let mut messages = MessageList::new(self.alloc);
        messages.push(message)?;
        Ok(Answer {
            reply,
            groups: GroupList::new(self.alloc),
            messages,
        })
    }
}

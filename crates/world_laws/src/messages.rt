//! What messages say stays true.
ghost use Rattle.world_laws.specs.Messages.{SayingsBring, SayingsStay};

use lock_model::laws as lock_laws;
use store_model::log_laws;

/// What a message says that was ever sent stays true as the world goes on. Refused is a world in which a list of a log
/// store or a writer's log loses a group, or an epoch falls.
pub fn what_messages_say_stays_true()
    ensures { SayingsStay }
{
    log_laws::facts_of_messages_stay();
    lock_laws::facts_of_messages_stay();
}

/// And what a log store is told by messages that say what is so is of the writers' logs: each appended group is its writer's,
/// at its number, and each mark is of groups that stand for ever. Refused is a master that says of a group that isn't
/// durable that it is, and a lock manager that tells another end of a log than it keeps.
pub fn what_messages_say_is_of_the_logs()
    ensures { SayingsBring }
{}

//! What is true of a log store, whatever comes to it and in whatever order.
//!
//! The first laws speak of one step: what holds before it and after it (`Facts`), what it makes of each log
//! (`IsAfter`, `IsBy`), how the state goes on (`Goes`), and what the messages say that it sends (`MessageIs`),
//! which stays true (`MessageFact`). Then of starts, of what a store has of the writers' logs (`IsOf`), and of
//! whole runs.
ghost use Rattle.std.specs.Prelude.{◌≡◌, ◌≤◌, ℕ, List, false, true};
ghost use Rattle.std.specs.List.{AllByRecursion};
ghost use Rattle.tm_data.specs.declared.log.Group.{Group};
ghost use Rattle.tm_base.specs.declared.message.Message.{Message};
ghost use Rattle.store_model.specs.LogState.{LogStoreState, start, log_of};
ghost use Rattle.store_model.specs.LogStep.{heard, on_note, stepped, ticked};
ghost use Rattle.store_model.specs.LogFacts.{Facts, HasOneListEach, LogInput, NamedStays, SealedStays, run};
ghost use Rattle.store_model.specs.LogMoves.{IsAfter, IsBy};
ghost use Rattle.store_model.specs.LogGoes.{AreLonger, BringsOf, Goes, IsOf};
ghost use Rattle.store_model.specs.LogStarts.{IsSame, is_journalled, journal_of, reopened};
ghost use Rattle.store_model.specs.LogTold.{AsksRoster, IsAnswered, MessageFact, MessageIs};

/// What holds in every state holds at the start. Refused is a store that begins with groups.
pub fn facts_hold_at_the_start()
    ensures { (number : ℕ) → Facts (start number) }
{}

/// It holds after each step: the groups of each writer are one list, each in the place of its number. Refused
/// is a group that is kept out of turn, or under another writer.
pub fn a_step_keeps_the_facts()
    ensures { (s : LogStoreState) (m : Message) → Facts s → Facts (stepped s m).0 }
{}

/// What a step makes of each writer's log, by the message's own fields. Refused are a group that is kept
/// without its records, a mark above the number that a message gives, an open list that is emptied, and a
/// close that doesn't set the mark.
pub fn a_step_does_what_is_told()
    ensures { (s : LogStoreState) (m : Message) → IsAfter (heard s m.stamp.0) m.note (stepped s m).0 }
{}

/// So each change has its cause: a new group is the append's and the next one, a mark comes from a word that
/// groups are on every log store, a close or a roster, and a seal from a seal, a close or a roster. Refused
/// is a mark that an append raises.
pub fn changes_have_their_causes()
    ensures { (s : LogStoreState) (m : Message) (writer : ℕ) → IsBy m.note writer (log_of s writer) (log_of (stepped s m).0 writer) }
{}

/// How a step moves the state on: each list goes on from the old one, and a sealed one stays. Refused is an
/// open list that is emptied, and a sealed one that takes a group.
pub fn a_step_goes()
    ensures { (s : LogStoreState) (m : Message) → Goes s (stepped s m).0 }
{}

/// A state goes on to itself. It speaks of the relation alone: refused is one that wants a step.
pub fn going_stands_still()
    ensures { (s : LogStoreState) → Goes s s }
{}

/// What goes on twice goes on. Refused is a relation that holds of one step alone.
pub fn going_is_transitive()
    ensures { (a b c : LogStoreState) → Goes a b → Goes b c → Goes a c }
{}

/// Each message that a step sends answers the step's, goes to who sent that, has the scalar as its stamp, and
/// says what is so after the step: an acknowledgement is of the group that came, which is held; groups that
/// are served stand one after another from the number that was asked for, each in its place and within the
/// mark, and are at most 1 MiB or one group; a length that is named is that of the sealed list. Refused are
/// stamps of 0, another group acknowledged, and groups past the mark.
pub fn sent_messages_say_what_is()
    ensures { (s : LogStoreState) (m : Message) → AllByRecursion (MessageIs (stepped s m).0 m.from m.note) (stepped s m).1 }
{}

/// The next group of an open list is acknowledged in that step, and so is one that is held and the same; of one
/// above the next, the next is asked for; an append to a sealed list and a seal are answered by the length; and
/// who asks for groups that are held and within the mark is sent some. Refused is a store that sends nothing.
pub fn messages_are_answered()
    ensures { (s : LogStoreState) (m : Message) → IsAnswered s m m.note }
{}

/// On a tick the lock manager is asked for the roster, and nothing else is sent. Refused is a question to
/// another node.
pub fn ticks_ask_for_the_roster()
    ensures { (s : LogStoreState) → AsksRoster s }
{}

/// So each is true in the form that stays, where the marks are of groups that are on every log store.
/// Refused is what the law before the last refuses.
pub fn sent_messages_are_true()
    ensures { (s : LogStoreState) (m : Message) (hard : ℕ → ℕ)
        → ((writer : ℕ) → (log_of (stepped s m).0 writer).mark ≤ hard writer)
        → AllByRecursion (MessageFact (stepped s m).0 hard) (stepped s m).1 }
{}

/// A tick's too. Refused is a tick that sends anything else.
pub fn messages_of_ticks_are_true()
    ensures { (s : LogStoreState) (hard : ℕ → ℕ) → AllByRecursion (MessageFact (ticked s).0 hard) (ticked s).1 }
{}

/// What a message says stays true as the state goes on, also over a start. Refused is a relation that lets a
/// list lose a group, or a sealed one change.
pub fn facts_of_messages_stay()
    ensures { (s t : LogStoreState) (hard new_hard : ℕ → ℕ) (m : Message)
        → Goes s t
        → ((writer : ℕ) → hard writer ≤ new_hard writer)
        → MessageFact s hard m
        → MessageFact t new_hard m }
{}

/// A start keeps the facts, whatever was kept. Refused is what the law of a step refuses.
pub fn a_start_keeps_the_facts()
    ensures { (s : LogStoreState) (kept : List Message) → Facts s → Facts (reopened s kept) }
{}

/// A start from the messages that a run kept has the run's lists, sealed alike. Refused is a journal without
/// the messages that seal.
pub fn a_start_has_the_lists()
    ensures { (number : ℕ) (inputs : List LogInput) → IsSame (run (start number) inputs) (reopened (start number) (journal_of (start number) inputs)) }
{}

/// Step by step: where the kept messages give the lists of the state, they do so with a further message, kept
/// or not, after its step. Refused is what the law before refuses.
pub fn a_step_is_kept()
    ensures { (s kept : LogStoreState) (m : Message)
        → IsSame s kept
        → IsSame (stepped s m).0 (on_note kept m.from m.note).0 × (is_journalled s (stepped s m).0 m.note ≡ false → IsSame (stepped s m).0 kept) }
{}

/// What has the same lists goes on from the state: so does a start. Refused is a relation that speaks of the
/// marks, or of the scalar.
pub fn a_start_goes()
    ensures { (s t : LogStoreState) → IsSame s t → Goes s t }
{}

/// At the start a store has nothing but what is of the writers' logs. Refused is a log that begins with a mark.
pub fn a_start_is_of_the_logs()
    ensures { (logs : ℕ → List Group) (hard : ℕ → ℕ) (number : ℕ) → IsOf logs hard (start number) }
{}

/// And after each step with a message that brings none but the writers' groups and marks. Refused are a mark
/// above the number that a message gives, and a group that is kept without its records.
pub fn a_step_is_of_the_logs()
    ensures { (logs : ℕ → List Group) (hard : ℕ → ℕ) (s : LogStoreState) (m : Message)
        → BringsOf logs hard m.note
        → IsOf logs hard s
        → IsOf logs hard (stepped s m).0 }
{}

/// And after a start from such messages. Refused is what the law of a step refuses.
pub fn kept_messages_are_of_the_logs()
    ensures { (logs : ℕ → List Group) (hard : ℕ → ℕ) (s : LogStoreState) (kept : List Message)
        → AllByRecursion (λ m. BringsOf logs hard m.note) kept
        → IsOf logs hard s
        → IsOf logs hard (reopened s kept) }
{}

/// And as the logs grow. It speaks of the relation alone: refused is one that wants the whole log.
pub fn longer_logs_have_it()
    ensures { (logs new_logs : ℕ → List Group) (hard new_hard : ℕ → ℕ) (s : LogStoreState)
        → AreLonger logs new_logs hard new_hard
        → IsOf logs hard s
        → IsOf new_logs new_hard s }
{}

/// Its content is one list of groups for each writer: the group in place i, counted from 1, is that
/// writer's and has number i.
pub fn each_log_is_one_list_without_gaps()
    ensures { HasOneListEach }
{}

/// A sealed list never grows, nor changes.
pub fn a_sealed_log_stays()
    ensures { SealedStays }
{}

/// The length that was named of a sealed list stays its length.
pub fn a_named_length_stays()
    ensures { NamedStays }
{}

//! What holds of every run of the lock manager: laws over its definitions alone.
//!
//! `after start inputs` is the state after a list of messages, `page_in` what is kept of a page in a
//! state, `sent` what a run sends. A law is the contract of a function that does nothing: a caller
//! that calls it has the law among its facts.
//!
//! The first laws speak of one step: what holds before it and after it (`Facts`), what it makes of each
//! page and writer (`IsAfter`), how the state goes on (`Goes`), and what the messages say that it sends
//! (`MessageIs`), which stays true (`MessageFact`). They never cite a helper of the step. The laws on
//! whole runs follow.
ghost use Rattle.std.specs.Prelude.{◌≡◌, ℕ, List};
ghost use Rattle.std.specs.List.{AllByRecursion};
ghost use Rattle.tm_base.specs.declared.message.Message.{Message};
ghost use Rattle.lock_model.specs.declared.writer.WriterEntry.{WriterEntry};
ghost use Rattle.lock_model.specs.State.{State, start};
ghost use Rattle.lock_model.specs.Step.{heard, step};
ghost use Rattle.lock_model.specs.Moves.{IsAfter};
ghost use Rattle.lock_model.specs.Facts.{BringsVector, Facts, VectorFacts};
ghost use Rattle.lock_model.specs.Goes.{BringsStamp, Goes, Rises};
ghost use Rattle.lock_model.specs.Told.{IsGranted, MessageFact, MessageIs, NamesEpoch, TakesPages};
ghost use Rattle.lock_model.specs.Runs.{after, LogEnd, OneHolder, EpochRises, GrantsAgree, GrantsHaveLeft, VectorRises, StampStays};
ghost use Rattle.lock_model.specs.Runs.{WriterStays, WritersDiffer, EndStays, GivesEnd, RostersAreWhole, FreshAgree, TellsChange};

/// What holds in every state holds at the start.
pub fn facts_hold_at_the_start()
    ensures { Facts start }
{}

/// It holds after each step: writers are numbered 1, 2, .., one for each master and boot number; a page has
/// at most one holder, which is known and not yet recovered, and whose pages weren't all taken; no page that
/// wasn't given out was ever leased; the last fresh page of each writer was given to it alone. Refused is an
/// undoing that is accepted before all pages were taken, or a takeover of all the rest that frees nothing.
pub fn a_step_keeps_the_facts()
    ensures { (s : State) (m : Message) → Facts s → Facts (step s m).0 }
{}

/// And so after each run. Refused is whatever a step's law refuses.
pub fn a_run_keeps_the_facts()
    ensures { (s : State) (inputs : List Message) → Facts s → Facts (after s inputs) }
{}

/// What a step makes of each page and of each writer, by the message's own fields. A release leaves its
/// stamp and its tags, and the vectors joined; a takeover leaves the greater of the listed stamp and the
/// page's, the tags as they were, and the vectors joined; a lease takes what was left. Refused are tags that
/// are dropped at either, a vector that isn't joined, a listed page that isn't freed, a page that is freed at
/// a recall, and a fresh page that is leased to another writer.
pub fn a_step_does_what_is_told()
    ensures { (s : State) (m : Message) → Facts s → IsAfter (heard s m.stamp.0) m.from m.note (step s m).0 }
{}

/// How a step moves the state on: scalar, next page and epochs never fall, a page's entry stays in one
/// epoch until its lease is over, a writer keeps master, boot number and start and goes from live over closed
/// and taken to recovered with the same end of its log, and a writer whose log has an end gains no page.
/// Refused is a second close that replaces the first, a lease that doesn't raise the epoch, and a lease to a
/// writer whose log has an end.
pub fn a_step_goes()
    ensures { (s : State) (m : Message) → Facts s → Goes s (step s m).0 }
{}

/// So does a run. Refused is whatever a step's law refuses.
pub fn a_run_goes()
    ensures { (s : State) (inputs : List Message) → Facts s → Goes s (after s inputs) }
{}

/// A state goes on to itself, as after a restart. It speaks of the relation alone: refused is one that wants
/// a step.
pub fn going_stands_still()
    ensures { (s : State) → Goes s s }
{}

/// What goes on twice goes on. Refused is a relation that holds of one step alone.
pub fn going_is_transitive()
    ensures { (a b c : State) → Goes a b → Goes b c → Goes a c }
{}

/// Each message that a step sends answers the step's message, has the scalar as its stamp, goes to whom it
/// has to (a grant, a recall, a fresh page or a question to the writer's master, any other answer to who sent
/// the message, and the end of a log to the three log stores too), and says what is so after the step.
/// Refused are the fate `ended` of a writer that isn't recovered, a repeated registration with another
/// number, and a roster that tells another state or length of a writer.
pub fn sent_messages_say_what_is()
    ensures { (s : State) (m : Message) → Facts s → AllByRecursion (MessageIs (step s m).0 m.from m.note) (step s m).2 }
{}

/// So each is true in the form that stays, where a release that is answered names no epoch that the page
/// hasn't come to. Refused is what the law before refuses.
pub fn sent_messages_are_true()
    ensures { (s : State) (m : Message) → Facts s → NamesEpoch s m.note → AllByRecursion (MessageFact (step s m).0) (step s m).2 }
{}

/// What a message says stays true as the state goes on. Refused is a relation that lets the holder, stamp or
/// tags of a page change within an epoch, or the end of a log.
pub fn facts_of_messages_stay()
    ensures { (s t : State) (m : Message) → Goes s t → MessageFact s m → MessageFact t m }
{}

/// After a takeover from a writer whose log has an end, it holds none of the listed pages, and none at all
/// where all the rest was taken. Refused is a takeover of all the rest that frees nothing.
pub fn takeovers_take()
    ensures { (s : State) (m : Message) → Facts s → TakesPages (step s m).0 m.note }
{}

/// A live writer's request for a page that is there and free is granted in that step, at the next epoch.
/// Refused is a lock manager that sends nothing.
pub fn free_pages_are_granted()
    ensures { (s : State) (m : Message) → IsGranted s m m.note }
{}

/// What is kept as a vector is one, at the start. Refused is a start that knows something of a writer of
/// number 0.
pub fn vectors_hold_at_the_start()
    ensures { VectorFacts start }
{}

/// And after each step, where the message's is one. Refused is a vector that is put behind the other instead
/// of being joined.
pub fn a_step_keeps_the_vectors()
    ensures { (s : State) (m : Message) → Facts s → VectorFacts s → BringsVector m.note → VectorFacts (step s m).0 }
{}

/// Then what is known of each writer at a page never falls, and no page's stamp does where a release brings
/// no lower one. Refused is a vector that isn't joined, and a listed stamp that is taken where it is lower.
pub fn pages_rise()
    ensures { (s : State) (m : Message) → Facts s → VectorFacts s → BringsVector m.note → BringsStamp s m.note → Rises s (step s m).0 }
{}

/// A page has at most one holder. Refused is a lease of a page that another writer holds.
pub fn one_holder()
    ensures { (inputs : List Message) (page : ℕ) → OneHolder inputs page }
{}

/// A page's epoch never falls, and it rises with each new holder. Refused is a lease at the old epoch.
pub fn epoch_rises()
    ensures { (inputs later : List Message) (page : ℕ) → EpochRises inputs later page }
{}

/// Two grants of one page and epoch name one writer, and have the same stamp, tags and vector. Refused is a
/// repeated grant without the tags.
pub fn grants_agree()
    ensures { (inputs : List Message) (g h : Message) → GrantsAgree inputs g h }
{}

/// A grant has the stamp, tags and vector that the last accepted release or takeover of its page left, by the
/// fields of that message. Refused are tags that are dropped at a release, a takeover or a lease.
pub fn grants_have_what_was_left()
    ensures { (inputs : List Message) (m : Message) → GrantsHaveLeft inputs m }
{}

/// The end of a closed writer's log is its end for ever: later closes change nothing, and every later
/// answer to a close and every later roster has that length and store. Refused is a second close that
/// replaces the first.
pub fn end_stays()
    ensures { (inputs later : List Message) (writer : ℕ) (end : LogEnd) → EndStays inputs later writer end }
{}

/// The first close of a writer is accepted: its length and store are the end of the log. Refused is a close
/// that is ignored.
pub fn first_close_gives_the_end()
    ensures { (s : State) (m : Message) → GivesEnd s m m.note }
{}

/// A writer keeps its number, master, boot number and start. Refused is a close that sets the start anew.
pub fn writer_stays()
    ensures { (inputs later : List Message) (writer : ℕ) (e : WriterEntry) → WriterStays inputs later writer e }
{}

/// No two writers have one master and boot number. Refused is a repeated register that gets a new number.
pub fn writers_differ()
    ensures { (inputs : List Message) (w v : ℕ) (e f : WriterEntry) → WritersDiffer inputs w v e f }
{}

/// What is known of each writer at a page never falls, where each message's vector is one. Refused is a
/// vector that takes the place of the page's.
pub fn vector_rises()
    ensures { (inputs later : List Message) (page : ℕ) → VectorRises inputs later page }
{}

/// A takeover lowers no page's stamp. Refused is a listed stamp that is taken where it is lower.
pub fn stamp_stays()
    ensures { (s : State) (m : Message) (page : ℕ) → StampStays s m page }
{}

/// No page is given out twice: two answers that give it out are one writer's to one request. Refused is a
/// next page that stays.
pub fn fresh_pages_differ()
    ensures { (inputs : List Message) (g h : Message) → FreshAgree inputs g h }
{}

/// A roster has every writer whose start is below its stamp, also one that is numbered later. Refused is a
/// roster without the closed ones.
pub fn rosters_are_whole()
    ensures { (inputs : List Message) (writer : ℕ) (e : WriterEntry) → RostersAreWhole inputs writer e }
{}

/// A step answers that it changed nothing exactly where it changed nothing. Refused is a step that doesn't
/// count a raised scalar.
pub fn tells_change()
    ensures { (inputs : List Message) (m : Message) → TellsChange inputs m }
{}

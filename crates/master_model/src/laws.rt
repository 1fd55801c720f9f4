//! What holds of every step of a master: laws over its definitions alone.
//!
//! `step` is what it does with a message, `on_command` with a command; a tick changes nothing. A law is the
//! contract of a function that does nothing: a caller that calls it has the law among its facts. The laws speak of
//! one step: what holds before it and after it (`Facts`), and how the state goes on (`Goes`). `begun` is the stamp
//! at which the master's writer began, as the lock manager has it. `groups` is all that the writer has logged so far: its
//! log lets its durable groups go, and is what is left of these. What a message brings (`Brings`) is what each message
//! has that the format of messages can spell.
ghost use Rattle.std.specs.Prelude.{◌≡◌, ◌⊎◌, ◌++◌, ℕ, Bool, true, List, [], Option, None, Some};
ghost use Rattle.std.specs.List.{AllByRecursion};
ghost use Rattle.std.specs.FinMap as fin;
ghost use Rattle.log_writer.specs.Log.{resent, unacked};
ghost use Rattle.tm_data.specs.declared.log.Group.{Group};
ghost use Rattle.tm_base.specs.declared.command.Command.{Command};
ghost use Rattle.tm_base.specs.declared.command.Command.TheVariants as command;
ghost use Rattle.tm_base.specs.declared.message.Message.{Message};
ghost use Rattle.tm_base.specs.declared.message.Note.TheVariants as note;
ghost use Rattle.tm_base.specs.declared.reply.Reply.TheVariants as reply;
ghost use Rattle.master_model.specs.State.{Life, State, Work};
ghost use Rattle.master_model.specs.Fates.{has_ended, is_open, is_own};
ghost use Rattle.lock_table.specs.Tags.{PageTag};
ghost use Rattle.master_model.specs.Reads.{get};
ghost use Rattle.master_model.specs.Replies.{MayGetIn, MayPutIn, PathIsHere, QuietOrAsking, Reads, SaysDurableIn, SaysEndIn};
ghost use Rattle.master_model.specs.Step.{on_command, start, step, tick};
ghost use Rattle.master_model.specs.Facts.{Brings, DurableEnd, EndIsDurable, Facts, GrantIsBegun, JoinsAfter, Lacks, LifeHasNoneDurable, LifeRests, OwnTags, TagsAreBegun, WorkFacts, logged_by, own_txn, whole_of};
ghost use Rattle.master_model.specs.Goes.{Goes};
ghost use Rattle.master_model.specs.Told.{IsNamed, MessageFact, Sent};
ghost use Rattle.master_model.specs.Causes.{AcknowledgesOwn, EpochCame, Joins, LeftSent, WriterStays, epoch_in, is_noted, left_in, roster_in};
ghost use Rattle.master_model.specs.declared.left.Left.{Left};
ghost use Rattle.master_model.specs.Refusals.{BecauseIn, IsInSession, RecoverIsSaid};
ghost use Rattle.tm_data.specs.declared.transaction.Writer.{Writer};
ghost use Rattle.master_model.specs.Stages.{ReadAreHeard, RecoveryGoes, RecoveryIsAsked, StagesAreSaid};

/// What holds in every state holds at the start, where nothing is known yet and nothing was logged. It speaks of the
/// start alone: refused is a fact that wants a master to have joined.
pub fn facts_hold_at_the_start()
    ensures { (begun number boot stores : ℕ) → Facts begun [] (start number boot stores).0 }
{}

/// It holds after each message, of the writer's groups and of the one that the message has it log: the groups are the
/// writer's, numbered 1, 2, .. without gaps, their stamps rise above the writer's start and none is above the scalar; the
/// log is what is left of them; each tells a vector without the own entry, below its own stamp; what was told in all
/// groups, with what is still to be told, is all that was heard; the scalar is at least at every stamp that was heard. Each fresh page and each image is of a page that is held or recalled, and no page
/// has two images; of exactly the pages that are being given back there is what was told, with the epoch and the
/// stamp of the lease. Each session's transaction was begun, no two sessions have one, and one that has ended has its
/// end among the groups, with its outcome, at the number that is kept of it; a transaction that was begun is a session's,
/// or its end is durable; the ends in the groups are of own transactions that were begun, one of each at most, and of
/// none that still reads, writes or undoes its rows. Each shared lock stands on a page that is held or recalled, and
/// is of a transaction that isn't known to have ended. Refused are a Beat that has the scalar itself as its stamp, a
/// vector that is heard with its own entry, an acknowledgement at which the log lets one group too many go, a page that is given back and keeps its image, its locks or its place
/// among the fresh ones, a grant that takes the locks of ended transactions, and an acknowledgement that leaves those
/// of the ends that become durable.
pub fn a_message_keeps_the_facts()
    ensures { (begun : ℕ) (groups : List Group) (s : State) (m : Message) → Facts begun groups s → Brings m → JoinsAfter begun s.life m.stamp.0 → Facts begun (groups ++ logged_by s.life (step s m).0.life) (step s m).0 }
{}

/// And after each command. Refused is a command whose second group has the number or the stamp of its first, one that
/// tells twice what was heard once and leaves out what was heard since, an abort that keeps the number of its undone
/// row's group as that of its end, a begin that gives out a number once more, a commit that logs its end again when
/// it is asked again, and a split that leaves a lock on a page that isn't here.
pub fn a_command_keeps_the_facts()
    ensures { (begun : ℕ) (groups : List Group) (s : State) (session : ℕ) (asked : Command) → Facts begun groups s → Facts begun (groups ++ logged_by s.life (on_command s session asked).0.life) (on_command s session asked).0 }
{}

/// The shared locks of own transactions are of those that were begun, after each message and command, as long as
/// those that a grant brings are: a lock is first made by its transaction's master, and goes on with its page by
/// releases and grants, which the lock manager keeps as they came. Refused are a get that locks in the name of the
/// transaction that is begun next, and a begin that starts again at 1.
pub fn own_locks_are_of_begun_transactions()
    ensures start { (number boot stores : ℕ) → OwnTags (start number boot stores).0.life }
    ensures message { (begun : ℕ) (groups : List Group) (s : State) (m : Message) → Facts begun groups s → OwnTags s.life → Brings m → GrantIsBegun s.life m.note → OwnTags (step s m).0.life }
    ensures command { (begun : ℕ) (groups : List Group) (s : State) (session : ℕ) (asked : Command) → Facts begun groups s → OwnTags s.life → OwnTags (on_command s session asked).0.life }
{}

/// And so each of them is of an open transaction: of a session's, whose end isn't durable. Refused are a session that
/// is free while its transaction has locks, and an abort that is durable and leaves its locks.
pub fn an_own_lock_is_of_an_open_transaction()
    ensures { (begun : ℕ) (groups : List Group) (w : Work) (t : PageTag) → WorkFacts begun groups w → TagsAreBegun w → fin.contains_key w.tags t ≡ true → is_own w t.txn ≡ true → is_open w t.txn.number ≡ true }
{}

/// What a log store lacks is the writer's: each group that it hasn't acknowledged, and so each one that is sent to it
/// again, has a number from 1 to the last one's, is the writer's group of that number, is still in the log, and has no
/// mark of that store. Refused are a list that counts from the first group that is lacked, and one that has a group which the
/// store has acknowledged.
pub fn what_is_lacked_is_of_the_log()
    ensures unacked { (begun : ℕ) (groups : List Group) (w : Work) (store : ℕ) → WorkFacts begun groups w → AllByRecursion (Lacks groups w.log store) (unacked w.log.groups store) }
    ensures resent { (begun : ℕ) (groups : List Group) (w : Work) (store : ℕ) → WorkFacts begun groups w → AllByRecursion (Lacks groups w.log store) (resent w.log.groups store) }
{}

/// How a message moves the state on: the log grows at its end alone, keeps its groups but for those that it lets go from
/// the front, and loses no acknowledgement, so what is durable stays so; scalar and heard stamps never fall, nor do epochs of pages and the numbers of transactions and requests;
/// in one epoch a lease goes from held over recalled and given back to none, and what is kept of a page that is being
/// given back stays; an end that is known stays known, and so does a writer's recovery; a fenced master stays fenced.
/// Refused is a Roster that lifts the fence, a grant at a lower epoch, and an acknowledgement that takes another one back.
pub fn a_message_goes()
    ensures { (begun : ℕ) (groups : List Group) (s : State) (m : Message) → Facts begun groups s → Brings m → Goes s (step s m).0 }
{}

/// So does a command. Refused is an abort that cuts the log, and one that gives a transaction's number back.
pub fn a_command_goes()
    ensures { (begun : ℕ) (groups : List Group) (s : State) (session : ℕ) (asked : Command) → Facts begun groups s → Goes s (on_command s session asked).0 }
{}

/// A state goes on to itself, as on a tick. It speaks of the relation alone: refused is one that wants a step.
pub fn going_stands_still()
    ensures { (s : State) → Goes s s }
{}

/// What goes on twice goes on. Refused is a relation that holds of one step alone.
pub fn going_is_transitive()
    ensures { (a b c : State) → Goes a b → Goes b c → Goes a c }
{}

/// What is sent after a message says what is so after it. A Release has the body that is kept of its page, however
/// often it is sent; a Stable has the number of the last durable group; a Request is of a page without a lease here;
/// a Fate is of an own transaction, and tells whether that has ended; a Takeover and an Undone have the present
/// vector for sending; each has the master as its sender and the scalar as its stamp, but for a ReadPage, which has
/// that of its page's last change. Refused are a Release that is sent again with the present vector, a Stable with
/// the number before the acknowledgement, and a Fate of another writer's transaction.
pub fn a_message_sends_what_is()
    ensures { (s : State) (m : Message) → Sent (step s m).0 (step s m).1 }
{}

/// So does what is sent after a command: each Append has a group of the own log, and the log has it by the end of the
/// step; a RequestFresh has the number after the last one that was answered; an Ask is of another writer's
/// transaction. Refused is an Append of a group that isn't logged, and a RequestFresh that repeats the last number.
pub fn a_command_sends_what_is()
    ensures { (s : State) (session : ℕ) (asked : Command) → Sent (on_command s session asked).0 (on_command s session asked).2 }
{}

/// And what is sent on a tick, and at the start, where a Register has the boot number. Refused is a tick that sends a
/// page's Release with what is known now, and a start that registers with another boot number.
pub fn a_tick_sends_what_is()
    ensures tick { (s : State) → Sent s (tick s) }
    ensures start { (number boot stores : ℕ) → Sent (start number boot stores).0 (start number boot stores).1 }
{}

/// A get that answers a value read it in the leaf at the end of the key's path, of which every page is held, not
/// recalled and in the pool: no value where the key has no row, and else the row's, which is the own transaction's or
/// one that is known to have ended. So it never answers what another transaction wrote that may still be undone.
/// Refused is a get that takes a transaction for ended because it was told to be open once, and one that reads the
/// row of another session's open transaction.
pub fn a_get_reads_what_has_ended()
    ensures { (w : Work) (session table : ℕ) (key : List ℕ) (value : Option (List ℕ)) → (get w session table key).reply ≡ reply.Value value → Reads w session table key value }
{}

/// A get, a put or a del whose path is held, not recalled and in the pool sends the lock manager nothing, unless it
/// is answered that a transaction's fate or a fresh page is asked for: a row that is here is read, locked and written
/// without a word. Refused are a put that asks for the lease of a fresh page that it has, a get that tells of its
/// shared lock, and a split that registers its pages.
pub fn a_path_that_is_here_is_quiet()
    ensures get { (begun : ℕ) (groups : List Group) (s : State) (session table : ℕ) (key : List ℕ) → Facts begun groups s → PathIsHere s.life table key → QuietOrAsking (on_command s session (command.Get table key)).1 (on_command s session (command.Get table key)).2 }
    ensures put { (begun : ℕ) (groups : List Group) (s : State) (session table : ℕ) (key value : List ℕ) → Facts begun groups s → PathIsHere s.life table key → QuietOrAsking (on_command s session (command.Put table key value)).1 (on_command s session (command.Put table key value)).2 }
    ensures del { (begun : ℕ) (groups : List Group) (s : State) (session table : ℕ) (key : List ℕ) → Facts begun groups s → PathIsHere s.life table key → QuietOrAsking (on_command s session (command.Del table key)).1 (on_command s session (command.Del table key)).2 }
{}

/// Committed and Aborted are answered to a session of its own transaction alone, which has ended with that outcome,
/// at the number of a group that is durable here; and that group is this end, and says nothing else. So a session
/// that never gets there, as one whose master is lost, is answered neither. Refused are a commit that answers as soon
/// as its end is logged, an abort that answers Aborted where the transaction was committed, and a commit that waits
/// for a group before its end.
pub fn ends_are_durable()
    ensures of_session { (s : State) (session : ℕ) (asked : Command) → SaysEndIn s.life session (on_command s session asked).1 }
    ensures in_log { (begun : ℕ) (groups : List Group) (s : State) (session : ℕ) (asked : Command) → Facts begun groups s → SaysDurableIn groups s.life (on_command s session asked).1 }
{}

/// An own transaction that counts as ended has its end among the groups that were logged, with one outcome or the other, and durable: so
/// that end binds whoever reads a row of it, or is told of its fate. Refused is a master that counts a transaction as
/// ended once its end is logged, and one that frees a session before.
pub fn what_has_ended_is_durable()
    ensures { (begun : ℕ) (groups : List Group) (w : Work) (number : ℕ) → WorkFacts begun groups w → has_ended w number ≡ true → EndIsDurable (whole_of groups w.log) number }
{}

/// And no other has: an open transaction has no end among the durable groups, with neither outcome. So it counts
/// as ended exactly where its end is durable. Refused is a master that counts a transaction as open until its session
/// is free.
pub fn an_open_transaction_has_no_durable_end()
    ensures { (begun : ℕ) (groups : List Group) (w : Work) (number : ℕ) (committed : Bool) → WorkFacts begun groups w → is_open w number ≡ true → DurableEnd (whole_of groups w.log) (own_txn w.log.writer number) committed → ⊥ }
{}

/// A mark in the own log comes only from an acknowledgement: of a group of the own writer, by the log store itself, of
/// that number. A command makes none. So what a master takes for durable was acknowledged by each log store. Refused
/// is a master that notes the acknowledgement of another writer's group as its own, and one that takes a store's word
/// for another store's.
pub fn marks_come_from_acknowledgements()
    ensures message { (s : State) (m : Message) (seq store : ℕ) → Brings m → is_noted (step s m).0.life seq store ≡ true → (is_noted s.life seq store ≡ true) ⊎ AcknowledgesOwn (step s m).0.life m seq store }
    ensures command { (s : State) (session : ℕ) (asked : Command) (seq store : ℕ) → is_noted (on_command s session asked).0.life seq store ≡ true → is_noted s.life seq store ≡ true }
{}

/// A life begins with the answer to the registering of its own boot, and with nothing else: as the writer that the
/// answer names, with an empty log and with the answer's stamp as its scalar. From then on it has this writer for ever.
/// Refused is a master that takes the answer to an earlier boot, and with it the writer of a life that is over, and one
/// that takes a second answer for a new writer.
pub fn a_life_begins_as_it_was_registered()
    ensures begins { (s : State) (m : Message) (l : Life) → s.life ≡ None → (step s m).0.life ≡ Some l → Joins s m l }
    ensures waits { (s : State) (session : ℕ) (asked : Command) → s.life ≡ None → (on_command s session asked).0.life ≡ None }
    ensures message { (s : State) (m : Message) → Brings m → WriterStays s.life (step s m).0.life }
    ensures command { (s : State) (session : ℕ) (asked : Command) → WriterStays s.life (on_command s session asked).0.life }
{}

/// The epoch that a master has of a page is the one that it had, or that of a grant to its writer which has just come,
/// or 1 by a fresh page that it was just given. A command changes none. Refused is a master that takes an epoch from a
/// recall, one that takes another writer's grant, and one that holds a fresh page at epoch 2.
pub fn epochs_come_with_pages()
    ensures message { (s : State) (m : Message) (page : ℕ) → Brings m → (epoch_in (step s m).0.life page ≡ epoch_in s.life page) ⊎ EpochCame s.life m page (epoch_in (step s m).0.life page) }
    ensures command { (s : State) (session : ℕ) (asked : Command) (page : ℕ) → epoch_in (on_command s session asked).0.life page ≡ epoch_in s.life page }
{}

/// A recovery moves only as its stages say, by what comes of its writer: a sealed log's length, by the log store that
/// sealed it, asks for the close there; the close says from which store how many groups are read; of the groups that
/// come the next ones are read, in order, and no other; once all are, the pages are taken over, part after part; and
/// after the last part as many rows are to be undone as those groups leave. It ends by the word that its writer is
/// recovered. The command begins it, undoes a row of it, and has the lock manager told only once what was undone is
/// durable. Refused is a recovery that is closed at a length that no store said, one that stops before the last group of
/// the close, one that passes over a part of the pages, and one that tells before its last group is durable.
pub fn recoveries_move_by_what_comes()
    ensures message { (s : State) (m : Message) → RecoveryGoes m s.life (step s m).0.life }
    ensures command { (s : State) (session : ℕ) (asked : Command) → RecoveryIsAsked asked s.life (on_command s session asked).0.life }
{}

/// What a recovery sends says where it is after the step: a Seal is of its writer, a Close has the store and the length
/// that were sealed, a Fetch goes to the close's store and asks for the group that is awaited, a Takeover lists the
/// pages of its part and says whether it is the last one, and an Undone is sent once all is undone. Refused is a Close
/// with another store's length, a Fetch that skips a group, and a Takeover that lists the part before.
pub fn a_recovery_says_where_it_is()
    ensures message { (s : State) (m : Message) → StagesAreSaid (step s m).0.life (step s m).1 }
    ensures command { (s : State) (session : ℕ) (asked : Command) → StagesAreSaid (on_command s session asked).0.life (on_command s session asked).2 }
    ensures tick { (s : State) → StagesAreSaid s.life (tick s) }
{}

/// The roster that a master keeps is the last one that came, or there is none. Refused is a master that keeps the
/// entries of an older roster beside the new ones, and one that drops it once a writer is recovered.
pub fn the_roster_is_one_that_came()
    ensures start { (number boot stores : ℕ) → roster_in (start number boot stores).0.life ≡ [] }
    ensures message { (s : State) (m : Message) → (roster_in (step s m).0.life ≡ roster_in s.life) ⊎ (m.note ≡ note.Roster (roster_in (step s m).0.life)) }
    ensures command { (s : State) (session : ℕ) (asked : Command) → roster_in (on_command s session asked).0.life ≡ roster_in s.life }
{}

/// What is kept of a page that is being given back was kept before the step, or its Release was sent in it with just
/// this body. A command gives no page back. So each body that is kept, and sent again, is one that was sent. Refused
/// is a master that keeps another epoch than it tells, and one that keeps what it tells before it is sent.
pub fn what_is_kept_of_a_page_was_sent()
    ensures message { (s : State) (m : Message) (page : ℕ) (body : Left) → Brings m → left_in (step s m).0.life page ≡ Some body → (left_in s.life page ≡ Some body) ⊎ LeftSent (step s m).0.life (step s m).1 page body }
    ensures command { (s : State) (session : ℕ) (asked : Command) (page : ℕ) (body : Left) → left_in (on_command s session asked).0.life page ≡ Some body → left_in s.life page ≡ Some body }
{}

/// A life is of this master, and deals out the pages to as many page stores, in every state. Refused is a master that
/// joins as the number of its boot.
pub fn a_life_is_of_its_master()
    ensures start { (number boot stores : ℕ) → IsNamed (start number boot stores).0 }
    ensures message { (begun : ℕ) (groups : List Group) (s : State) (m : Message) → Facts begun groups s → Brings m → IsNamed s → IsNamed (step s m).0 }
    ensures command { (begun : ℕ) (groups : List Group) (s : State) (session : ℕ) (asked : Command) → Facts begun groups s → IsNamed s → IsNamed (on_command s session asked).0 }
{}

/// What is sent says what stays so: an Append's group stands among the writer's groups at its number; a Stable's number is durable; a
/// RequestFresh has a number up to the one after the last that was answered; a page that was released is over in that
/// epoch, or is being given back with just the body that was told; a transaction of which it was told that it has ended
/// has a durable end. Refused is a Fate that says ended of a transaction whose end is logged and not durable.
pub fn sent_messages_say_what_stays()
    ensures { (begun : ℕ) (groups : List Group) (s : State) (messages : List Message) → Facts begun groups s → IsNamed s → Sent s messages → AllByRecursion (MessageFact groups s) messages }
{}

/// And it stays so, however the state goes on and whatever is logged. It speaks of the relation alone: refused is one by which a page that was
/// given back may be recalled once more in its epoch, and one by which what is kept of it may change. A step that does
/// so is refused by `a_message_goes`.
pub fn what_messages_say_stays()
    ensures { (groups more : List Group) (s t : State) (m : Message) → Goes s t → MessageFact groups s m → MessageFact (groups ++ more) t m }
{}

/// A get is answered a value where a session's transaction hasn't begun to end, the key's path is held, not recalled and
/// in the pool, its row is the own transaction's or one's that is known to have ended, and the leaf has fewer than 4,096
/// shared locks. Refused is a get that asks for a fate which is known, and one that refuses the last shared lock.
pub fn a_get_that_meets_no_lock_is_answered()
    ensures { (s : State) (session table : ℕ) (key : List ℕ) → MayGetIn s.life session table key → (value : Option (List ℕ)) × ((on_command s session (command.Get table key)).1 ≡ reply.Value value) }
{}

/// A put or a del that is so placed is done where the shared locks on its key bind nobody, nor those of other writers on
/// a leaf that splits; where the pages that split have their fresh pages in stock and in the pool, and a root that
/// splits is below the greatest level; and where group numbers and stamps last. Refused is a put that is locked by a
/// reader that has ended, one that asks for one more fresh page than it wants, and one that stops one group too early.
pub fn a_put_that_meets_no_lock_is_done()
    ensures put { (s : State) (session table : ℕ) (key value : List ℕ) → MayPutIn s.life session table key (Some value) → (on_command s session (command.Put table key value)).1 ≡ reply.Done }
    ensures del { (s : State) (session table : ℕ) (key : List ℕ) → MayPutIn s.life session table key None → (on_command s session (command.Del table key)).1 ≡ reply.Done }
{}

/// A recalled page goes once its last change is durable: in no state is there a recalled page of which that is so. So a
/// page that is recalled when it may go is released in that step, and every other one in the step that makes its last
/// change durable; its Release is sent then (`what_is_kept_of_a_page_was_sent`). Refused is a recall that waits for the
/// next acknowledgement, and an acknowledgement that lets one page go and not the others.
pub fn recalled_pages_go_once_they_may()
    ensures start { (number boot stores : ℕ) → LifeRests (start number boot stores).0.life }
    ensures message { (s : State) (m : Message) → Brings m → LifeRests s.life → LifeRests (step s m).0.life }
    ensures command { (s : State) (session : ℕ) (asked : Command) → LifeRests s.life → LifeRests (on_command s session asked).0.life }
{}

/// In no state has the log a durable group: each is let go in the step that makes it durable. So a log takes the memory of
/// the groups that aren't durable, however long its master lives. Refused are an acknowledgement that lets go what was
/// durable before it and no more, and one that lets nothing go.
pub fn no_log_has_a_durable_group()
    ensures start { (number boot stores : ℕ) → LifeHasNoneDurable (start number boot stores).0.life }
    ensures message { (s : State) (m : Message) → Brings m → LifeHasNoneDurable s.life → LifeHasNoneDurable (step s m).0.life }
    ensures command { (s : State) (session : ℕ) (asked : Command) → LifeHasNoneDurable s.life → LifeHasNoneDurable (on_command s session asked).0.life }
{}

/// What a session's command is answered has its cause, and asks for what it names: a master that hasn't joined or is
/// fenced says that, and nothing else; a lock is of a transaction that isn't known to have ended, and is an own one or was
/// told to be open; a fate is asked for, by one Ask, of another writer's transaction of which neither is known; a page
/// that is awaited is asked for by one Request where it has no lease here, by one ReadPage where it is held, and not
/// otherwise; a fresh page by one RequestFresh; a log store that is awaited hasn't acknowledged that group; and the
/// other refusals hold of the session, table, key, value, leaf or transaction number that they name. It doesn't speak of
/// the causes of Full groups and StampsSpent. Refused is a command that locks by a transaction
/// which has ended, one that asks for a fate that was told, and one that awaits a log store which has the group.
pub fn answers_have_their_causes()
    ensures { (s : State) (session : ℕ) (asked : Command) → IsInSession asked → BecauseIn session s.life (on_command s session asked).0.life (on_command s session asked).2 (on_command s session asked).1 }
{}

/// So has the answer to a recovery: no writer is the own one, or one that the last roster doesn't name; a writer is
/// recovered where the lock manager's word or the last roster says so, or its recovery is over; another recovery is under
/// way; what is waited for is that of its stage after the step, where so many rows, at least one, are left to undo, or a
/// log store lacks a group. Refused is a recovery that is taken for done because it is told, and one that waits for the
/// close in each stage.
pub fn a_recovery_answers_its_stage()
    ensures { (s : State) (session : ℕ) (writer : Writer) → RecoverIsSaid s.life (on_command s session (command.Recover writer)).0.life writer (on_command s session (command.Recover writer)).1 }
{}

/// Each group of a closed log that was read was heard: what it tells of other writers than the own one, and the group's
/// own stamp. So a recoverer's clock has come to whatever it undoes. Refused are a recovery that reads groups and hears
/// only what they tell, and one that hears the last one alone.
pub fn groups_that_are_read_are_heard()
    ensures start { (number boot stores : ℕ) → ReadAreHeard (start number boot stores).0.life }
    ensures message { (begun : ℕ) (groups : List Group) (s : State) (m : Message) → Facts begun groups s → Brings m → ReadAreHeard s.life → ReadAreHeard (step s m).0.life }
    ensures command { (begun : ℕ) (groups : List Group) (s : State) (session : ℕ) (asked : Command) → Facts begun groups s → ReadAreHeard s.life → ReadAreHeard (on_command s session asked).0.life }
{}

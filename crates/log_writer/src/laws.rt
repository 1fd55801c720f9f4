//! What holds of every log of a writer, whatever it is told: laws over its definitions alone.
//!
//! A law is the contract of a function that does nothing: a caller that calls it has the law among its
//! facts.
ghost use Rattle.std.specs.Prelude.{◌≡◌, ◌≤◌, ◌⊎◌, ℕ, Some, true, false};
ghost use Rattle.tm_data.specs.declared.log.Group.{Group};
ghost use Rattle.log_writer.specs.Acks.{all_acks, has};
ghost use Rattle.log_writer.specs.declared.logged.Logged.{Logged};
ghost use Rattle.log_writer.specs.Log.{acked, appended, durable_seq, durable_stamp, is_marked, IsLog, lacking, last_seq, last_stamp, let_go, Log, numbered, resent, settled};
ghost use Rattle.log_writer.specs.TakenBack.{taken_back, without_last};

/// The number of the last durable group never falls. Refused is an acknowledgement that takes another back.
pub fn durable_never_falls()
    ensures acked { (log : Log) (store seq : ℕ) → durable_seq log ≤ durable_seq (acked log store seq) }
    ensures appended { (log : Log) (group : Group) → durable_seq (appended log group) ≡ durable_seq log }
{}

/// A mark came from an acknowledgement: an acknowledgement marks its own group for its own store and none
/// other, and a group that is logged has no mark. Refused is a group that is logged as acknowledged.
pub fn marks_come_from_acknowledgements()
    ensures acked { (log : Log) (store seq n s : ℕ) → is_marked (acked log store seq) n s ≡ true → (is_marked log n s ≡ true) ⊎ ((n ≡ seq) × (s ≡ store)) }
    ensures appended { (log : Log) (group : Group) (n s : ℕ) → is_marked (appended log group) n s ≡ is_marked log n s }
{}

/// A group whose stamp is settled is durable. Refused is the stamp of the first group that isn't durable
/// itself.
pub fn what_is_settled_is_durable()
    ensures { (log : Log) (scalar seq : ℕ) (l : Logged) → IsLog log → numbered log seq ≡ Some l → l.group.stamp.0 ≤ settled log scalar → seq ≤ durable_seq log }
{}

/// When the durable groups are let go, none of them stays, and whatever is asked of the log is answered as before: how
/// far it is durable, and with which stamp; what is settled; the last group's number and stamp; which store
/// acknowledged the group of any number, and which one lacks it; and what each of the three stores is sent again.
/// Refused are a log that lets go a group which one store lacks, one that forgets the stamp of the last one that it let
/// go, one that numbers the rest from 1 again, and one that keeps what is durable.
pub fn letting_go_changes_no_answer()
    ensures gone { (log : Log) → (let_go log).gone ≡ durable_seq log }
    ensures durable { (log : Log) → durable_seq (let_go log) ≡ durable_seq log }
    ensures stamp { (log : Log) → durable_stamp (let_go log) ≡ durable_stamp log }
    ensures settled { (log : Log) (scalar : ℕ) → settled (let_go log) scalar ≡ settled log scalar }
    ensures last { (log : Log) → last_seq (let_go log) ≡ last_seq log }
    ensures last_stamp { (log : Log) → last_stamp (let_go log) ≡ last_stamp log }
    ensures marks { (log : Log) (seq store : ℕ) → is_marked (let_go log) seq store ≡ is_marked log seq store }
    ensures lacking { (log : Log) (seq : ℕ) → lacking (let_go log) seq ≡ lacking log seq }
    ensures resent { (log : Log) (store : ℕ) → has all_acks store ≡ true → resent (let_go log).groups store ≡ resent log.groups store }
    ensures order { (log : Log) → IsLog log → IsLog (let_go log) }
{}

/// An acknowledgement that wasn't noted before is taken back whole: the log is as it was. One that was noted before
/// changes nothing when it comes again. Refused are an acknowledgement that is taken back from all three stores, and one
/// that is taken back from the last group in its place.
pub fn an_acknowledgement_is_taken_back_whole()
    ensures back { (log : Log) (store seq : ℕ) → is_marked log seq store ≡ false → taken_back (acked log store seq) store seq ≡ log }
    ensures again { (log : Log) (store seq : ℕ) → is_marked log seq store ≡ true → acked log store seq ≡ log }
{}

/// A group that was logged is dropped whole: the log is as it was. Refused are a log that drops its first group, and one
/// that drops the last two.
pub fn a_group_is_dropped_whole()
    ensures { (log : Log) (group : Group) → without_last (appended log group) ≡ log }
{}

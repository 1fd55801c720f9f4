//! What is true of a page store, whatever comes to it and in whatever order.
//!
//! The first laws speak of runs from nothing. The others speak of one step and of any state: a store is whole
//! (`IsWhole`), what it answers (`ReadIs`), and what the pages say that it sends (`PageMessageIs`, `PageIsSo`).
ghost use Rattle.std.specs.Prelude.{◌≡◌, ◌<◌, ◌-◌, ◌^◌, ℕ, List, Err, Ok, true};
ghost use Rattle.std.specs.List.{AllByRecursion};
ghost use Rattle.tm_data.specs.declared.log.Group.{Group};
ghost use Rattle.tm_base.specs.declared.message.Message.{Message};
ghost use Rattle.store_model.specs.LogGoes.{IsFront};
ghost use Rattle.store_model.specs.PageState.{PageStoreState, is_own, next_of, start};
ghost use Rattle.store_model.specs.PageMoves.{IsDone, RosterIs};
ghost use Rattle.store_model.specs.PageStep.{stepped, ticked};
ghost use Rattle.store_model.specs.PageReads.{of_fault, read_at, read_version, wants};
ghost use Rattle.store_model.specs.PageAnswers.{AreJoined, IsLevel, IsSentBy, PageIsSo, PageMessageIs, ReadIs, WasMade};
ghost use Rattle.store_model.specs.declared.refusal.ReadRefusal.{ReadRefusal};
ghost use Rattle.store_model.specs.declared.refusal.ReadRefusal.TheVariants.{Missing};
ghost use Rattle.tm_base.specs.declared.message.Note.{Note};
ghost use Rattle.store_model.specs.PageWhole.{IsWhole, part_of, with_part};
ghost use Rattle.page_model.specs.Versions.{version, version_upto};
ghost use Rattle.page_model.specs.declared.link.Link.{Link};
ghost use Rattle.tm_data.specs.declared.image.Image.{Image};
ghost use Rattle.tm_data.specs.declared.transaction.Page.{Page};
ghost use Rattle.store_model.specs.PageFacts.{Among, AreApart, AreLogs, Falls, IsHistory, IsIn, IsNoteFrom, IsTold, FrontiersAreOfTaken, PagesAreWhole};

/// What a page store took of a writer is one list of groups without gaps from number 1 on: the number that
/// comes next is that after the last of them, and the frontier is its stamp, or the writer's start.
pub fn frontiers_are_of_taken_groups()
    ensures { FrontiersAreOfTaken }
{}

/// A page that is answered at a scalar is the page there by all records of all groups of all writers, if the
/// groups that came are of each writer's one list, and the last roster tells the truth of these lists.
pub fn pages_are_whole()
    ensures { PagesAreWhole }
{}

/// A page store that has heard nothing is whole. Refused is a first group of number 0.
pub fn a_start_is_whole()
    ensures { (logs : ℕ → List Group) (number stores : ℕ) → IsWhole logs (start number stores) }
{}

/// It stays so at each step, if the groups that come are of the writers' logs, from whatever state: it need not
/// have started empty. Refused are a group that is taken without its records, one that is taken out of turn, and
/// a frontier that isn't the stamp of the last group.
pub fn a_step_keeps_it_whole()
    ensures { (logs : ℕ → List Group) (s : PageStoreState) (m : Message)
        → ((page : ℕ) → AreApart logs page)
        → IsNoteFrom logs m.note
        → IsWhole logs s
        → IsWhole logs (stepped s m).0 }
{}

/// And at a tick. Refused is a tick that forgets.
pub fn a_tick_keeps_it_whole()
    ensures { (logs : ℕ → List Group) (s : PageStoreState)
        → ((page : ℕ) → AreApart logs page)
        → IsWhole logs s
        → IsWhole logs (ticked s).0 }
{}

/// A roster counts unless it is older than the last one, by the message's own fields; no other message changes
/// it. Refused are an older roster that counts, and entries that are added to the last one's.
pub fn rosters_count()
    ensures { (s : PageStoreState) (m : Message) → RosterIs s m m.note (stepped s m).0 }
{}

/// The next group of a listed writer is taken where it comes first, and a page that there is is sent to who asked.
/// Refused are a store that takes nothing, and one that sends nothing.
pub fn next_groups_are_taken()
    ensures { (s : PageStoreState) (m : Message) → IsDone s m m.note }
{}

/// And with a part of a group that was kept and is taken again at a start, if it is the writer's next. Refused is
/// a part without the group's records on the store's pages.
pub fn a_kept_part_keeps_it_whole()
    ensures { (logs : ℕ → List Group) (s : PageStoreState) (g : Group)
        → ((page : ℕ) → AreApart logs page)
        → IsIn logs g
        → g.seq ≡ next_of s g.writer.0
        → g.seq < 2 ^ 32 - 1
        → IsWhole logs s
        → IsWhole logs (with_part s (part_of s.number s.stores g)) }
{}

/// And as the logs grow. It speaks of the relation alone: refused is one that wants all groups taken.
pub fn longer_logs_keep_it_whole()
    ensures { (logs new_logs : ℕ → List Group) (s : PageStoreState)
        → ((writer : ℕ) → IsFront (logs writer) (new_logs writer))
        → IsWhole logs s
        → IsWhole new_logs s }
{}

/// A read at a stamp gives the page by all records of all writers' groups, or the one refusal that is so: another
/// store's page; a roster that is behind; the least writer that is, with its frontier; or, where nothing is
/// behind, a record that doesn't suit or one that no group has. Refused are an answer while a writer is behind,
/// another writer named than the least, and an older version.
pub fn reads_are_so()
    ensures { (logs : ℕ → List Group) (s : PageStoreState) (page : Page) (links : List Link) (stamp : ℕ)
        → AreLogs logs
        → IsTold logs s
        → IsHistory logs page.0 links
        → IsWhole logs s
        → ReadIs s page links stamp (read_at s page stamp) }
{}

/// So where nothing is behind, a page of the store is answered, if all its records give one. Refused is a store
/// that never answers.
pub fn level_pages_are_answered()
    ensures { (logs : ℕ → List Group) (s : PageStoreState) (page : Page) (links : List Link) (stamp : ℕ)
        → AreLogs logs
        → IsTold logs s
        → IsHistory logs page.0 links
        → IsWhole logs s
        → is_own s page.0 ≡ true
        → IsLevel s stamp
        → read_at s page stamp ≡ of_fault (version_upto page links stamp) }
{}

/// And none is missing, where each record of the page was made on the first version or on one that another record
/// made: a store that hasn't taken it is behind. Refused is an answer of what is there while a writer is behind.
pub fn no_record_is_missing()
    ensures { (logs : ℕ → List Group) (s : PageStoreState) (page : Page) (links : List Link) (stamp missing : ℕ)
        → AreLogs logs
        → IsTold logs s
        → IsHistory logs page.0 links
        → IsWhole logs s
        → AreJoined links
        → read_at s page stamp ≡ Err (Missing (record { 0 = missing }))
        → ⊥ }
{}

/// A version that some of a page's records give is the one that all of them give. It speaks of versions alone:
/// refused is one that takes the newest record for a missing one.
pub fn a_version_stays()
    ensures { (page : Page) (all part : List Link) (stamp : ℕ) (image : Image)
        → Falls all
        → Falls part
        → ((l : Link) → Among l part → Among l all)
        → version page part stamp ≡ Ok image
        → version page all stamp ≡ Ok image }
{}

/// A version that is answered is the one by all records on the page, whatever groups were taken. Refused is a
/// version at another stamp.
pub fn versions_are_of_all_records()
    ensures { (logs : ℕ → List Group) (s : PageStoreState) (page : Page) (links : List Link) (stamp : ℕ) (image : Image)
        → IsWhole logs s
        → IsHistory logs page.0 links
        → read_version s page stamp ≡ Ok image
        → version page links stamp ≡ Ok image }
{}

/// Each message that a page store sends in answer goes to who asked, has the scalar as its stamp, and a page that
/// is sent is the version of the page that was asked for, at the stamp that was, by records of it. Refused are
/// stamps of 0, and a page at another stamp.
pub fn sent_pages_are_so()
    ensures { (logs : ℕ → List Group) (s : PageStoreState) (m : Message)
        → IsWhole logs s
        → AllByRecursion (PageMessageIs logs (stepped s m).0 m) (stepped s m).1 }
{}

/// That stays as the logs grow. It speaks of the relation alone: refused is one that wants all records.
pub fn sent_pages_stay()
    ensures { (logs new_logs : ℕ → List Group) (n : Note)
        → ((writer : ℕ) → IsFront (logs writer) (new_logs writer))
        → PageIsSo logs n
        → PageIsSo new_logs n }
{}

/// And such a page is the version by all records of the page that there are. Refused is what the law on versions
/// refuses.
pub fn sent_pages_are_of_all_records()
    ensures { (logs : ℕ → List Group) (image : Image) (links : List Link)
        → WasMade logs image
        → IsHistory logs image.page.0 links
        → version image.page links image.stamp.0 ≡ Ok image }
{}

/// A page store sends four kinds of message, in its own name: pages, that a record of one is missing, and questions for
/// groups, and for rosters and scalars; after a message, on a tick, and where a page at a scalar was refused. Refused is
/// a page store that passes groups on.
pub fn four_kinds_are_sent()
    ensures step { (s : PageStoreState) (m : Message) → AllByRecursion (IsSentBy s) (stepped s m).1 }
    ensures tick { (s : PageStoreState) → AllByRecursion (IsSentBy s) (ticked s).1 }
    ensures refused { (s : PageStoreState) (why : ReadRefusal) (stamp : ℕ) → AllByRecursion (IsSentBy s) (wants s why stamp) }
{}

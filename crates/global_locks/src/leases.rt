//! Leases: what writers ask for and give back.
ghost use Rattle.std.specs.Prelude.{◌≡◌, ◌∷◌, ◌+◌, ◌<◌, ◌-◌, ◌^◌, ◌&&◌, [], true, nat_eq, nat_lt, IfOk, OnErr, IsSome};
ghost use Rattle.lock_model.specs.State.{at, is_holder, page_in};
ghost use Rattle.lock_model.specs.Step.{grant, fresh_is, next_page, on_free, on_held, on_request, on_request_fresh, on_release, on_next};

use crate::Locks;
use lock_model::{Fresh, WriterEntry, WriterStatus};
use tm_base::{
    ItemList, Mem, MessageList, Node, Note, Page, Stamp, TagList, TryCopy, Vector, Writer,
};

impl Locks {
    /// A live writer asks for a page that is there.
    pub(crate) fn on_request(&mut self, writer: Writer, page: Page) -> Mem<(bool, MessageList)>
        ensures ok { IfOk result (λ out. (self.new, out.0, out.1) ≡ on_request self.old writer.0 page.0 (at self.old.writers writer.0)) }
        ensures err { OnErr result (self.new ≡ self.old) }
    {
        let Some(entry) = self.writers.get(writer.0) else {
            return Ok(self.ignored());
        };
        let master = entry.master;
        if !entry.status.is_live() || page.0 == 0 || page.0 >= self.next_fresh {
            return Ok(self.ignored());
        }
        let Some(holder) = self.pages.holder(page) else {
            return self.on_free(master, writer, page);
        };
        if holder.0 == writer.0 {
            let outputs = self.grant(master, writer, page, self.pages.epoch(page))?;
            return Ok((false, outputs));
        }
        self.on_held(holder, page)
    }

    /// A free page is leased at the next epoch, while there is one.
    fn on_free(&mut self, master: u8, writer: Writer, page: Page) -> Mem<(bool, MessageList)>
        ensures ok { IfOk result (λ out. (self.new, out.0, out.1) ≡ on_free self.old master writer.0 page.0 (nat_lt (page_in self.old page.0).epoch (2 ^ 32 - 1))) }
        ensures err { OnErr result (self.new ≡ self.old) }
    {
        let epoch = self.pages.epoch(page);
        if epoch == u32::MAX {
            return Ok(self.ignored());
        }
        let outputs = self.grant(master, writer, page, epoch + 1)?;
        self.pages.lease(self.alloc, page, writer)?;
        Ok((true, outputs))
    }

    /// The holder's master is asked for the page.
    fn on_held(&self, holder: Writer, page: Page) -> Mem<(bool, MessageList)>
        ensures { IfOk result (λ out. (self.now, out.0, out.1) ≡ on_held self.now holder.0 page.0 (at self.now.writers holder.0)) }
    {
        let Some(entry) = self.writers.get(holder.0) else {
            return Ok(self.ignored());
        };
        let number = entry.master;
        let recall = Note::Recall {
            writer: holder,
            page,
            epoch: self.pages.epoch(page),
        };
        let outputs = self.one(Node::Master { number }, recall)?;
        Ok((false, outputs))
    }

    /// The lease at an epoch, with what the last holder left.
    fn grant(&self, master: u8, writer: Writer, page: Page, epoch: u32) -> Mem<MessageList>
        ensures { IfOk result (λ outputs. outputs ≡ grant self.now master writer.0 page.0 (record (page_in self.now page.0) { epoch = epoch }) ∷ []) }
    {
        let (stamp, tags, vector) = match self.pages.get(page) {
            Some(entry) => (entry.stamp, entry.tags.copy()?, entry.vector.copy()?),
            None => (Stamp(0), ItemList::new(self.alloc), Vector::new(self.alloc)),
        };
        let note = Note::Grant {
            writer,
            page,
            epoch,
            stamp,
            tags,
            vector,
        };
        let outputs = self.one(Node::Master { number: master }, note)?;
        Ok(outputs)
    }

    /// A live writer asks for a page that no table uses, or for the answer to its last such request.
    pub(crate) fn on_request_fresh(&mut self, writer: Writer, nth: u32) -> Mem<(bool, MessageList)>
        ensures ok { IfOk result (λ out. (self.new, out.0, out.1) ≡ on_request_fresh self.old writer.0 nth (at self.old.writers writer.0)) }
        ensures err { OnErr result (self.new ≡ self.old) }
    {
        let locks = &*self;
        let Some(entry) = locks.writers.get(writer.0) else {
            return Ok(locks.ignored());
        };
        let WriterStatus::Live = &entry.status else {
            return Ok(locks.ignored());
        };
        let last = entry.fresh;
        if is_next(nth, last.nth) {
            let page = locks.next_page();
            let next = WriterEntry {
                master: entry.master,
                boot: entry.boot,
                start: entry.start,
                status: WriterStatus::Live,
                fresh: Fresh { nth, page },
            };
            return self.on_next(writer, next);
        }
        if nth != last.nth || nth == 0 {
            return Ok(locks.ignored());
        }
        let outputs = locks.fresh_is(entry.master, writer, last)?;
        Ok((false, outputs))
    }

    /// Keeps a writer's entry with the answer to its new request, and the page that is given out.
    fn on_next(&mut self, writer: Writer, next: WriterEntry) -> Mem<(bool, MessageList)>
        requires known { IsSome (at self.old.writers writer.0) }
        requires given { next.fresh.page ≡ next_page self.old }
        ensures ok { IfOk result (λ out. (self.new, out.0, out.1) ≡ on_next self.old writer.0 next next.fresh.nth next.fresh.page) }
        ensures err { OnErr result (self.new ≡ self.old) }
    {
        let outputs = self.fresh_is(next.master, writer, next.fresh)?;
        if let Some(page) = next.fresh.page {
            self.pages.give(self.alloc, page, writer)?;
            self.next_fresh += 1;
        }
        self.writers.set(writer.0, next);
        Ok((true, outputs))
    }

    fn fresh_is(&self, master: u8, writer: Writer, fresh: Fresh) -> Mem<MessageList>
        ensures { IfOk result (λ outputs. outputs ≡ fresh_is self.now master writer.0 fresh.nth fresh.page ∷ []) }
    {
        let Fresh { nth, page } = fresh;
        let note = Note::FreshIs { writer, nth, page };
        self.one(Node::Master { number: master }, note)
    }

    /// The page that is given out next, if there is one.
    fn next_page(&self) -> Option<Page>
        ensures { result ≡ next_page self.now }
    {
        if self.next_fresh == u32::MAX {
            return None;
        }
        Some(Page(self.next_fresh))
    }

    /// A live writer gives a page back. The holder's release of its present epoch frees the page; every
    /// release is answered.
    pub(crate) fn on_release(
        &mut self,
        from: Node,
        writer: Writer,
        lease: (Page, u32),
        stamp: Stamp,
        tags: &TagList,
        vector: &Vector,
    ) -> Mem<(bool, MessageList)>
        ensures ok { IfOk result (λ out. (self.new, out.0, out.1) ≡
            on_release self.old from (record { writer = writer.0; page = lease.0.0; epoch = lease.1; stamp = stamp.0; tags = tags.now; vector = vector.now }) (at self.old.writers writer.0)) }
        ensures err { OnErr result (self.new ≡ self.old) }
    {
        let Some(entry) = self.writers.get(writer.0) else {
            return Ok(self.ignored());
        };
        if !entry.status.is_live() {
            return Ok(self.ignored());
        }
        let (page, epoch) = lease;
        let note = Note::Released {
            writer,
            page,
            epoch,
        };
        let outputs = self.one(from, note)?;
        if !self.is_present(writer, page, epoch) {
            return Ok((false, outputs));
        }
        self.pages.leave(self.alloc, page, stamp, tags, vector)?;
        Ok((true, outputs))
    }

    /// Whether the writer holds the page at this epoch.
    fn is_present(&self, writer: Writer, page: Page, epoch: u32) -> bool
        ensures { result ≡ (is_holder (page_in self.now page.0) writer.0 && nat_eq epoch (page_in self.now page.0).epoch) }
    {
        let Some(holder) = self.pages.holder(page) else {
            return false;
        };
        holder.0 == writer.0 && epoch == self.pages.epoch(page)
    }
}

/// Whether a request is the one after the last.
fn is_next(nth: u32, last: u32) -> bool
    ensures { result ≡ nat_eq nth (last + 1) }
{
    u64::from(nth) == u64::from(last) + 1
}

//! The records that are held of one page.
ghost use Rattle.std.specs.Prelude.{◌≡◌, ◌≤◌, [], length, reverse, OnOk, OnErr};
ghost use Rattle.version_chain.specs.Inside.{inserted};

use page_model::Link;
use std::alloc::Global;
use std::marker::Model;
use tm_base::Mem;

/// The links of a page, which stand ascending by stamp, so that a new one mostly goes to the end.
/// Contracts see them with the newest first.
#[derive(Drop)]
pub(crate) struct Chain {
    links: Vec<Link>,
}

impl Model for Chain {
    ghost use Rattle.std.specs.Prelude.{List, reverse};
    ghost use Rattle.std.specs.Coded.{coded_list};
    ghost use Rattle.page_model.specs.declared.link.Link.{Link};
    ghost use Rattle.page_model.specs.contracts.link.Link as link;

    ghost Value = { List Link };

    ghost coded = { coded_list link.the_row.coded };

    ghost view = { λ c. reverse c.links.items };
}

impl Chain {
    /// No links.
    pub(crate) fn new(alloc: Global) -> Chain
        ensures { result ≡ [] }
    {
        Chain {
            links: Vec::new(alloc),
        }
    }

    /// The links, ascending by stamp.
    pub(crate) fn as_slice(&self) -> &[Link]
        ensures { reverse result.now ≡ self.now }
    {
        self.links.as_slice()
    }

    /// Adds a link behind the first `at`.
    pub(crate) fn insert(&mut self, at: usize, link: Link) -> Mem<()>
        requires { at ≤ length self.old }
        ensures ok { OnOk result (self.new ≡ inserted self.old at link) }
        ensures err { OnErr result (self.new ≡ self.old) }
    {
        self.links.insert(at, link)?;
        Ok(())
    }
}

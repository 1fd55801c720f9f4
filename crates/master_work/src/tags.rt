//! Tags that go, with no count of the steps.
ghost use Rattle.std.specs.Prelude.{◌≡◌, ◌≤◌};
ghost use Rattle.lock_table.specs.Tags.{without_page, without_txn};

use lock_table::Tags;
use std::marker::Brand;
use std::sync::ledger::{Blank, Ledger};
use tm_base::{Page, Steps, Txn};

fn end_in<L: Ledger>(tags: &mut Tags, txn: Txn, blank: Blank)
    requires { (blank.name ≡ L.name) × (blank.parts ≡ L.parts) × (1 ≤ blank.parts) }
    ensures { tags.new ≡ without_txn tags.old txn }
{
    let mut steps = Steps::<L>::new(blank);
    tags.end_of(txn, &mut steps);
}

fn drop_in<L: Ledger>(tags: &mut Tags, page: Page, blank: Blank)
    requires { (blank.name ≡ L.name) × (blank.parts ≡ L.parts) × (1 ≤ blank.parts) }
    ensures { tags.new ≡ without_page tags.old page.0 }
{
    let mut steps = Steps::<L>::new(blank);
    tags.drop_page(page, &mut steps);
}

/// Takes out the tags of a transaction. It takes no memory.
pub fn end_tags(tags: &mut Tags, txn: Txn)
    ensures { tags.new ≡ without_txn tags.old txn }
{
    end_in::<Brand>(tags, txn, Blank::new(1));
}

/// Takes out the tags of a page. It takes no memory.
pub fn drop_tags(tags: &mut Tags, page: Page)
    ensures { tags.new ≡ without_page tags.old page.0 }
{
    drop_in::<Brand>(tags, page, Blank::new(1));
}

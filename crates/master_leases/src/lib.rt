//! What a master does when pages come and go, and when it asks or is told whether a transaction has ended.
//!
//! Each call is the step of that name in `master_model`: the state after it, and the messages that are sent, in order.
//! With want of memory nothing has changed. So what may fail comes first: messages, copies and room are made before
//! the first change, and a change that another one may still follow in vain is taken back.
#![tactic(auto)]

mod fates;
mod fresh;
mod grants;
mod images;
mod recalls;
mod releases;

pub use fates::{on_ask, on_fate};
pub use fresh::on_fresh;
pub use grants::on_grant;
pub use images::{on_page, put_image};
pub use recalls::{again, on_recall, on_released};
pub use releases::{left_of, release};

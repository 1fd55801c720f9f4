//! Images of pages.
ghost use Rattle.std.specs.Prelude.{◌≡◌};

use crate::sizes::child_size;
use crate::{Key, Keyed, KeyedList, Mem, Page, RowList, Stamp, TryCopy};

/// A child of an inner page: the one for the keys from `key` on, up to the next child's.
#[derive(Debug, Drop, PartialEq, Eq)]
pub struct Child {
    pub key: Key,
    pub page: Page,
}

impl TryCopy for Child {
    fn copy(&self) -> Mem<Child> {
        Ok(Child {
            key: self.key.copy()?,
            page: self.page,
        })
    }
}

impl Keyed for Child {
    ghost use Rattle.tm_data.specs.Sizes.{child_size};

    ghost key = { λ c. c.key };

    ghost size = { child_size };

    fn key(&self) -> &[u8] {
        self.key.as_slice()
    }

    fn size(&self) -> usize {
        child_size(self)
    }
}

/// Children that ascend by key, and the sum of their sizes.
pub type ChildList = KeyedList<Child>;

/// What a page holds. The fences `low` and `high` say which keys may be there: those from `low` on
/// and below `high`; none is the open end.
#[derive(Debug, Drop, PartialEq, Eq)]
pub enum Body {
    /// Nothing: a page that no table uses.
    Blank,
    /// Rows of a table, ascending by key.
    Leaf {
        table: u16,
        low: Option<Key>,
        high: Option<Key>,
        rows: RowList,
    },
    /// Children of one level less, ascending by key; `first` is for the keys below the first entry's.
    Inner {
        table: u16,
        /// How far the leaves are below, 1 to 5.
        level: u8,
        low: Option<Key>,
        high: Option<Key>,
        first: Page,
        entries: ChildList,
    },
}

impl TryCopy for Body {
    fn copy(&self) -> Mem<Body> {
        Ok(match self {
            Body::Blank => Body::Blank,
            Body::Leaf {
                table,
                low,
                high,
                rows,
            } => Body::Leaf {
                table: *table,
                low: low.copy()?,
                high: high.copy()?,
                rows: rows.copy()?,
            },
            Body::Inner {
                table,
                level,
                low,
                high,
                first,
                entries,
            } => Body::Inner {
                table: *table,
                level: *level,
                low: low.copy()?,
                high: high.copy()?,
                first: *first,
                entries: entries.copy()?,
            },
        })
    }
}

/// A version of a page: what it holds after the change of this stamp.
#[derive(Debug, Drop, PartialEq, Eq)]
pub struct Image {
    pub page: Page,
    /// The stamp of the last change, 0 where there was none.
    pub stamp: Stamp,
    pub body: Body,
}

impl TryCopy for Image {
    fn copy(&self) -> Mem<Image> {
        Ok(Image {
            page: self.page,
            stamp: self.stamp,
            body: self.body.copy()?,
        })
    }
}

//! The log stores that acknowledged a group.
ghost use Rattle.std.specs.Prelude.{◌≡◌, Option};
ghost use Rattle.log_writer.specs.Acks.{has, has_all, no_acks, with_ack, least_lacking};
ghost use Rattle.log_writer.specs.TakenBack.{without_ack};

/// Which of the three log stores acknowledged a group.
#[derive(Clone, Copy, Debug, PartialEq, Eq)]
pub struct Acks {
    pub first: bool,
    pub second: bool,
    pub third: bool,
}

impl Acks {
    /// None of them.
    pub fn new() -> Acks
        ensures { result ≡ no_acks }
    {
        Acks {
            first: false,
            second: false,
            third: false,
        }
    }

    /// Whether this store did. There are the stores 1 to 3 alone.
    pub fn has(self, store: u8) -> bool
        ensures { result ≡ has self store }
    {
        match store {
            1 => self.first,
            2 => self.second,
            3 => self.third,
            _ => false,
        }
    }

    /// These, and this store, if there is one of that number.
    pub fn with(self, store: u8) -> Acks
        ensures { result ≡ with_ack self store }
    {
        Acks {
            first: self.first || store == 1,
            second: self.second || store == 2,
            third: self.third || store == 3,
        }
    }

    /// These without this store.
    pub fn without(self, store: u8) -> Acks
        ensures { result ≡ without_ack self store }
    {
        Acks {
            first: self.first && store != 1,
            second: self.second && store != 2,
            third: self.third && store != 3,
        }
    }

    /// The least store that isn't among them.
    pub fn least_lacking(self) -> Option<u8>
        ensures { result ≡ least_lacking self.first self.second self.third }
    {
        if !self.first {
            Some(1)
        } else if !self.second {
            Some(2)
        } else if !self.third {
            Some(3)
        } else {
            None
        }
    }
}

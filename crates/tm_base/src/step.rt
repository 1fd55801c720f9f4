//! Lines of a schedule, the atomic steps that they stand for, and what a step shows.
ghost use Rattle.std.specs.Prelude.{◌≡◌};

use crate::{Command, Node, Reply};
use tm_data::{ByteList, Image, ItemList, Key, Mem, Page, Stamp, TryCopy, Value, Vector, Writer};

/// An atomic step: one node's handling of one input.
#[derive(Drop)]
pub enum Step {
    /// A command of a session, 1 to 4,096.
    Do {
        master: u8,
        session: u16,
        command: Command,
    },
    /// Delivers a sent message, numbered from 1, any number of times.
    Deliver {
        number: u32,
    },
    /// Has later drains pass the message over.
    Lose {
        number: u32,
    },
    /// Lets a node do what it does from time to time.
    Tick {
        node: Node,
    },
    /// Stops a node. Of what its disk was not yet asked to keep, mode 0 keeps nothing, mode 1 all, and
    /// mode 2 leaves `ff` in its place.
    Stop {
        node: Node,
        mode: u8,
    },
    /// Starts a node from its disk.
    Start {
        node: Node,
    },
    /// Has the node's device call number `call` from now on, 1 to 1,000,000, fail with that mode.
    Fail {
        node: Node,
        call: u32,
        mode: u8,
    },
    /// Asks a page store for the page at a stamp, once it knows that none below it is missing.
    Page {
        store: u8,
        page: Page,
        stamp: Stamp,
    },
    /// Asks a page store for the version of a page at a stamp.
    Version {
        store: u8,
        page: Page,
        stamp: Stamp,
    },
    /// Publishes a point of a replica that covers `bound`.
    Publish {
        replica: u8,
        bound: Vector,
    },
    /// Asks what a replica waits for.
    Lag {
        replica: u8,
    },
    /// Reads a key at a replica's point.
    Get {
        replica: u8,
        point: u32,
        table: u16,
        key: ByteList,
    },
    /// Reads at a replica's point up to `count` rows, 1 to 100, from a key or the first one on.
    Scan {
        replica: u8,
        point: u32,
        table: u16,
        from: Option<ByteList>,
        count: u8,
    },
}

/// A line of a schedule.
#[derive(Drop)]
pub enum Line {
    /// Makes the world: 1 to 16 masters, 1 to 4 page stores, 0 to 8 replicas.
    World {
        masters: u8,
        page_stores: u8,
        replicas: u8,
    },
    /// One step.
    Step(Step),
    /// Delivers what was never delivered nor lost, at most so many deliveries, 1 to 1,000,000.
    Drain {
        most: u32,
    },
    /// Loses every such message.
    LoseAll,
    /// Ticks every running node.
    TickAll,
    /// Attempts a command until it isn't answered that it should be asked again, at most so many
    /// times, 1 to 1,000.
    Try {
        attempts: u16,
        master: u8,
        session: u16,
        command: Command,
    },
}

/// A row of a replica's answer.
#[derive(Drop)]
pub struct Pair {
    pub key: Key,
    pub value: Value,
}

/// Rows in ascending order of their keys.
pub type PairList = ItemList<Pair>;

/// What a step shows, but for the messages that it sends: one variant for each outcome line.
#[derive(Drop)]
pub enum Outcome {
    /// The step is done.
    Fine,
    /// A master's reply to a session.
    Reply {
        master: u8,
        session: u16,
        reply: Reply,
    },
    /// The receiver is stopped.
    Lost {
        node: Node,
    },
    /// The node runs already.
    Up {
        node: Node,
    },
    /// The node is stopped.
    Down {
        node: Node,
    },
    /// The node stopped: its disk failed.
    Stopped {
        node: Node,
    },
    /// A page store's answer.
    Page {
        store: u8,
        image: Image,
    },
    /// The page is another store's.
    NotHere {
        store: u8,
    },
    /// The store knows only the writers that began below `upto`.
    RosterBehind {
        store: u8,
        upto: Stamp,
    },
    /// The store has this writer's groups only up to `upto`.
    Behind {
        store: u8,
        writer: Writer,
        upto: Stamp,
    },
    /// The record of this stamp isn't there.
    Missing {
        store: u8,
        stamp: Stamp,
    },
    /// The record, or at a replica the image, of this stamp doesn't suit.
    Unfit {
        node: Node,
        stamp: Stamp,
    },
    /// A replica's point and its vector.
    Point {
        replica: u8,
        number: u32,
        vector: Vector,
    },
    /// The replica waits for this stamp of this writer.
    Waits {
        replica: u8,
        writer: Writer,
        stamp: Stamp,
    },
    /// The replica has published as many points as it may.
    FullPoints {
        replica: u8,
    },
    /// The replica waits for nothing.
    Level {
        replica: u8,
    },
    /// A key's value at a replica's point, or none.
    Value {
        replica: u8,
        value: Option<Value>,
    },
    /// The replica has published no such point.
    NoPoint {
        replica: u8,
        number: u32,
    },
    /// Tables are numbered 1 to 1,024.
    NoTable {
        replica: u8,
        table: u16,
    },
    /// A key has at most 64 bytes; this one has `length`.
    TooLongKey {
        replica: u8,
        length: usize,
    },
    /// Rows of a table at a replica's point.
    Rows {
        replica: u8,
        pairs: PairList,
    },
}

impl TryCopy for Step {
    fn copy(&self) -> Mem<Step> {
        Ok(match self {
            Step::Do {
                master,
                session,
                command,
            } => Step::Do {
                master: *master,
                session: *session,
                command: command.copy()?,
            },
            Step::Deliver { number } => Step::Deliver { number: *number },
            Step::Lose { number } => Step::Lose { number: *number },
            Step::Tick { node } => Step::Tick { node: *node },
            Step::Stop { node, mode } => Step::Stop {
                node: *node,
                mode: *mode,
            },
            Step::Start { node } => Step::Start { node: *node },
            Step::Fail { node, call, mode } => Step::Fail {
                node: *node,
                call: *call,
                mode: *mode,
            },
            Step::Page { store, page, stamp } => Step::Page {
                store: *store,
                page: *page,
                stamp: *stamp,
            },
            Step::Version { store, page, stamp } => Step::Version {
                store: *store,
                page: *page,
                stamp: *stamp,
            },
            Step::Publish { replica, bound } => Step::Publish {
                replica: *replica,
                bound: bound.copy()?,
            },
            Step::Lag { replica } => Step::Lag { replica: *replica },
            Step::Get {
                replica,
                point,
                table,
                key,
            } => Step::Get {
                replica: *replica,
                point: *point,
                table: *table,
                key: key.copy()?,
            },
            Step::Scan {
                replica,
                point,
                table,
                from,
                count,
            } => Step::Scan {
                replica: *replica,
                point: *point,
                table: *table,
                from: from.copy()?,
                count: *count,
            },
        })
    }
}

impl TryCopy for Line {
    fn copy(&self) -> Mem<Line> {
        Ok(match self {
            Line::World {
                masters,
                page_stores,
                replicas,
            } => Line::World {
                masters: *masters,
                page_stores: *page_stores,
                replicas: *replicas,
            },
            Line::Step(step) => Line::Step(step.copy()?),
            Line::Drain { most } => Line::Drain { most: *most },
            Line::LoseAll => Line::LoseAll,
            Line::TickAll => Line::TickAll,
            Line::Try {
                attempts,
                master,
                session,
                command,
            } => Line::Try {
                attempts: *attempts,
                master: *master,
                session: *session,
                command: command.copy()?,
            },
        })
    }
}

impl TryCopy for Pair {
    fn copy(&self) -> Mem<Pair> {
        Ok(Pair {
            key: self.key.copy()?,
            value: self.value.copy()?,
        })
    }
}

impl TryCopy for Outcome {
    fn copy(&self) -> Mem<Outcome> {
        Ok(match self {
            Outcome::Fine => Outcome::Fine,
            Outcome::Reply {
                master,
                session,
                reply,
            } => Outcome::Reply {
                master: *master,
                session: *session,
                reply: reply.copy()?,
            },
            Outcome::Lost { node } => Outcome::Lost { node: *node },
            Outcome::Up { node } => Outcome::Up { node: *node },
            Outcome::Down { node } => Outcome::Down { node: *node },
            Outcome::Stopped { node } => Outcome::Stopped { node: *node },
            Outcome::Page { store, image } => Outcome::Page {
                store: *store,
                image: image.copy()?,
            },
            Outcome::NotHere { store } => Outcome::NotHere { store: *store },
            Outcome::RosterBehind { store, upto } => Outcome::RosterBehind {
                store: *store,
                upto: *upto,
            },
            Outcome::Behind {
                store,
                writer,
                upto,
            } => Outcome::Behind {
                store: *store,
                writer: *writer,
                upto: *upto,
            },
            Outcome::Missing { store, stamp } => Outcome::Missing {
                store: *store,
                stamp: *stamp,
            },
            Outcome::Unfit { node, stamp } => Outcome::Unfit {
                node: *node,
                stamp: *stamp,
            },
            Outcome::Point {
                replica,
                number,
                vector,
            } => Outcome::Point {
                replica: *replica,
                number: *number,
                vector: vector.copy()?,
            },
            Outcome::Waits {
                replica,
                writer,
                stamp,
            } => Outcome::Waits {
                replica: *replica,
                writer: *writer,
                stamp: *stamp,
            },
            Outcome::FullPoints { replica } => Outcome::FullPoints { replica: *replica },
            Outcome::Level { replica } => Outcome::Level { replica: *replica },
            Outcome::Value { replica, value } => Outcome::Value {
                replica: *replica,
                value: value.copy()?,
            },
            Outcome::NoPoint { replica, number } => Outcome::NoPoint {
                replica: *replica,
                number: *number,
            },
            Outcome::NoTable { replica, table } => Outcome::NoTable {
                replica: *replica,
                table: *table,
            },
            Outcome::TooLongKey { replica, length } => Outcome::TooLongKey {
                replica: *replica,
                length: *length,
            },
            Outcome::Rows { replica, pairs } => Outcome::Rows {
                replica: *replica,
                pairs: pairs.copy()?,
            },
        })
    }
}

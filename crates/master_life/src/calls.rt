//! The calls of a master that recovers a lost writer.
ghost use Rattle.std.specs.Prelude.{◌≡◌, [], IfOk, OnErr};
ghost use Rattle.std.specs.List.{AllByRecursion};
ghost use Rattle.master_model.specs.State.{Life};
ghost use Rattle.master_model.specs.Recovery.{on_closed, on_groups, on_sealed_from, on_taken};
ghost use Rattle.master_life.specs.Moves as move;
ghost use Rattle.master_life.specs.Moves.{Fits};
ghost use Rattle.master_life.specs.SeenLife.{seen_effect, seen_life};

use crate::LifeState;
use crate::scan::{on_closed_one, on_groups_one, on_sealed_one};
use crate::takeover::on_taken_one;
use tm_base::{Group, Mem, MessageList, Node, Writer};

/// Nothing is sent.
fn nothing(life: &LifeState) -> MessageList
    ensures { result ≡ [] }
{
    MessageList::new(life.work.alloc)
}

/// A log store has sealed the log of a writer, seen alone.
fn seen_sealed(life: &mut LifeState, writer: Writer, store: u8, length: u32) -> Mem<MessageList>
    ensures ok { IfOk result (λ messages. (life.new, messages) ≡ move.recovering life.old writer.0 (λ r. move.on_sealed_one life.old.work r store length)) }
    ensures err { OnErr result (life.new ≡ life.old) }
{
    let none = nothing(life);
    let Some(recovery) = &mut life.recovery else {
        return Ok(none);
    };
    if recovery.writer() != writer {
        return Ok(none);
    }
    let messages = on_sealed_one(&life.work, recovery, store, length)?;
    Ok(messages)
}

/// The log of a writer is sealed at a node, seen alone.
fn seen_sealed_from(
    life: &mut LifeState,
    from: Node,
    writer: Writer,
    length: u32,
) -> Mem<MessageList>
    ensures ok { IfOk result (λ messages. (life.new, messages) ≡ move.on_sealed_from life.old writer.0 length from) }
    ensures err { OnErr result (life.new ≡ life.old) }
{
    let Node::LogStore { number } = from else {
        return Ok(nothing(life));
    };
    let messages = seen_sealed(life, writer, number, length)?;
    Ok(messages)
}

/// The log of a writer is closed, seen alone.
fn seen_closed(life: &mut LifeState, writer: Writer, store: u8, length: u32) -> Mem<MessageList>
    ensures ok { IfOk result (λ messages. (life.new, messages) ≡ move.on_closed life.old writer.0 store length) }
    ensures err { OnErr result (life.new ≡ life.old) }
{
    let none = nothing(life);
    let Some(recovery) = &mut life.recovery else {
        return Ok(none);
    };
    if recovery.writer() != writer {
        return Ok(none);
    }
    let messages = on_closed_one(&life.work, recovery, store, length)?;
    Ok(messages)
}

/// Groups of a writer's closed log came, seen alone.
fn seen_groups(life: &mut LifeState, writer: Writer, groups: &[Group]) -> Mem<MessageList>
    requires { AllByRecursion Fits groups.now }
    ensures ok { IfOk result (λ messages. (life.new, messages) ≡ move.on_groups life.old writer.0 groups.now) }
    ensures err { OnErr result (life.new ≡ life.old) }
{
    let none = nothing(life);
    let Some(recovery) = &mut life.recovery else {
        return Ok(none);
    };
    if recovery.writer() != writer {
        return Ok(none);
    }
    let messages = on_groups_one(&mut life.work, recovery, groups)?;
    Ok(messages)
}

/// A part of a writer's pages is taken over, seen alone.
fn seen_taken(life: &mut LifeState, writer: Writer, part: u32) -> Mem<MessageList>
    ensures ok { IfOk result (λ messages. (life.new, messages) ≡ move.on_taken life.old writer.0 part) }
    ensures err { OnErr result (life.new ≡ life.old) }
{
    let none = nothing(life);
    let Some(recovery) = &mut life.recovery else {
        return Ok(none);
    };
    if recovery.writer() != writer {
        return Ok(none);
    }
    let messages = on_taken_one(&life.work, recovery, part)?;
    Ok(messages)
}

/// A node says that a writer's log is sealed there, with so many groups. Of the first log store that says so of the writer
/// under recovery the lock manager is asked to close the log there. With want of memory nothing has changed.
pub fn on_sealed_at(
    life: &mut LifeState,
    from: Node,
    writer: Writer,
    length: u32,
) -> Mem<MessageList>
    ensures ok { (l : Life) → life.old ≡ seen_life l → IfOk result (λ messages. (life.new, messages) ≡ seen_effect (on_sealed_from l writer.0 length from)) }
    ensures err { OnErr result (life.new ≡ life.old) }
{
    let messages = seen_sealed_from(life, from, writer, length)?;
    Ok(messages)
}

/// The lock manager says that a writer's log is closed, with so many groups, as a log store has it. Of the writer under
/// recovery the first group is asked for there, or, where there is none, the pages are taken over. With want of memory
/// nothing has changed.
pub fn on_closed(life: &mut LifeState, writer: Writer, store: u8, length: u32) -> Mem<MessageList>
    ensures ok { (l : Life) → life.old ≡ seen_life l → IfOk result (λ messages. (life.new, messages) ≡ seen_effect (on_closed l writer.0 store length)) }
    ensures err { OnErr result (life.new ≡ life.old) }
{
    let messages = seen_closed(life, writer, store, length)?;
    Ok(messages)
}

/// Groups of a writer's closed log came, each with stamps up to `2^63 - 1`. Of the writer under recovery those are read and
/// heard that come next; then the next one is asked for, or, with the last one, the pages are taken over. With want of
/// memory nothing has changed.
pub fn on_groups(life: &mut LifeState, writer: Writer, groups: &[Group]) -> Mem<MessageList>
    requires { AllByRecursion Fits groups.now }
    ensures ok { (l : Life) → life.old ≡ seen_life l → IfOk result (λ messages. (life.new, messages) ≡ seen_effect (on_groups l writer.0 groups.now)) }
    ensures err { OnErr result (life.new ≡ life.old) }
{
    let messages = seen_groups(life, writer, groups)?;
    Ok(messages)
}

/// The lock manager says that a part of a writer's pages is taken over. Of the writer under recovery the next part goes, or,
/// after the last one, the rows are left to undo. With want of memory nothing has changed.
pub fn on_taken(life: &mut LifeState, writer: Writer, part: u32) -> Mem<MessageList>
    ensures ok { (l : Life) → life.old ≡ seen_life l → IfOk result (λ messages. (life.new, messages) ≡ seen_effect (on_taken l writer.0 part)) }
    ensures err { OnErr result (life.new ≡ life.old) }
{
    let messages = seen_taken(life, writer, part)?;
    Ok(messages)
}

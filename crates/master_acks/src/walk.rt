//! The pages whose leases are in a state.
ghost use Rattle.std.specs.Prelude.{◌≡◌, ◌++◌, true, IfOk};
ghost use Rattle.std.specs.FinMap as fin;
ghost use Rattle.master_model.specs.Leases.{pages_in};
ghost use Rattle.master_acks.specs.Inside.{has_lease, is_in, pages_from};

use lease_desk::{Desk, Lease};
use std::alloc::Global;
use tm_base::{Mem, Page};

/// Whether a lease is in a state.
fn is_in(state: Lease, lease: Lease) -> bool
    ensures { result ≡ is_in state lease }
{
    match state {
        Lease::None => false,
        Lease::Held => matches!(lease, Lease::Held),
        Lease::Recalled => matches!(lease, Lease::Recalled),
        Lease::Releasing => matches!(lease, Lease::Releasing),
    }
}

/// The page of number 0, which no other page is below, if its lease is in the state.
fn first(alloc: Global, desk: &Desk, state: Lease) -> Mem<Vec<u32>>
    requires { has_lease state ≡ true }
    ensures { IfOk result (λ pages. pages.items ++ pages_from (is_in state) 1 (fin.entries desk.now) ≡ pages_in (is_in state) (fin.entries desk.now)) }
{
    let mut pages = Vec::new(alloc);
    if is_in(state, desk.state(Page(0))) {
        pages.push(0)?;
        return Ok(pages);
    }
    Ok(pages)
}

/// The pages whose leases are in a state, ascending. The state is that of a lease.
pub(crate) fn pages_in(alloc: Global, desk: &Desk, state: Lease) -> Mem<Vec<u32>>
    requires { has_lease state ≡ true }
    ensures { IfOk result (λ pages. pages.items ≡ pages_in (is_in state) (fin.entries desk.now)) }
{
    let mut pages = first(alloc, desk, state)?;
    let mut after = 0;
    while let Some(page) = desk.next_in(state, after) {
        pages.push(page.0)?;
        after = page.0;
    }
    Ok(pages)
}

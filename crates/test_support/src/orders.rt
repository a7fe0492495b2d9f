//! Pairs of pattern vertices whose images are to be in order.

ghost use Rattle.std.specs.Prelude.{◌≡◌, true, IfOk};
ghost use Rattle.graph_rows.specs.Orders.{IsOrder};

use std::alloc::{AllocError, Global};

/// Whether a problem of so many pattern vertices may ask that the images of these pairs be in order.
fn is_order(pairs: &[(u16, u16)], vertices: u16) -> bool
    ensures { result ≡ true → IsOrder vertices pairs.now }
{
    if pairs.len() > 64 {
        return false;
    }
    for x in pairs {
        if x.0 >= vertices || x.1 >= vertices || x.0 == x.1 {
            return false;
        }
    }
    true
}

/// Such pairs, in memory of their own. Other pairs are told as want of memory.
pub fn order_of(
    alloc: Global,
    pairs: &[(u16, u16)],
    vertices: u16,
) -> Result<Vec<(u16, u16)>, AllocError>
    ensures { IfOk result (λ order. IsOrder vertices order.items) }
{
    if !is_order(pairs, vertices) {
        return Err(AllocError);
    }
    Vec::from_slice(alloc, pairs)
}

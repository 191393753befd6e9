//! All ports of a run.

ghost use Rattle.std.specs.Prelude.{◌≡◌, IfOk};
ghost use Rattle.pd_watch.specs.Watch.{all_at_rest};

use crate::Watch;
use std::alloc::{AllocError, Global};

/// So many ports at the start.
///
/// # Errors
/// There is no memory for them.
pub fn at_rest(alloc: Global, ports: usize) -> Result<Vec<Watch>, AllocError>
    ensures { IfOk result (λ v. v.items ≡ all_at_rest ports) }
{
    let mut watches = Vec::new(alloc);
    for _ in 0..ports {
        watches.push(Watch::new(alloc))?;
    }
    Ok(watches)
}

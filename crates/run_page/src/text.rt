//! The text of a page's data.
ghost use Rattle.std.specs.Prelude.{◌≡◌, ◌≢◌, ◌≤◌, All, IfOk, Some};
ghost use Rattle.serde_json.specs.Data.{depth};
ghost use Rattle.serde_json.specs.Read.{max_depth, read};
ghost use Rattle.serde_json.specs.View.{view};
ghost use Rattle.serde_json.specs.Written.{compact_text};
ghost use Rattle.run_page.specs.Closed.{IsClosed};

use serde_json::Value;
use std::alloc::{AllocError, Global};

/// The text of closed data.
pub(crate) fn text_of(alloc: Global, page: &Value) -> Result<Vec<u8>, AllocError>
    requires closed { IsClosed (view page.now) }
    requires shallow { depth (view page.now) ≤ max_depth }
    ensures text { IfOk result (λ v. v.items ≡ compact_text (view page.now)) }
    ensures reads_back { IfOk result (λ v. read v.items ≡ Some (view page.now)) }
    ensures closed { IfOk result (λ v. All (λ b. b ≢ 60) v.items) }
{
    let text = page.to_string(alloc)?;
    Ok(text.into_bytes())
}

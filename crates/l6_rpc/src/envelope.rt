//! The messages that are sent.

ghost use Rattle.std.specs.Prelude.{◌≡◌, IfOk};
ghost use Rattle.serde_json.specs.View.{view};
ghost use Rattle.l6_rpc.specs.Rpc as spec;

use crate::refusal::Refusal;
use serde_json::{Value, json};
use std::alloc::{AllocError, Global};

/// The answer to a request that is refused.
///
/// # Errors
///
/// Memory ran out.
pub fn refused(alloc: Global, id: &Value, why: Refusal) -> Result<Value, AllocError>
    ensures { IfOk result (λ v. view v ≡ spec.refusal (view id.now) why) }
{
    let code = why.code();
    let sentence = why.sentence();
    json!(in alloc; {"jsonrpc": "2.0", "id": id, "error": {"code": code, "message": sentence}})
}

/// The answer to a request that has a result.
///
/// # Errors
///
/// Memory ran out.
pub fn answered(alloc: Global, id: &Value, outcome: Value) -> Result<Value, AllocError>
    ensures { IfOk result (λ v. view v ≡ spec.answer (view id.now) (view outcome)) }
{
    json!(in alloc; {"jsonrpc": "2.0", "id": id, "result": outcome})
}

/// A notification.
///
/// # Errors
///
/// Memory ran out.
pub fn noted(alloc: Global, method: &str, parameters: Value) -> Result<Value, AllocError>
    ensures { IfOk result (λ v. view v ≡ spec.notification method.now (view parameters)) }
{
    json!(in alloc; {"jsonrpc": "2.0", "method": method, "params": parameters})
}

//! Why an object is reconciled (kube-runtime's `controller::ReconcileReason`).

ghost use Rattle.std.specs.Prelude.{◌≡◌, IfOk, Some};
ghost use Rattle.kube_model.specs.Reason.{reason_text};
ghost use Rattle.kube_model.specs.ReasonView.{reason_of};

use kube_meta::{DynamicObject, NoMemory, ObjectRef, Text};
use std::alloc::Global;
use std::fmt;

/// Why an object is reconciled.
#[derive(Debug, Drop)]
pub enum ReconcileReason {
    Unknown,
    ObjectUpdated,
    /// An object that the mapper or an owner reference ties to it changed.
    RelatedObjectUpdated {
        obj_ref: Box<ObjectRef<DynamicObject>>,
    },
    ReconcilerRequestedRetry,
    ErrorPolicyRequestedRetry,
    BulkReconcile,
    Custom {
        reason: Text,
    },
}

impl ReconcileReason {
    /// An equal reason in memory of its own.
    pub fn copy(&self, alloc: Global) -> Result<ReconcileReason, NoMemory>
        ensures { IfOk result (λ r. reason_of r ≡ reason_of self.now) }
    {
        Ok(match self {
            ReconcileReason::Unknown => ReconcileReason::Unknown,
            ReconcileReason::ObjectUpdated => ReconcileReason::ObjectUpdated,
            ReconcileReason::RelatedObjectUpdated { obj_ref } => {
                ReconcileReason::RelatedObjectUpdated {
                    obj_ref: Box::new(alloc, obj_ref.copy(alloc)?)?,
                }
            }
            ReconcileReason::ReconcilerRequestedRetry => ReconcileReason::ReconcilerRequestedRetry,
            ReconcileReason::ErrorPolicyRequestedRetry => {
                ReconcileReason::ErrorPolicyRequestedRetry
            }
            ReconcileReason::BulkReconcile => ReconcileReason::BulkReconcile,
            ReconcileReason::Custom { reason } => ReconcileReason::Custom {
                reason: reason.copy(alloc)?,
            },
        })
    }
}

impl fmt::Display for ReconcileReason {
    ghost output = { λ r. Some (reason_text (reason_of r)) };

    fn fmt<W: fmt::Write>(&self, f: &mut fmt::Formatter<W>) -> fmt::Result {
        match self {
            ReconcileReason::Unknown => f.write_str("unknown"),
            ReconcileReason::ObjectUpdated => f.write_str("object updated"),
            ReconcileReason::RelatedObjectUpdated { obj_ref } => {
                write!(f, "related object updated: {obj_ref}")
            }
            ReconcileReason::ReconcilerRequestedRetry => {
                f.write_str("reconciler requested retry")
            }
            ReconcileReason::ErrorPolicyRequestedRetry => {
                f.write_str("error policy requested retry")
            }
            ReconcileReason::BulkReconcile => f.write_str("bulk reconcile requested"),
            ReconcileReason::Custom { reason } => f.write_str(reason.as_str()),
        }
    }
}

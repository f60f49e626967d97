//! References and reasons as a trace shows them.

ghost use Rattle.kube_meta.specs.Reference.{Reference as reference_record};
ghost use Rattle.kube_model.specs.Reason.{Reason as reason_data_type};
ghost use Rattle.kube_model.specs.ReasonView.{reason_of};
ghost use Rattle.kube_text.specs.TraceText.{reference_data, reason_data};
ghost use Rattle.kube_text.specs.TraceView.{seen_reference};

use crate::show::Show;
use json::Writer;
use kube_meta::ObjectRef;
use kube_object::ScriptObject;
use kube_turn::ReconcileReason;
use std::alloc::{AllocError, Global};

impl Show for ObjectRef<ScriptObject> {
    ghost Seen = { reference_record };

    ghost seen = { seen_reference };

    ghost data_of = { reference_data };

    #[tactic(auto, unfolding(crate::specs::Shown::tokens_of))]
    fn show(&self, alloc: Global, out: &mut Writer) -> Result<(), AllocError> {
        let text = self.to_string(alloc)?;
        out.string(text.as_str())?;
        Ok(())
    }
}

impl Show for ReconcileReason {
    ghost Seen = { reason_data_type };

    ghost seen = { reason_of };

    ghost data_of = { reason_data };

    #[tactic(auto, unfolding(crate::specs::Shown::tokens_of))]
    fn show(&self, alloc: Global, out: &mut Writer) -> Result<(), AllocError> {
        let text = self.to_string(alloc)?;
        out.string(text.as_str())?;
        Ok(())
    }
}

//! Parts of objects of known types, as far as conditions ask them (Kubernetes API reference).

ghost use Rattle.kube_final.specs.Kinds.{balancer_at, condition_at, conditions_at, exposed_at, ingress_at, pod_status_at, service_spec_at};

use kube_meta::reading::{Readable, is_object, maybe_member, member};
use kube_meta::{List, ObjectFault, Text};
use serde_json::Value;
use std::alloc::Global;

/// A condition in an object's status (Kubernetes API concept "conditions").
#[derive(Debug, Drop)]
pub struct StatusCondition {
    pub type_: Text,
    /// `True`, `False` or `Unknown`.
    pub status: Text,
    pub reason: Option<Text>,
}

/// A status, of which its conditions alone are asked.
#[derive(Debug, Drop)]
pub struct ConditionsStatus {
    pub conditions: Option<List<StatusCondition>>,
}

/// The status of a pod.
#[derive(Debug, Drop)]
pub struct PodStatus {
    pub phase: Option<Text>,
}

/// What a service is to be.
#[derive(Debug, Drop)]
pub struct ServiceSpec {
    pub type_: Option<Text>,
}

/// Where a load balancer is reached.
#[derive(Debug, Drop)]
pub struct LoadBalancerIngress {
    pub ip: Option<Text>,
    pub hostname: Option<Text>,
}

/// The status of a load balancer.
#[derive(Debug, Drop)]
pub struct LoadBalancerStatus {
    pub ingress: Option<List<LoadBalancerIngress>>,
}

/// A status, of which its load balancer alone is asked.
#[derive(Debug, Drop)]
pub struct ExposedStatus {
    pub load_balancer: Option<LoadBalancerStatus>,
}

impl Readable for StatusCondition {
    ghost reads = { condition_at };

    #[tactic(auto, unfolding(crate::specs::Kinds::condition_at))]
    fn read(alloc: Global, value: &Value) -> Result<StatusCondition, ObjectFault> {
        is_object(alloc, value)?;
        let type_ = member(alloc, value, "type")?;
        let status = member(alloc, value, "status")?;
        let reason = maybe_member(alloc, value, "reason")?;
        Ok(StatusCondition {
            type_,
            status,
            reason,
        })
    }
}

impl Readable for ConditionsStatus {
    ghost reads = { conditions_at };

    #[tactic(auto, unfolding(crate::specs::Kinds::conditions_at))]
    fn read(alloc: Global, value: &Value) -> Result<ConditionsStatus, ObjectFault> {
        is_object(alloc, value)?;
        let conditions = maybe_member(alloc, value, "conditions")?;
        Ok(ConditionsStatus { conditions })
    }
}

impl Readable for PodStatus {
    ghost reads = { pod_status_at };

    #[tactic(auto, unfolding(crate::specs::Kinds::pod_status_at))]
    fn read(alloc: Global, value: &Value) -> Result<PodStatus, ObjectFault> {
        is_object(alloc, value)?;
        let phase = maybe_member(alloc, value, "phase")?;
        Ok(PodStatus { phase })
    }
}

impl Readable for ServiceSpec {
    ghost reads = { service_spec_at };

    #[tactic(auto, unfolding(crate::specs::Kinds::service_spec_at))]
    fn read(alloc: Global, value: &Value) -> Result<ServiceSpec, ObjectFault> {
        is_object(alloc, value)?;
        let type_ = maybe_member(alloc, value, "type")?;
        Ok(ServiceSpec { type_ })
    }
}

impl Readable for LoadBalancerIngress {
    ghost reads = { ingress_at };

    #[tactic(auto, unfolding(crate::specs::Kinds::ingress_at))]
    fn read(alloc: Global, value: &Value) -> Result<LoadBalancerIngress, ObjectFault> {
        is_object(alloc, value)?;
        let ip = maybe_member(alloc, value, "ip")?;
        let hostname = maybe_member(alloc, value, "hostname")?;
        Ok(LoadBalancerIngress { ip, hostname })
    }
}

impl Readable for LoadBalancerStatus {
    ghost reads = { balancer_at };

    #[tactic(auto, unfolding(crate::specs::Kinds::balancer_at))]
    fn read(alloc: Global, value: &Value) -> Result<LoadBalancerStatus, ObjectFault> {
        is_object(alloc, value)?;
        let ingress = maybe_member(alloc, value, "ingress")?;
        Ok(LoadBalancerStatus { ingress })
    }
}

impl Readable for ExposedStatus {
    ghost reads = { exposed_at };

    #[tactic(auto, unfolding(crate::specs::Kinds::exposed_at))]
    fn read(alloc: Global, value: &Value) -> Result<ExposedStatus, ObjectFault> {
        is_object(alloc, value)?;
        let load_balancer = maybe_member(alloc, value, "loadBalancer")?;
        Ok(ExposedStatus { load_balancer })
    }
}
